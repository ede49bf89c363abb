//! The picture, with the memory to draw it.

ghost use Rattle.std.specs.Prelude.{◌≡◌, ◌+◌, ◌^◌, ◌<◌, ◌≤◌, IfOk, length};
ghost use Rattle.painter.specs.Picture.{Does, start};

use crate::direction::Direction;
use canvas::{Bucket, Spot};
use flood::{Work, fill};
use fuun_base::NoMemory;
use layers::Layers;
use line_draw::line;
use rna_code::Act;
use std::alloc::Global;
use std::marker::Model;

#[derive(Drop)]
pub(crate) struct Board<const SIDE: usize, const MAX: usize> {
    bucket: Bucket,
    position: Spot,
    mark: Spot,
    facing: Direction,
    layers: Layers<SIDE, MAX>,
    work: Work<SIDE>,
}

impl<const SIDE: usize, const MAX: usize> Model for Board<SIDE, MAX> {
    ghost use Rattle.painter.specs.Board.{AreInside};
    ghost use Rattle.painter.specs.Picture.{Picture};

    ghost Value = { Picture };

    ghost view = { λ b. record { bucket = b.bucket; at = b.position; mark = b.mark; facing = b.facing; layers = b.layers } };

    ghost invariant = { λ b. AreInside SIDE b.position b.mark };
}

impl<const SIDE: usize, const MAX: usize> Board<SIDE, MAX> {
    // The start.
    pub(crate) fn new(alloc: Global) -> Result<Board<SIDE, MAX>, NoMemory>
        requires side { (1 ≤ SIDE) × (SIDE ≤ 1024) }
        requires most { (1 ≤ MAX) × (MAX ≤ 16) }
        ensures { IfOk result (λ board. board ≡ start SIDE) }
    {
        let origin = Spot { x: 0, y: 0 };
        Ok(Board {
            bucket: Bucket::new(),
            position: origin,
            mark: origin,
            facing: Direction::East,
            layers: Layers::new(alloc)?,
            work: Work::new(alloc)?,
        })
    }

    // The layers.
    pub(crate) fn layers(&self) -> &Layers<SIDE, MAX>
        ensures { result.now ≡ self.now.layers }
    {
        &self.layers
    }

    // Does an act.
    pub(crate) fn act(&mut self, act: Act)
        requires { length self.old.bucket < 2 ^ 100 }
        ensures does { Does SIDE MAX act self.old self.new }
        ensures bucket { length self.new.bucket ≤ length self.old.bucket + 1 }
    {
        match act {
            Act::Add(ink) => self.bucket.add(ink),
            Act::EmptyBucket => self.bucket.empty(),
            Act::Move => self.position = self.facing.step(self.position, SIDE as u32),
            Act::TurnLeft => self.facing = self.facing.left(),
            Act::TurnRight => self.facing = self.facing.right(),
            Act::Mark => self.mark = self.position,
            Act::Line => self.line(),
            Act::Fill => self.fill(),
            Act::AddLayer => self.layers.add(),
            Act::CopyLayer => self.layers.copy(),
            Act::Compose => self.layers.compose(),
            Act::Clip => self.layers.clip(),
        }
    }

    // Draws the line from the position to the mark on the top bitmap.
    fn line(&mut self)
        ensures { Does SIDE MAX Act.Line self.old self.new }
    {
        let pixel = self.bucket.pixel();
        line(self.layers.top_mut(), self.position, self.mark, pixel);
    }

    // Fills at the position on the top bitmap.
    fn fill(&mut self)
        ensures { Does SIDE MAX Act.Fill self.old self.new }
    {
        let pixel = self.bucket.pixel();
        let top = self.layers.top_mut();
        fill(top, &mut self.work, self.position, pixel);
    }
}
