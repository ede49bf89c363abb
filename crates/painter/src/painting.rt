//! The painter.

ghost use Rattle.std.specs.Prelude.{◌≡◌, ℕ, ◌+◌, ◌^◌, ◌<◌, ◌≤◌, [], ◌∷◌, IfOk, OnOk, OnErr};
ghost use Rattle.std.specs.Result.{IsOk};
ghost use Rattle.fuun_io.specs.Counts.{Rose};
ghost use Rattle.rna_code.specs.Commands.{act_of};
ghost use Rattle.layers.specs.Layers.{top_of};
ghost use Rattle.painter.specs.Picture.{Acts, start};
ghost use Rattle.painter.specs.Painting.{Paints, PaintsFront, faults_of};
ghost use Rattle.painter.specs.Taking.{paints_counts_within, paints_goes_on, paints_goes_within, paints_starts, paints_stays, paints_widens};

use crate::board::Board;
use canvas::Bitmap;
use dna_reader::{RnaTaker, TakeError};
use fuun_base::{Command, NoMemory};
use rna_code::{Profile, decode};
use std::alloc::Global;
use std::marker::Model;

/// The picture that commands of RNA draw, on bitmaps of `SIDE` times `SIDE` pixels, at most `MAX` of them.
/// `SIDE` is 1 to 1024 and `MAX` is 1 to 16.
#[derive(Drop)]
pub struct Painter<const SIDE: usize, const MAX: usize> {
    profile: Profile,
    board: Board<SIDE, MAX>,
    taken: u128,
}

impl<const SIDE: usize, const MAX: usize> Model for Painter<SIDE, MAX> {
    ghost use Rattle.std.specs.Prelude.{◌≤◌, length};
    ghost use Rattle.painter.specs.Painting.{Painting};

    ghost Value = { Painting };

    ghost view = { λ p. record { profile = p.profile; picture = p.board; taken = p.taken } };

    ghost invariant = { λ p. length p.board.bucket ≤ p.taken };
}

impl<const SIDE: usize, const MAX: usize> Painter<SIDE, MAX> {
    /// The start: one transparent bitmap, an empty bucket, position and mark in the north-west, facing east. It takes all its
    /// memory here. The commands are those of the profile, whatever `SIDE` and `MAX` are.
    pub fn new(alloc: Global, profile: Profile) -> Result<Painter<SIDE, MAX>, NoMemory>
        requires side { (1 ≤ SIDE) × (SIDE ≤ 1024) }
        requires most { (1 ≤ MAX) × (MAX ≤ 16) }
        ensures { IfOk result (λ painter. painter ≡ record { profile = profile; picture = start SIDE; taken = 0 }) }
    {
        Ok(Painter {
            profile,
            board: Board::new(alloc)?,
            taken: 0,
        })
    }

    /// Does what a command says; one that is not in the profile's table does nothing.
    pub fn paint(&mut self, command: &Command)
        requires { self.old.taken < 2 ^ 100 }
        ensures acts { Acts SIDE MAX (act_of self.old.profile) command.now self.old.picture self.new.picture }
        ensures profile { self.new.profile ≡ self.old.profile }
        ensures taken { self.new.taken ≡ self.old.taken + 1 }
    {
        if let Some(act) = decode(command, self.profile) {
            self.board.act(act);
        }
        self.taken += 1;
    }

    /// The top bitmap.
    pub fn top(&self) -> &Bitmap<SIDE>
        ensures { result.now ≡ top_of self.now.picture.layers }
    {
        self.board.layers().top()
    }
}

/// A painter takes each command by painting it.
impl<const SIDE: usize, const MAX: usize> RnaTaker for Painter<SIDE, MAX> {
    ghost faults = { faults_of };

    ghost taken = { λ painter. painter.taken };

    ghost follows = { Paints SIDE MAX };

    ghost within = { PaintsFront SIDE MAX };

    /// Paints a command. It always answers Ok.
    fn take(&mut self, command: &Command) -> Result<(), TakeError>
        requires { self.old.taken < 2 ^ 100 }
        ensures always { IsOk result }
        ensures follows { OnOk result (Paints SIDE MAX self.old (command.now ∷ []) self.new) }
        ensures one_more { OnOk result (self.new.taken ≡ self.old.taken + 1) }
        ensures no_fault { OnOk result (faults_of self.new ≡ faults_of self.old) }
        ensures within { OnErr result (PaintsFront SIDE MAX self.old (command.now ∷ []) self.new) }
        ensures none_more { OnErr result (self.new.taken ≡ self.old.taken) }
        ensures failed { result ≡ Err TakeError.Failed → Rose (faults_of self.old) (faults_of self.new) }
        ensures memory { result ≡ Err TakeError.NoMemory → faults_of self.new ≡ faults_of self.old }
    {
        self.paint(command);
        Ok(())
    }

    ghost stays = { paints_stays SIDE MAX };

    ghost goes_on = { paints_goes_on SIDE MAX };

    ghost counts = { λ a b x paints. paints.counted };

    ghost starts = { paints_starts SIDE MAX };

    ghost goes_within = { paints_goes_within SIDE MAX };

    ghost widens = { paints_widens SIDE MAX };

    ghost counts_within = { paints_counts_within SIDE MAX };
}
