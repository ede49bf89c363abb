//! Lines.

ghost use Rattle.std.specs.Prelude.{◌≡◌, ◌+◌, ◌<◌, ◌≤◌, pos};
ghost use Rattle.canvas.specs.Pixels.{IsSquare};
ghost use Rattle.line_draw.specs.Lines.{IsLine, bias_of, half_of};
ghost use Rattle.line_draw.specs.Walks.{IsWalked, IsFar};

use crate::axis::Axis;
use canvas::{Bitmap, Pixel, Spot};

/// Draws the line from one spot to another, with both ends: one point for each step along the
/// longer of its two sides, and the last. It takes no memory.
pub fn line<const SIDE: usize>(bitmap: &mut Bitmap<SIDE>, start: Spot, stop: Spot, pixel: Pixel)
    requires start { (start.x < SIDE) × (start.y < SIDE) }
    requires stop { (stop.x < SIDE) × (stop.y < SIDE) }
    ensures line { IsLine SIDE bitmap.old start stop pixel bitmap.new }
    ensures was_square { IsSquare SIDE bitmap.old }
{
    let steps = start.x.abs_diff(stop.x).max(start.y.abs_diff(stop.y));
    bitmap.set(stop, pixel);
    if steps > 0 {
        let half = (steps - bias(start, stop)) / 2;
        walk(bitmap, start, stop, steps, half, pixel);
    }
}

// Sets the points of a line but for its last.
fn walk<const SIDE: usize>(
    bitmap: &mut Bitmap<SIDE>,
    start: Spot,
    stop: Spot,
    steps: u32,
    half: u32,
    pixel: Pixel,
)
    requires start { (start.x < SIDE) × (start.y < SIDE) }
    requires stop { (stop.x < SIDE) × (stop.y < SIDE) }
    requires half { half < steps }
    requires far { IsFar start.x stop.x steps × IsFar start.y stop.y steps }
    requires small { steps ≤ 1024 }
    requires square { IsSquare SIDE bitmap.old }
    ensures walked { IsWalked SIDE bitmap.old start stop steps half steps pixel bitmap.new }
    ensures square { IsSquare SIDE bitmap.new }
{
    let mut x = Axis::new(start.x, stop.x, steps, half);
    let mut y = Axis::new(start.y, stop.y, steps, half);
    for _step in 0..steps {
        bitmap.set(Spot { x: x.at, y: y.at }, pixel);
        x.step();
        y.step();
    }
}

// What is taken off before the halving: 0 where both coordinates rise or both fall, and else 1.
fn bias(start: Spot, stop: Spot) -> u32
    ensures { result ≡ bias_of start stop }
{
    let to_southeast = start.x < stop.x && start.y < stop.y;
    let to_northwest = stop.x < start.x && stop.y < start.y;
    if to_southeast || to_northwest { 0 } else { 1 }
}
