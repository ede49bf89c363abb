//! One row of a fill.

ghost use Rattle.std.specs.Prelude.{◌≡◌, ◌≢◌, ℕ, ◌+◌, ◌*◌, ◌<◌, ◌≤◌, ◌∷◌, length};
ghost use Rattle.canvas.specs.declared.pixel.Spot.{Spot as Place};
ghost use Rattle.canvas.specs.Pixels.{IsInside, IsSquare, with_span};
ghost use Rattle.flood.specs.declared.span.Span.{Span as Spots};
ghost use Rattle.flood.specs.Region.{pixel_of};
ghost use Rattle.flood.specs.Spans.{IsSpanOf};
ghost use Rattle.flood.specs.Filling.{AreAdjacent, Continues, Covers, IsRun, work_left};

use crate::row::{east_end, next, west_end};
use crate::span::Span;
use crate::work::Work;
use canvas::{Bitmap, Pixel, Spot};

// Sets each pixel `from` of a part of a row, with the run round it, and lists the runs.
pub(crate) fn scan<const SIDE: usize>(
    bitmap: &mut Bitmap<SIDE>,
    work: &mut Work<SIDE>,
    part: Span,
    from: Pixel,
    to: Pixel,
)
    requires part { IsSpanOf SIDE part }
    requires differ { from ≢ to }
    requires room { work_left from bitmap.old work.old ≤ SIDE * SIDE }
    ensures goes_on { (held : Spots) → AreAdjacent held part → Continues SIDE from to bitmap.old (held ∷ work.old) bitmap.new (held ∷ work.new) }
    ensures clear { (s : Place) → Covers part s → pixel_of SIDE bitmap.new s ≢ from }
    ensures left { work_left from bitmap.new work.new ≤ work_left from bitmap.old work.old }
    ensures square { IsSquare SIDE bitmap.new }
{
    let mut x = next(bitmap.row(part.y), part.start, part.stop, from);
    while x < part.stop {
        let run = put(bitmap, work, Spot { x, y: part.y }, from, to);
        x = next(bitmap.row(part.y), run.stop, part.stop, from);
    }
}

// Sets the run of `from` round a spot, and lists it.
pub(crate) fn put<const SIDE: usize>(
    bitmap: &mut Bitmap<SIDE>,
    work: &mut Work<SIDE>,
    spot: Spot,
    from: Pixel,
    to: Pixel,
) -> Span
    requires inside { IsInside SIDE spot }
    requires differ { from ≢ to }
    requires here { pixel_of SIDE bitmap.old spot ≡ from }
    requires room { work_left from bitmap.old work.old ≤ SIDE * SIDE }
    ensures run { IsRun SIDE bitmap.old from spot result }
    ensures set { bitmap.new ≡ with_span SIDE bitmap.old result.y result.start result.stop to }
    ensures listed { work.new ≡ result ∷ work.old }
    ensures left { work_left from bitmap.new work.new ≤ work_left from bitmap.old work.old }
    ensures square { IsSquare SIDE bitmap.new }
    ensures was_square { IsSquare SIDE bitmap.old }
{
    let run = run_at(bitmap, spot, from);
    bitmap.fill_row(run.y, run.start, run.stop, to);
    work.push(run);
    run
}

// The longest span of `from` that has the spot.
fn run_at<const SIDE: usize>(bitmap: &Bitmap<SIDE>, spot: Spot, from: Pixel) -> Span
    requires inside { IsInside SIDE spot }
    requires here { pixel_of SIDE bitmap.now spot ≡ from }
    ensures run { IsRun SIDE bitmap.now from spot result }
    ensures square { IsSquare SIDE bitmap.now }
{
    let row = bitmap.row(spot.y);
    let start = west_end(row, spot.x, from);
    let stop = east_end(row, spot.x, from);
    Span {
        y: spot.y,
        start,
        stop,
    }
}
