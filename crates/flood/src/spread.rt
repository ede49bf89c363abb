//! Fills.

ghost use Rattle.std.specs.Prelude.{◌≡◌, ◌≢◌, ◌+◌, ◌*◌, ◌<◌, ◌≤◌, [], ◌∷◌};
ghost use Rattle.canvas.specs.Pixels.{IsSquare};
ghost use Rattle.flood.specs.Region.{DifferByOne, IsFill, pixel_of};
ghost use Rattle.flood.specs.Spans.{IsSpanOf};
ghost use Rattle.flood.specs.Filling.{Continues, IsClearIn, work_left};

use crate::scan::{put, scan};
use crate::span::Span;
use crate::work::Work;
use canvas::{Bitmap, Pixel, Spot};

/// Sets the region of a spot: each pixel that can be reached from there by steps to the four
/// neighbours, over pixels that are equal to the spot's own. Steps do not go round an edge. Where
/// the spot's pixel is the new one already, nothing changes.
///
/// It takes no memory, and time in the number of pixels that it sets.
pub fn fill<const SIDE: usize>(
    bitmap: &mut Bitmap<SIDE>,
    work: &mut Work<SIDE>,
    spot: Spot,
    pixel: Pixel,
)
    requires { (spot.x < SIDE) × (spot.y < SIDE) }
    ensures fill { IsFill SIDE bitmap.old spot pixel bitmap.new }
    ensures unchanged { pixel_of SIDE bitmap.old spot ≡ pixel → bitmap.new ≡ bitmap.old }
    ensures was_square { IsSquare SIDE bitmap.old }
{
    let from = bitmap.get(spot);
    if from != pixel {
        work.clear();
        put(bitmap, work, spot, from, pixel);
        spread(bitmap, work, from, pixel);
    }
}

// Goes on from the listed spans until there is none.
fn spread<const SIDE: usize>(
    bitmap: &mut Bitmap<SIDE>,
    work: &mut Work<SIDE>,
    from: Pixel,
    to: Pixel,
)
    requires differ { from ≢ to }
    requires room { work_left from bitmap.old work.old ≤ SIDE * SIDE }
    requires square { IsSquare SIDE bitmap.old }
    ensures goes_on { Continues SIDE from to bitmap.old work.old bitmap.new [] }
    ensures square { IsSquare SIDE bitmap.new }
{
    while let Some(span) = work.pop() {
        spread_from(bitmap, work, span, from, to);
    }
}

// Goes on from a span to the rows to its north and south.
fn spread_from<const SIDE: usize>(
    bitmap: &mut Bitmap<SIDE>,
    work: &mut Work<SIDE>,
    span: Span,
    from: Pixel,
    to: Pixel,
)
    requires span { IsSpanOf SIDE span }
    requires differ { from ≢ to }
    requires room { work_left from bitmap.old work.old ≤ SIDE * SIDE }
    requires square { IsSquare SIDE bitmap.old }
    ensures goes_on { Continues SIDE from to bitmap.old (span ∷ work.old) bitmap.new work.new }
    ensures left { work_left from bitmap.new work.new ≤ work_left from bitmap.old work.old }
    ensures square { IsSquare SIDE bitmap.new }
{
    // North of the first row is a number past the last one, and so no row.
    spread_to(bitmap, work, span, span.y.wrapping_sub(1), from, to);
    spread_to(bitmap, work, span, span.y + 1, from, to);
}

// Goes on from a span to a row beside it, if the bitmap has that row.
fn spread_to<const SIDE: usize>(
    bitmap: &mut Bitmap<SIDE>,
    work: &mut Work<SIDE>,
    span: Span,
    y: u32,
    from: Pixel,
    to: Pixel,
)
    requires span { IsSpanOf SIDE span }
    requires beside { y < SIDE → DifferByOne span.y y }
    requires differ { from ≢ to }
    requires room { work_left from bitmap.old work.old ≤ SIDE * SIDE }
    requires square { IsSquare SIDE bitmap.old }
    ensures goes_on { Continues SIDE from to bitmap.old (span ∷ work.old) bitmap.new (span ∷ work.new) }
    ensures clear { IsClearIn SIDE bitmap.new from span y }
    ensures left { work_left from bitmap.new work.new ≤ work_left from bitmap.old work.old }
    ensures square { IsSquare SIDE bitmap.new }
{
    if (y as usize) < SIDE {
        scan(bitmap, work, Span { y, ..span }, from, to);
    }
}
