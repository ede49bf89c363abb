//! Runs of equal pixels.
ghost use Rattle.std.specs.Prelude.{◌≡◌, ◌+◌, ◌<◌, ◌≤◌, ◌∷◌, drop};
ghost use Rattle.picture_in.specs.Pixmap.{rgb_at};
ghost use Rattle.draw_compile.specs.Drawing.{needs_filling};
ghost use Rattle.draw_compile.specs.Runs.{row_at, runs_of, same};

use canvas::Spot;
use picture_in::Picture;

/// How many pixels a picture has on each side.
pub(crate) const SIDE: u32 = 600;

/// The red, the green and the blue of a pixel.
pub(crate) type Rgb = (u8, u8, u8);

/// A longest stretch of equal pixels in one row.
#[derive(Clone, Copy, Debug, PartialEq, Eq)]
pub(crate) struct Run {
    pub(crate) pixel: Rgb,
    pub(crate) len: u32,
}

/// The run that begins at a spot.
pub(crate) fn run_at(picture: &Picture, start: Spot) -> Run
    requires { (start.x < SIDE) × (start.y < SIDE) }
    ensures first { let row = row_at 600 picture.now start.y in
        runs_of (drop start.x row) ≡ result ∷ runs_of (drop (start.x + result.len) row) }
    ensures some { 1 ≤ result.len }
    ensures within { start.x + result.len ≤ SIDE }
{
    let pixel = picture.rgb(start);
    let mut stop = start.x + 1;
    while stop < SIDE
        && is_at(
            picture,
            Spot {
                x: stop,
                y: start.y,
            },
            pixel,
        )
    {
        stop += 1;
    }
    Run {
        pixel,
        len: stop - start.x,
    }
}

// Whether the pixel at a spot is this one.
fn is_at(picture: &Picture, spot: Spot, pixel: Rgb) -> bool
    requires { (spot.x < SIDE) × (spot.y < SIDE) }
    ensures { result ≡ same pixel (rgb_at picture.now spot.x spot.y) }
{
    same(pixel, picture.rgb(spot))
}

/// Whether the bucket is to be filled for a pixel behind the run of another, or behind none.
pub(crate) fn needs_filling(before: Option<Rgb>, pixel: Rgb) -> bool
    ensures { result ≡ needs_filling before pixel }
{
    match before {
        Some(before) => !same(before, pixel),
        None => true,
    }
}

fn same(p: Rgb, q: Rgb) -> bool
    ensures { result ≡ same p q }
{
    p.0 == q.0 && p.1 == q.1 && p.2 == q.2
}
