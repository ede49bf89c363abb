//! How long the DNA of a picture is.
ghost use Rattle.std.specs.Prelude.{◌≡◌, ◌+◌, ◌*◌, ◌<◌, ◌≤◌, None, length};
ghost use Rattle.picture_in.specs.Pixmap.{IsPicture};
ghost use Rattle.draw_compile.specs.Drawing.{drawing, last_pixel};
ghost use Rattle.draw_compile.specs.Lengths.{filling_count, row_fillings, run_count};
ghost use Rattle.draw_compile.specs.Runs.{row_at, runs_from, runs_of};

use crate::runs::{Rgb, SIDE, needs_filling, run_at};
use canvas::Spot;
use picture_in::Picture;

/// How many runs there are, for how many of them the bucket is filled, and the pixel of the last one.
#[derive(Clone, Copy)]
struct Counts {
    runs: u64,
    fillings: u64,
    last: Option<Rgb>,
}

/// The length of the DNA that draws a picture, in bases.
pub(crate) fn drawing_len(picture: &Picture) -> u64
    ensures len { result ≡ length (drawing picture.now) }
    ensures most { result ≤ 932418000 }
    ensures picture { IsPicture picture.now }
{
    let counts = count_rows(picture);
    10 * (256 * counts.fillings + 2 * counts.runs + picture.pixel_count() as u64 + 1_800)
}

// Counts the runs of all rows.
fn count_rows(picture: &Picture) -> Counts
    ensures runs { result.runs ≡ run_count (runs_from 600 picture.now 0 600) }
    ensures fillings { result.fillings ≡ filling_count None (runs_from 600 picture.now 0 600) }
    ensures few { (result.runs ≤ 360000) × (result.fillings ≤ 360000) }
{
    let mut counts = Counts {
        runs: 0,
        fillings: 0,
        last: None,
    };
    for y in 0..SIDE {
        counts = count_row(picture, y, counts);
    }
    counts
}

// Counts the runs of a row, beside those before.
fn count_row(picture: &Picture, y: u32, before: Counts) -> Counts
    requires inside { y < SIDE }
    requires few { (before.runs ≤ 600 * y) × (before.fillings ≤ 600 * y) }
    ensures runs { result.runs ≡ before.runs + length (runs_of (row_at 600 picture.now y)) }
    ensures fillings { result.fillings ≡ before.fillings + row_fillings before.last (runs_of (row_at 600 picture.now y)) }
    ensures last { result.last ≡ last_pixel before.last (runs_of (row_at 600 picture.now y)) }
    ensures few { (result.runs ≤ 600 * (y + 1)) × (result.fillings ≤ 600 * (y + 1)) }
{
    let mut counts = before;
    let mut x = 0;
    while x < SIDE {
        let run = run_at(picture, Spot { x, y });
        counts.runs += 1;
        counts.fillings += u64::from(needs_filling(counts.last, run.pixel));
        counts.last = Some(run.pixel);
        x += run.len;
    }
    counts
}
