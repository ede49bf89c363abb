//! Pixels of one row.

ghost use Rattle.std.specs.Prelude.{◌≡◌, ◌≢◌, ℕ, ◌-◌, ◌<◌, ◌≤◌, length, slice_index_or};
ghost use Rattle.canvas.specs.Pixels.{transparent};

use canvas::Pixel;

// The first place from `start` to just before `stop` that holds the pixel, or a place at or past `stop`.
pub(crate) fn next(row: &[Pixel], start: u32, stop: u32, pixel: Pixel) -> u32
    requires { stop ≤ length row.now }
    ensures from { start ≤ result }
    ensures passed { (k : ℕ) → start ≤ k → k < result → slice_index_or row.now k transparent ≢ pixel }
    ensures found { result < stop → slice_index_or row.now result transparent ≡ pixel }
{
    let mut place = start;
    while place < stop && !row[place as usize].equals(pixel) {
        place += 1;
    }
    place
}

// The west end of the longest run of a pixel that ends before `place`, or `place`.
pub(crate) fn west_end(row: &[Pixel], place: u32, pixel: Pixel) -> u32
    requires { place < length row.now }
    ensures from { result ≤ place }
    ensures run { (k : ℕ) → result ≤ k → k < place → slice_index_or row.now k transparent ≡ pixel }
    ensures longest { 0 < result → slice_index_or row.now (result - 1) transparent ≢ pixel }
{
    let mut start = place;
    while start > 0 && row[start as usize - 1].equals(pixel) {
        start -= 1;
    }
    start
}

// The east end of the longest run of a pixel that begins at `place`, or `place`: the first place behind it.
pub(crate) fn east_end(row: &[Pixel], place: u32, pixel: Pixel) -> u32
    requires { (place ≤ length row.now) × (length row.now ≤ 1024) }
    ensures from { (place ≤ result) × (result ≤ length row.now) }
    ensures run { (k : ℕ) → place ≤ k → k < result → slice_index_or row.now k transparent ≡ pixel }
    ensures longest { result < length row.now → slice_index_or row.now result transparent ≢ pixel }
{
    let mut stop = place;
    while (stop as usize) < row.len() && row[stop as usize].equals(pixel) {
        stop += 1;
    }
    stop
}
