//! A square bitmap.

ghost use Rattle.std.specs.Prelude.{◌≡◌, ℕ, ◌+◌, ◌*◌, ◌<◌, ◌≤◌, IfOk, length};
ghost use Rattle.canvas.specs.Pixels.{IsSquare, blank, pixel_at, place_of, row_of, with_pixel, with_span};

use crate::pixel::{Pixel, Spot};
use fuun_base::NoMemory;
use std::alloc::Global;
use std::marker::Model;

/// A bitmap of `SIDE` times `SIDE` pixels, `SIDE` from 1 to 1024: rows from the north, each from
/// the west.
#[derive(Drop)]
pub struct Bitmap<const SIDE: usize> {
    pixels: Vec<Pixel>,
}

impl<const SIDE: usize> Model for Bitmap<SIDE> {
    ghost use Rattle.std.specs.Prelude.{List};
    ghost use Rattle.canvas.specs.Pixels.{Rgba, IsSquare};

    ghost Value = { List Rgba };

    ghost view = { λ b. b.pixels.items };

    ghost invariant = { λ b. IsSquare SIDE b.pixels.items };
}

impl<const SIDE: usize> Bitmap<SIDE> {
    ghost use Rattle.std.specs.Borrow.{sem};
    ghost use Rattle.canvas.specs.Lending.{LendsPixels};

    /// The bitmap that is transparent everywhere. It takes all its memory here.
    pub fn new(alloc: Global) -> Result<Bitmap<SIDE>, NoMemory>
        requires { (1 ≤ SIDE) × (SIDE ≤ 1024) }
        ensures value { IfOk result (λ bitmap. bitmap ≡ blank SIDE) }
        ensures square { IfOk result (λ bitmap. IsSquare SIDE bitmap) }
    {
        let pixels = Vec::from_elem(alloc, Pixel::of(0, 0, 0, 0), area(SIDE))?;
        Ok(Bitmap { pixels })
    }

    /// Makes every pixel transparent.
    pub fn clear(&mut self)
        ensures blank { self.new ≡ blank SIDE }
        ensures square { IsSquare SIDE self.new }
    {
        self.pixels.fill(Pixel::of(0, 0, 0, 0));
    }

    /// The pixel at a spot.
    pub fn get(&self, spot: Spot) -> Pixel
        requires { (spot.x < SIDE) × (spot.y < SIDE) }
        ensures value { result ≡ pixel_at SIDE self.now spot.x spot.y }
        ensures square { IsSquare SIDE self.now }
    {
        self.pixels[place(SIDE, spot)]
    }

    /// Sets the pixel at a spot, and no other.
    pub fn set(&mut self, spot: Spot, pixel: Pixel)
        requires { (spot.x < SIDE) × (spot.y < SIDE) }
        ensures value { self.new ≡ with_pixel SIDE self.old spot.x spot.y pixel }
        ensures square { IsSquare SIDE self.new }
        ensures was_square { IsSquare SIDE self.old }
    {
        self.pixels[place(SIDE, spot)] = pixel;
    }

    /// All pixels, rows from the north, each from the west.
    pub fn pixels(&self) -> &[Pixel]
        ensures value { result.now ≡ self.now }
        ensures square { IsSquare SIDE self.now }
    {
        &self.pixels
    }

    /// All pixels, to be written: rows from the north, each from the west.
    pub fn pixels_mut(&mut self) -> &mut [Pixel]
        ensures* writes_back { sem 𝓛 (LendsPixels SIDE self.entry result) }
        ensures value { result.now ≡ self.old }
        ensures square { IsSquare SIDE self.old }
    {
        self.pixels.as_mut_slice()
    }

    /// The pixels of a row, from the west.
    pub fn row(&self, y: u32) -> &[Pixel]
        requires { y < SIDE }
        ensures value { result.now ≡ row_of SIDE self.now y }
        ensures len { length result.now ≡ SIDE }
        ensures square { IsSquare SIDE self.now }
    {
        let pixels = self.pixels();
        let start = place(SIDE, Spot { x: 0, y });
        &pixels[start..start + SIDE]
    }

    /// Sets the pixels of a row from `start` to just before `stop`, and no others.
    pub fn fill_row(&mut self, y: u32, start: u32, stop: u32, pixel: Pixel)
        requires { (y < SIDE) × (start ≤ stop) × (stop ≤ SIDE) }
        ensures value { self.new ≡ with_span SIDE self.old y start stop pixel }
        ensures square { IsSquare SIDE self.new }
        ensures was_square { IsSquare SIDE self.old }
    {
        let pixels = &mut self.pixels;
        let west = place(SIDE, Spot { x: 0, y });
        pixels[west + start as usize..west + stop as usize].fill(pixel);
    }
}

// How many pixels a bitmap of this side has.
fn area(side: usize) -> usize
    requires { side ≤ 1024 }
    ensures { result ≡ side * side }
{
    side * side
}

// Where a spot's pixel stands.
fn place(side: usize, spot: Spot) -> usize
    requires range { side ≤ 1024 }
    requires inside { (spot.x < side) × (spot.y < side) }
    ensures value { result ≡ place_of side spot.x spot.y }
    ensures inside { result < side * side }
{
    spot.y as usize * side + spot.x as usize
}
