//! The layers of a picture.

ghost use Rattle.std.specs.Prelude.{◌≡◌, ◌≤◌, [], ◌∷◌, IfOk, length, vec_len};
ghost use Rattle.std.specs.Vec.{vec_capacity};
ghost use Rattle.canvas.specs.Pixels.{IsSquare, blank};
ghost use Rattle.layers.specs.Layers.{with_clipped, with_composed, with_copy, with_layer, top_of};

use crate::blend;
use canvas::Bitmap;
use fuun_base::NoMemory;
use std::alloc::Global;
use std::marker::Model;

/// The layers of a picture: 1 to `MAX` bitmaps of `SIDE` times `SIDE` pixels, the top one first.
/// `SIDE` is 1 to 1024 and `MAX` is 1 to 16.
#[derive(Drop)]
pub struct Layers<const SIDE: usize, const MAX: usize> {
    top: Bitmap<SIDE>,
    // Lowest first.
    below: Vec<Bitmap<SIDE>>,
    // Bitmaps that no layer uses now, whatever they show.
    spare: Vec<Bitmap<SIDE>>,
}

impl<const SIDE: usize, const MAX: usize> Model for Layers<SIDE, MAX> {
    ghost use Rattle.std.specs.Prelude.{List, ◌∷◌, reverse};
    ghost use Rattle.canvas.specs.Pixels.{Rgba};
    ghost use Rattle.layers.specs.Stack.{HasRoom};

    ghost Value = { List (List Rgba) };

    ghost view = { λ a. a.top ∷ reverse a.below.items };

    ghost invariant = { λ a. HasRoom MAX a.below a.spare };
}

impl<const SIDE: usize, const MAX: usize> Layers<SIDE, MAX> {
    ghost use Rattle.std.specs.Borrow.{sem};
    ghost use Rattle.layers.specs.Lending.{LendsTop};

    /// One transparent bitmap, and room for all the others. It takes all its memory here.
    pub fn new(alloc: Global) -> Result<Layers<SIDE, MAX>, NoMemory>
        requires side { (1 ≤ SIDE) × (SIDE ≤ 1024) }
        requires most { (1 ≤ MAX) × (MAX ≤ 16) }
        ensures { IfOk result (λ layers. layers ≡ blank SIDE ∷ []) }
    {
        let top = Bitmap::new(alloc)?;
        let below = Vec::with_capacity(alloc, MAX - 1)?;
        let spare = spares(alloc, MAX - 1)?;
        Ok(Layers { top, below, spare })
    }

    /// How many bitmaps there are, 1 to `MAX`.
    pub fn count(&self) -> usize
        ensures value { result ≡ length self.now }
        ensures least { 1 ≤ result }
        ensures most { result ≤ MAX }
    {
        1 + self.below.len()
    }

    /// The top bitmap.
    pub fn top(&self) -> &Bitmap<SIDE>
        ensures { result.now ≡ top_of self.now }
    {
        &self.top
    }

    /// The top bitmap, to be drawn on.
    pub fn top_mut(&mut self) -> &mut Bitmap<SIDE>
        ensures* writes_back { sem 𝓛 (LendsTop SIDE MAX self.entry result) }
        ensures value { result.now ≡ top_of self.old }
    {
        &mut self.top
    }

    /// Adds a transparent bitmap on top, where there are fewer than `MAX`; else it does nothing.
    pub fn add(&mut self)
        ensures { self.new ≡ with_layer SIDE MAX self.old }
    {
        if let Some(mut fresh) = self.spare.pop() {
            fresh.clear();
            let covered = std::mem::replace(&mut self.top, fresh);
            self.below.push_reserved(covered);
        }
    }

    /// Puts a copy of the top bitmap on top, where there are fewer than `MAX`; else it does nothing.
    pub fn copy(&mut self)
        ensures { self.new ≡ with_copy MAX self.old }
    {
        if let Some(mut copy) = self.spare.pop() {
            copy.pixels_mut().copy_from_slice(self.top.pixels());
            let covered = std::mem::replace(&mut self.top, copy);
            self.below.push_reserved(covered);
        }
    }

    /// Puts the top bitmap over the next one and makes them one, where there are two; else it does nothing.
    pub fn compose(&mut self)
        ensures { self.new ≡ with_composed self.old }
    {
        if let Some(next) = self.below.pop() {
            blend::compose(self.top.pixels_mut(), next.pixels());
            self.spare.push_reserved(next);
        }
    }

    /// Cuts the next bitmap by the alphas of the top one and makes them one, where there are two; else it does nothing.
    pub fn clip(&mut self)
        ensures { self.new ≡ with_clipped self.old }
    {
        if let Some(next) = self.below.pop() {
            blend::clip(self.top.pixels_mut(), next.pixels());
            self.spare.push_reserved(next);
        }
    }
}

// So many bitmaps.
fn spares<const SIDE: usize>(alloc: Global, count: usize) -> Result<Vec<Bitmap<SIDE>>, NoMemory>
    requires { (1 ≤ SIDE) × (SIDE ≤ 1024) }
    ensures { IfOk result (λ made. (vec_len made ≡ count) × (count ≤ vec_capacity made)) }
{
    let mut made = Vec::with_capacity(alloc, count)?;
    for _made in 0..count {
        made.push_reserved(Bitmap::new(alloc)?);
    }
    Ok(made)
}
