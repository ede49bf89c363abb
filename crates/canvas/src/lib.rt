//! Pixels, bitmaps and the bucket of colours, as the contest's chapter on images has them.
#![tactic(auto)]

mod average;
mod bitmap;
mod bucket;
mod history;
mod pixel;

pub use bitmap::Bitmap;
pub use bucket::Bucket;
pub use pixel::{Pixel, Spot};

#[cfg(test)]
mod tests;
