//! The compiler of pictures: DNA that makes the machine draw a picture of 600 by 600 pixels.
#![tactic(auto)]

mod compiling;
mod counting;
mod drawing;
pub mod laws;
mod runs;

pub use compiling::{DrawError, compile_picture};

#[cfg(test)]
mod tests;
