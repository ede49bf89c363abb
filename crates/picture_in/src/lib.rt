//! Pictures of 600 by 600 pixels, read from raw pixmaps in the form of Netpbm's PPM.
#![tactic(auto)]

mod header;
pub mod laws;
mod picture;

pub use picture::{Picture, PpmError, read_ppm};

#[cfg(test)]
mod tests;
