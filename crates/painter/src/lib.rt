//! The picture that commands of RNA draw, as the contest's chapter on images has it.
#![tactic(auto)]

mod board;
mod direction;
pub mod laws;
mod painting;

pub use painting::Painter;

#[cfg(test)]
mod tests;
