//! Lines, as the contest's chapter on images has them.
#![tactic(auto)]

mod axis;
mod draw;
pub mod laws;

pub use draw::line;

#[cfg(test)]
mod tests;
