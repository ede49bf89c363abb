//! How the items of a pattern go through a DNA, told part by part.
#![tactic(auto)]

mod groups;
pub mod laws;
mod places;
mod telling;
mod way;

pub use telling::put_match;

#[cfg(test)]
mod tests;
