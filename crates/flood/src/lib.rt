//! Fills, as the contest's chapter on images has them: a region of equal pixels gets another pixel.
#![tactic(auto)]

pub mod laws;
mod row;
mod scan;
mod span;
mod spread;
mod work;

pub use spread::fill;
pub use work::Work;

#[cfg(test)]
mod tests;
