//! The numbers of a source settled: lines with sums turned into DNA.
#![tactic(auto)]

mod behind;
pub mod laws;
mod lengths;
mod putting;
mod settling;
mod values;

pub use settling::{CodeError, settle};

#[cfg(test)]
mod tests;
