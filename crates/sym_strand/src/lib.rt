//! DNA of which a part is not known: cells, and the segments that stand for them.
#![tactic(auto)]

mod cells;
mod cutting;
mod dna;
mod joining;
pub mod laws;
mod segments;

pub use cells::Cell;
pub use dna::SymDna;
pub use segments::{Seg, SegList};

#[cfg(test)]
mod tests;
