//! Bases written to a sink as their letters, some at a time: a slice of them, a range of a strand, or a whole strand.
#![tactic(auto)]

mod slices;
mod strands;

pub use slices::put_bases;
pub use strands::{put_range, put_strand};

#[cfg(test)]
mod tests;
