//! Ropes: lists of bases as balanced trees of shared nodes, which are joined and cut in few steps.
#![tactic(auto)]

mod build;
mod cut;
mod join;
mod join_from;
mod rope;
#[cfg(test)]
mod tests;

pub use rope::Rope;
