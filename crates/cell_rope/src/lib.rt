//! Cells as ropes: balanced trees of shared nodes over stretches of known bases and of the target.
#![tactic(auto)]

mod cells;
mod cutting;
mod fronts;
mod joining;
mod node;
mod ropes;
mod settling;
mod stretches;
mod writing;

pub use ropes::CellRope;
pub use stretches::Stretch;

#[cfg(test)]
mod tests;
