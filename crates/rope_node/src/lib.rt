//! Nodes of ropes: shared trees over leaves of bases, whose two sides never differ much in height.
#![tactic(auto)]

mod node;
#[cfg(test)]
mod tests;

pub use node::{Node, View};
