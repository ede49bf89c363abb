//! Runs of which each attempt is told by a line.
#![tactic(auto)]

mod lines;
mod tracing;

pub use tracing::trace;

#[cfg(test)]
mod tests;
