//! The machine: one attempt, and whole runs.
#![tactic(auto)]

pub mod laws;
mod machine;
mod rewriting;
mod run;
mod state;
mod step;

pub use machine::{Outcome, Report, RunEnd, StepError};
pub use state::Machine;

#[cfg(test)]
mod tests;
