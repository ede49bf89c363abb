//! Sources: their statements read to lines, or the first that is refused.
#![tactic(auto)]

mod building;
mod commands;
mod faults;
mod forms;
mod held;
mod judging;
mod labels;
mod measure;
mod names;
mod parts;
mod patterns;
mod pieces;
mod sequences;
mod signs;
mod sources;
mod sums;
mod taking;
mod uses;

pub use judging::Refusal;
pub use sources::{Source, read_source};

#[cfg(test)]
mod tests;
