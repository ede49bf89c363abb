//! The assembler: texts of patterns and templates, as a listing has them, turned into DNA.
#![tactic(auto)]

mod assembling;
mod items;
pub mod laws;
mod numbers;
mod pairs;

pub use assembling::{AsmError, assemble};

#[cfg(test)]
mod tests;
