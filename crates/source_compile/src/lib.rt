//! Sources compiled to DNA.
#![tactic(auto)]

mod compiling;
pub mod laws;

pub use compiling::{SourceError, compile};

#[cfg(test)]
mod tests;
