//! The compiler of patch files: DNA that, put before another DNA, makes the machine carry out the rows of the file.
#![tactic(auto)]

mod code;
mod compiling;
mod fitting;
pub mod laws;

pub use compiling::{CompileError, compile};

#[cfg(test)]
mod tests;
