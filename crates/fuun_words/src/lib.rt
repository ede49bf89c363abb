//! The words of the command line: what they ask the program for.
#![tactic(auto)]

mod command;
pub mod laws;
mod name;
mod read;
mod request;
mod values;
mod verb;

pub use name::Name;
pub use read::read_request;
pub use request::{ExplainWords, Request, RewindWords, RunWords, WordsError};

#[cfg(test)]
mod tests;
