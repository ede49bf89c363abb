//! The tokens of a source: its bytes cut into statements, and these into words.
#![tactic(auto)]

mod bytes;
mod names;
mod places;
mod plain;
mod scan;
mod statements;
mod words;

pub use places::{Place, place_of};
pub use statements::{Statement, Statements};
pub use words::{Token, Word};

#[cfg(test)]
mod tests;
