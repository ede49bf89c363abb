//! What a prefix does to every DNA of a length: the machine run on cells, of which only the prefix's are known.
#![tactic(auto)]

mod attempt;
mod dropping;
mod explained;
mod explaining;
mod fitting;
mod fronts;
pub mod laws;
mod matching;
mod mixed;
mod open_places;
mod passing;
mod planes;
mod reading;
mod repeats;
mod replacing;
mod searching;
mod texts;
mod writing;

pub use explained::{ExplainError, Explained};
pub use explaining::explain;
pub use writing::put_explained;

#[cfg(test)]
mod tests;
