//! Large inputs that are drawn from a number, and the summary of a run on one.
#![tactic(auto)]

pub mod laws;
mod load;
mod mark;
mod numbers;
mod summary;

pub use load::{Load, make};
pub use mark::mark_behind;
pub use summary::{Summary, put_summary};

#[cfg(test)]
mod tests;
