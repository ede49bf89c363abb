//! The replacement of what was matched.
#![tactic(auto)]

mod cuts;
mod fronts;
pub mod laws;
mod lengths;
mod ranges;
mod replacing;

pub use lengths::replaced_len;
pub use replacing::replace;

#[cfg(test)]
mod tests;
