//! Matching of a pattern's items.
#![tactic(auto)]

mod group_lists;
pub mod laws;
mod marks;
mod matching;
mod passing;

pub use group_lists::GroupList;
pub use marks::Marks;
pub use matching::{MatchEnd, match_at};
pub use passing::{Passed, pass};

#[cfg(test)]
mod tests;
