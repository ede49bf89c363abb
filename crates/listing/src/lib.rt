//! Items, pairs and commands as text.
#![tactic(auto)]

mod items;
pub mod laws;
mod names;
mod numbers;
mod pairs;

pub use items::{put_pair, put_pattern, put_pattern_items, put_template};
pub use names::list_rna;
pub use numbers::number;
pub use pairs::{ListError, list_pairs};

#[cfg(test)]
mod tests;
