//! Lines of a source: pairs with sums in the place of some skips' numbers, and data.
#![tactic(auto)]

pub mod laws;
mod lines;
mod sums;

pub use lines::{CountedSkip, Factor, Line, Product, SourceItem, Sum};
pub use sums::{copied_sum, sum_of};
