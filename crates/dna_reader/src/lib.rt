//! The readers: numerals, constants, patterns and templates, over any strand.
#![tactic(auto)]

mod discard;
mod heads;
pub mod laws;
mod numerals;
mod pairs;
mod pieces;
mod reading;
mod rna_lines;
mod takers;
mod window;

pub use discard::Discard;
pub use numerals::{read_consts, read_numeral};
pub use pairs::{Pair, read_pair};
pub use reading::{ReadingError, read_pattern, read_template};
pub use rna_lines::{RnaLines, put_line};
pub use takers::{RnaTaker, TakeError};

#[cfg(test)]
mod tests;
