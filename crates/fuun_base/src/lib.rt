//! What the layers of the processor share: bases, quoting, numbers as bases, commands, DNA files, lines, numbers in decimal, and the counter of steps.
#![tactic(auto)]

mod base_list;
mod commands;
mod counter;
mod decimals;
mod dna_file;
pub mod laws;
mod letters;
mod lines;
mod lists;
mod quoting;
mod rna_file;
mod tally;

pub use base_list::BaseList;
pub use commands::Command;
pub use counter::Steps;
pub use decimals::{decimal, is_digit};
pub use dna_file::{DnaError, read_dna};
pub use letters::Base;
pub use lines::first_line;
pub use lists::{CommandList, List, NoMemory};
pub use quoting::{asnat_into, quote_into};
pub use rna_file::{RnaError, read_rna};
pub use tally::Tally;

#[cfg(test)]
mod tests;
