//! Patch files: rows that edit, copy and move ranges of a DNA, and their text, which is a TOML document.
#![tactic(auto)]

pub mod laws;
mod openings;
mod read;
mod rows;
mod table;

pub use read::{PatchError, read_patches};
pub use rows::{AddError, PatchFile, PatchRow};

#[cfg(test)]
mod tests;
