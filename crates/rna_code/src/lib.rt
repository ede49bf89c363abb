//! The commands of RNA: what each does to the picture, and its name.
#![tactic(auto)]

mod acts;
mod profile;
mod table;

pub use acts::{Act, Ink};
pub use profile::Profile;
pub use table::{decode, name};

#[cfg(test)]
mod tests;
