//! Strands: the lists of bases that the machine rewrites, whatever they are kept in.
#![tactic(auto)]

mod flat;
mod quoting;
mod search;
mod shifts;
mod strands;

pub use flat::FlatStrand;
pub use quoting::requoted;
pub use strands::Strand;

#[cfg(test)]
mod tests;
