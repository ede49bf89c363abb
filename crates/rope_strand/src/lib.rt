//! Ropes as the strands that the machine rewrites.
#![tactic(auto)]

mod copying;
mod counting;
mod quoting;
mod ropes;
#[cfg(test)]
mod tests;

pub use ropes::RopeStrand;
