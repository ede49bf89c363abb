//! Search in ropes: the least place where a needle stands, however the bases are cut into leaves.
#![tactic(auto)]

mod begins;
mod filter;
mod find;
mod rows;
#[cfg(test)]
mod tests;

pub use find::KmpTable;
