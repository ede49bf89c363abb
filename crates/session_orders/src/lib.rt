//! The orders of a session: what one line asks of the debugger.
#![tactic(auto)]

mod orders;
mod reading;
mod words;

pub use orders::{Line, Order, Until};
pub use reading::read_order;

#[cfg(test)]
mod tests;
