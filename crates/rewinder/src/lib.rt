//! A machine that keeps every version of its DNA, and goes forward and back through them by a script.
#![tactic(auto)]

mod history;
pub mod laws;
mod orders;
mod rewinding;
mod script;
mod texts;
mod trying;

pub use orders::{Order, OrderList, RewindError, ScriptError, Stop};
pub use rewinding::{Rewinder, StrandRewinder};
pub use script::read_script;

#[cfg(test)]
mod tests;
