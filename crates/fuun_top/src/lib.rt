//! The top call: words, a folder and a sink in, a status and bytes out.
#![tactic(auto)]

mod bench;
#[cfg(test)]
mod chain_tests;
#[cfg(test)]
mod fault_tests;
mod files;
mod inputs;
pub mod laws;
mod letters;
mod listed;
mod making;
mod output;
#[cfg(test)]
mod picture_tests;
mod pictures;
mod request;
mod rewound;
mod running;
mod status;
#[cfg(test)]
mod tests;
mod top;
mod traced;

pub use status::{InFile, Status, put_status};
pub use top::fuun;
