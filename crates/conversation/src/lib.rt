//! A conversation: the lines of a file are read as they come, and each is answered before more of the file is asked for.
#![tactic(auto)]

mod answerer;
mod lines;
mod talking;

pub use answerer::{Answerer, TalkError};
pub use talking::converse;

#[cfg(test)]
mod tests;
