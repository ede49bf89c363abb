//! The layers of a picture, and how the two top ones become one, as the contest's chapter on images has them.
#![tactic(auto)]

mod blend;
mod stack;

pub use stack::Layers;

#[cfg(test)]
mod tests;
