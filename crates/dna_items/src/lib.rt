//! The items of patterns and templates.
#![tactic(auto)]

mod item_lists;
mod items;

pub use item_lists::{Balanced, PatList, TplList};
pub use items::{BIG, PatItem, TplItem};
