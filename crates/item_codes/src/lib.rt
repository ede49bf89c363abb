//! Items of patterns and templates, written as DNA.
#![tactic(auto)]

mod lengths;
mod pairs;
mod pattern;
mod readable;
mod template;

pub use lengths::{pattern_item_len, skip_len, template_item_len};
pub use pairs::put_pair;
pub use pattern::{put_end, put_group_start, put_pattern, put_pattern_item, put_skip};
pub use readable::{has_search_before_base, is_readable};
pub use template::{put_template, put_template_item};

#[cfg(test)]
mod tests;
