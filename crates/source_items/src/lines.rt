//! Lines, their items and their sums.
use dna_items::{PatItem, TplList};
use fuun_base::{BaseList, List};

/// A factor of a skip's sum. Its value depends on the line that it stands in.
#[derive(Clone, Copy, Debug, PartialEq, Eq)]
pub enum Factor {
    /// A number, held at 2^63.
    Number(u64),
    /// How many bases stand behind the line, up to the end.
    Rest,
    /// How long the line's own code is.
    Own,
    /// How long the codes of so many lines behind the line are.
    Next(u64),
}

/// Factors with `*` between them. No factors are one.
pub type Product = List<Factor>;

/// Products with `+` between them. No products are zero.
pub type Sum = List<Product>;

/// An item of a pattern whose skips may have sums for numbers.
#[derive(Debug, Drop)]
pub enum SourceItem {
    Fixed(PatItem),
    Skip(Sum),
}

/// A skip, and how often it stands in a line.
#[derive(Debug, Drop)]
pub struct CountedSkip {
    /// Held at 2^63.
    pub count: u64,
    pub sum: Sum,
}

/// A line of a source.
#[derive(Debug, Drop)]
pub enum Line {
    /// Data: bases that stand for themselves.
    Plain(BaseList),
    /// A pattern and its template.
    Pair {
        pattern: List<SourceItem>,
        template: TplList,
    },
    /// A line whose code is longer than the limit, so that it is never made: the skips with sums, and how many bases the rest
    /// of its code has, held at 2^63.
    Long {
        skips: List<CountedSkip>,
        len: u64,
    },
}
