use fuun_base::{Base, BaseList};

/// The value at which numbers of items are held: a number of 2^63 and more stands as 2^63.
pub const BIG: u64 = 1 << 63;

/// An item of a pattern.
#[derive(Debug, Drop)]
pub enum PatItem {
    /// The base that has to stand at the present place.
    Base(Base),
    /// How many bases are passed over, held at `BIG`.
    Skip(u64),
    /// The bases whose first occurrence is sought, and passed over with all before it.
    Search(BaseList),
    GroupStart,
    GroupStop,
}

// A pattern may have millions of items.
const _: () = prove!(size_of::<PatItem>() == 24);

/// An item of a template.
#[derive(Clone, Copy, Debug, PartialEq, Eq)]
pub enum TplItem {
    /// A base that stands for itself.
    Base(Base),
    /// The text of group `n`, quoted `level` times, both held at `BIG`.
    Group { n: u64, level: u64 },
    /// The length of the text of this group, as a number written in bases; the group held at `BIG`.
    Len(u64),
}
