use fuun_base::Base;

/// One place of a DNA of which a part is not known.
#[derive(Clone, Copy, Debug, PartialEq, Eq)]
pub enum Cell {
    /// A base that is known.
    Known(Base),
    /// The base at this place of the target, counted from 0, whatever it is.
    Target(u64),
}
