//! Part of a row of a bitmap.

/// The spots of row `y` from `x = start` to `x = stop - 1`.
#[derive(Clone, Copy, PartialEq, Eq, Debug)]
pub(crate) struct Span {
    pub(crate) y: u32,
    pub(crate) start: u32,
    pub(crate) stop: u32,
}
