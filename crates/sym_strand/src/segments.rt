ghost use Rattle.std.specs.Prelude.{◌≡◌, ◌+◌, ◌^◌, ◌<◌, ◌≤◌, length, slice_get, IfOk};
ghost use Rattle.sym_strand.specs.Segments.{cells_in};

use crate::Cell;
use fuun_base::{Base, BaseList, List, NoMemory};
use std::alloc::Global;

/// A stretch of DNA of which a part is not known.
#[derive(Debug, Drop)]
pub enum Seg {
    /// Bases that are known.
    Known(BaseList),
    /// The bases at these places of the target, from `lo` on and before `hi`.
    Target { lo: u64, hi: u64 },
}

/// Stretches of DNA, one behind the other.
pub type SegList = List<Seg>;

impl Seg {
    /// How many bases it stands for.
    pub(crate) fn len(&self) -> u64
        ensures { result ≡ length (cells_in self.now) }
    {
        match self {
            Seg::Known(bases) => bases.len() as u64,
            Seg::Target { lo, hi } => hi.saturating_sub(*lo),
        }
    }

    /// The cell at a place of it.
    pub(crate) fn cell(&self, place: u64) -> Option<Cell>
        ensures { result ≡ slice_get (cells_in self.now) place }
    {
        match self {
            Seg::Known(bases) => known_cell(bases.as_slice(), place),
            Seg::Target { lo, hi } => target_cell(*lo, *hi, place),
        }
    }

    /// The same once more.
    pub(crate) fn copied(&self, alloc: Global) -> Result<Seg, NoMemory>
        ensures { IfOk result (λ seg. seg ≡ self.now) }
    {
        match self {
            Seg::Known(bases) => known(alloc, bases.as_slice()),
            Seg::Target { lo, hi } => Ok(Seg::Target { lo: *lo, hi: *hi }),
        }
    }
}

/// The segment of bases.
pub(crate) fn known(alloc: Global, bases: &[Base]) -> Result<Seg, NoMemory>
    ensures { IfOk result (λ seg. seg ≡ Seg.Known bases.now) }
{
    Ok(Seg::Known(BaseList::from_vec(alloc, Vec::from_slice(alloc, bases)?)?))
}

fn known_cell(bases: &[Base], place: u64) -> Option<Cell>
    ensures { result ≡ slice_get (cells_in (Seg.Known bases.now)) place }
{
    let base = bases.get(place as usize)?;
    Some(Cell::Known(*base))
}

fn target_cell(lo: u64, hi: u64, place: u64) -> Option<Cell>
    ensures { result ≡ slice_get (cells_in (Seg.Target lo hi)) place }
{
    if place < hi.saturating_sub(lo) {
        Some(Cell::Target(lo + place))
    } else {
        None
    }
}
