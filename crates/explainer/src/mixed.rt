ghost use Rattle.std.specs.Prelude.{◌≡◌, ℕ, ◌+◌, ◌<◌, ◌≤◌, length, IsTrue, IfOk, OnOk};
ghost use Rattle.explainer.specs.Windows.{IsOut};
ghost use Rattle.explainer.specs.Open.{GoesOn};

use crate::open_places::open_each;
use crate::planes::Planes;
use cell_rope::CellRope;
use fuun_base::{Base, NoMemory};
use std::alloc::Global;
use sym_strand::Cell;

/// Opens the places of the next cells, at most 64 of them, without those at which the needle differs from these cells, and
/// drops the earlier ones at which it does. Answers the place behind.
pub(crate) fn open_mixed(
    alloc: Global,
    dna: &CellRope,
    place: u64,
    needle: &[Base],
    words: &[Planes],
    begun: &mut Vec<u64>,
) -> Result<u64, NoMemory>
    requires place { place < length dna.now }
    ensures after { IfOk result (λ next. place < next) }
    ensures within { IfOk result (λ next. next ≤ length dna.now) }
    ensures goes { IfOk result (GoesOn needle.now dna.now begun.old.items place begun.new.items) }
{
    let count = (dna.len() - place).min(64);
    open_each(place, count, begun)?;
    let cells = Planes::of_cells(dna, place, count);
    *begun = without_seen(alloc, dna, place, cells, needle, words, begun.as_slice())?;
    Ok(place + count)
}

/// The open places without those at which the needle differs from cells that stand at a place.
fn without_seen(
    alloc: Global,
    dna: &CellRope,
    place: u64,
    cells: Planes,
    needle: &[Base],
    words: &[Planes],
    begun: &[u64],
) -> Result<Vec<u64>, NoMemory>
    ensures { IfOk result (λ kept. (to : ℕ) → GoesOn needle.now dna.now begun.now to kept.items to) }
{
    let mut kept = Vec::new(alloc);
    for begin in begun {
        match other_at(place, cells, words, *begin) {
            Some(at) if differs_at(dna, *begin, needle, at) => {}
            _ => kept.push(*begin)?,
        }
    }
    Ok(kept)
}

/// Where in the needle it seems to differ from cells that stand at a place, if it begins at another.
fn other_at(place: u64, cells: Planes, words: &[Planes], begin: u64) -> Option<usize> {
    if begin <= place {
        let past = (place - begin) as usize;
        let at = Planes::window(words, past).first_other(cells)?;
        past.checked_add(at as usize)
    } else if begin - place < 64 {
        let at = Planes::window(words, 0).first_other(cells.from((begin - place) as u32))?;
        Some(at as usize)
    } else {
        None
    }
}

/// Whether the needle's base at a place of it differs from a known one, if it begins at a place.
fn differs_at(dna: &CellRope, place: u64, needle: &[Base], at: usize) -> bool
    ensures { IsTrue result → IsOut needle.now dna.now place }
{
    let (Some(base), Some(there)) = (needle.get(at), place.checked_add(at as u64)) else {
        return false;
    };
    match dna.cell(there) {
        Some(Cell::Known(seen)) => seen != *base,
        Some(Cell::Target(_)) | None => false,
    }
}
