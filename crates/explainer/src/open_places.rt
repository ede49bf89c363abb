ghost use Rattle.std.specs.Prelude.{◌≡◌, ◌+◌, ◌-◌, ◌^◌, ◌<◌, ◌≤◌, List, drop, length, IfOk, OnOk};
ghost use Rattle.fuun_base.specs.declared.letters.Base.{Base};
ghost use Rattle.sym_strand.specs.declared.cells.Cell.{Cell};
ghost use Rattle.explainer.specs.Repeats.{AreFronts};
ghost use Rattle.explainer.specs.Passing.{PassesSo};
ghost use Rattle.explainer.specs.Open.{GoesOn, GoesOnAlong, OpensRepeats, ClosesSo};
ghost use Rattle.dna_items.specs.declared.items.PatItem.TheVariants.{Search};

use crate::dropping::without_differing;
use crate::mixed::open_mixed;
use crate::passing::Passing;
use crate::planes::Planes;
use crate::repeats::same_fronts;
use crate::searching::{Window, stand_at};
use cell_rope::{CellRope, Stretch};
use fuun_base::{Base, NoMemory};
use rope_search::KmpTable;
use rope_strand::RopeStrand;
use std::alloc::Global;
use strand::Strand;

/// A stretch of fewer cells is read with those behind it, 64 cells at once.
const SHORT: u64 = 256;

/// Searches stretch by stretch. Kept are the places before at which the needle may stand.
pub(crate) fn search_along(
    alloc: Global,
    table: &KmpTable,
    dna: &CellRope,
    at: u64,
    needle: &[Base],
) -> Result<Passing, NoMemory>
    requires table { table.now ≡ needle.now }
    requires some { 0 < length needle.now }
    requires at { at ≤ length dna.now }
    ensures { IfOk result (PassesSo dna.now (Search needle.now) at) }
{
    let fronts = same_fronts(alloc, needle)?;
    let words = Planes::of_bases(alloc, needle)?;
    let mut begun = Vec::new(alloc);
    let mut place = at;
    while place < dna.len() {
        let end = stretch_end(dna, place);
        if end - place < SHORT {
            place = open_mixed(alloc, dna, place, needle, words.as_slice(), &mut begun)?;
            if let Some(found) = first_closed(dna, place, needle, begun.as_slice()) {
                return Ok(found);
            }
        } else {
            begun = without_differing(alloc, dna, place, needle, begun)?;
            if let Some(found) = first_closed(dna, end, needle, begun.as_slice()) {
                return Ok(found);
            }
            place = open_next(table, dna, place, fronts.as_slice(), &mut begun)?;
        }
    }
    match first_closed(dna, place, needle, begun.as_slice()) {
        Some(found) => Ok(found),
        None => Ok(Passing::Fails),
    }
}

/// The place behind the stretch of a place.
fn stretch_end(dna: &CellRope, place: u64) -> u64
    requires { place < length dna.now }
    ensures after { place < result }
    ensures within { result ≤ length dna.now }
{
    let _len = dna.len();
    match dna.stretch(place) {
        Stretch::Known(strand, from) => place + (strand.len() - from),
        Stretch::Target(lo, hi) => place + (hi - lo),
    }
}

/// What the first place answers at which the needle may stand before `end`.
fn first_closed(dna: &CellRope, end: u64, needle: &[Base], begun: &[u64]) -> Option<Passing>
    requires { end ≤ length dna.now }
    ensures { ClosesSo needle.now dna.now begun.now end result }
{
    let _len = dna.len();
    let size = needle.len() as u64;
    for place in begun {
        if *place > end || size > end - *place {
            return None;
        }
        match stand_at(dna, *place, needle) {
            Window::Sure => return Some(Passing::To(*place + size)),
            Window::Out(_) => {}
            Window::Unsure => return Some(Passing::Depends),
        }
    }
    None
}

/// Opens the places of a stretch at which the needle may stand, and answers the place behind. Where the needle ends within
/// the stretch only the first of them is opened.
fn open_next(
    table: &KmpTable,
    dna: &CellRope,
    place: u64,
    fronts: &[usize],
    begun: &mut Vec<u64>,
) -> Result<u64, NoMemory>
    requires place { place < length dna.now }
    requires fronts { AreFronts table.now fronts.now }
    ensures after { IfOk result (λ next. place < next) }
    ensures within { IfOk result (λ next. next ≤ length dna.now) }
    ensures goes { IfOk result (GoesOn table.now dna.now begun.old.items place begun.new.items) }
{
    let _len = dna.len();
    match dna.stretch(place) {
        Stretch::Known(strand, from) => open_known(table, strand, from, place, fronts, begun),
        Stretch::Target(lo, hi) => open_all(place, hi - lo, fronts.len(), begun),
    }
}

/// The same at so many places of the target.
fn open_all(place: u64, count: u64, size: usize, begun: &mut Vec<u64>) -> Result<u64, NoMemory>
    requires some { 0 < count }
    requires most { place + count ≤ 2 ^ 41 }
    ensures after { IfOk result (λ next. place < next) }
    ensures within { IfOk result (λ next. next ≤ place + count) }
    ensures goes { IfOk result (λ next. (s : List Base) (z : List Cell) → GoesOn s z begun.old.items place begun.new.items next) }
{
    if count >= size as u64 {
        begun.push(place)?;
        return Ok(place + 1);
    }
    open_each(place, count, begun)?;
    Ok(place + count)
}

/// Opens so many places.
pub(crate) fn open_each(place: u64, count: u64, begun: &mut Vec<u64>) -> Result<(), NoMemory>
    requires { place + count ≤ 2 ^ 41 }
    ensures { OnOk result ((s : List Base) (z : List Cell) → GoesOn s z begun.old.items place begun.new.items (place + count)) }
{
    for behind in 0..count {
        begun.push(place + behind)?;
    }
    Ok(())
}

/// The same at the bases of a strand from a place of it on.
fn open_known(
    table: &KmpTable,
    strand: &RopeStrand,
    from: u64,
    place: u64,
    fronts: &[usize],
    begun: &mut Vec<u64>,
) -> Result<u64, NoMemory>
    requires from { from < length strand.now.bases }
    requires most { place ≤ 2 ^ 41 }
    requires fronts { AreFronts table.now fronts.now }
    ensures after { IfOk result (λ next. place < next) }
    ensures within { IfOk result (λ next. next ≤ place + (length strand.now.bases - from)) }
    ensures goes { IfOk result (GoesOnAlong table.now (drop from strand.now.bases) begun.old.items place begun.new.items) }
{
    let len = strand.len();
    let begin = table.begin_in(strand.rope(), from);
    let first = place + (begin - from);
    let count = len - begin;
    if count == 0 {
        return Ok(first);
    }
    if count >= fronts.len() as u64 {
        begun.push(first)?;
        return Ok(first + 1);
    }
    open_repeats(first, &fronts[..count as usize], begun)?;
    Ok(first + count)
}

/// Opens the places of bases that are a needle's first ones, at which the needle may stand.
fn open_repeats(first: u64, fronts: &[usize], begun: &mut Vec<u64>) -> Result<(), NoMemory>
    requires { first + length fronts.now < 2 ^ 64 }
    ensures { OnOk result (OpensRepeats fronts.now first begun.old.items begun.new.items) }
{
    for (at, same) in fronts.iter().enumerate() {
        if *same >= fronts.len() - at {
            begun.push(first + at as u64)?;
        }
    }
    Ok(())
}
