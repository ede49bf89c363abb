ghost use Rattle.std.specs.Prelude.{◌≡◌, ℕ, ◌+◌, ◌<◌, ◌≤◌, Some, length, slice_get, IfOk};
ghost use Rattle.explainer.specs.Windows.{IsOut, AreOut};
ghost use Rattle.explainer.specs.Passing.{FitsSo, StandsSo, PassesSo};
ghost use Rattle.dna_items.specs.declared.items.PatItem.TheVariants.{Search};

use crate::fitting::{Along, fit_along};
use crate::open_places::search_along;
use crate::passing::Passing;
use cell_rope::{CellRope, Stretch};
use fuun_base::{Base, NoMemory};
use rope_search::KmpTable;
use std::alloc::Global;
use sym_strand::Cell;

/// How many times a needle's bases are compared in vain before a search goes stretch by stretch.
const IN_VAIN: u64 = 16;

/// How a cell fits a base.
#[derive(Clone, Copy)]
pub(crate) enum Fit {
    Same,
    Other,
    /// It is a place of the target.
    Hole,
}

/// How a list of bases stands at a place of cells.
#[derive(Clone, Copy)]
pub(crate) enum Window {
    /// It stands there, whatever the target.
    Sure,
    /// It can't stand there: its base at this place differs.
    Out(usize),
    Unsure,
}

pub(crate) fn fit_of(cell: Cell, base: Base) -> Fit
    ensures { FitsSo cell base result }
{
    match cell {
        Cell::Known(seen) => fit_known(seen, base),
        Cell::Target(_) => Fit::Hole,
    }
}

fn fit_known(seen: Base, base: Base) -> Fit
    ensures { FitsSo (Cell.Known seen) base result }
{
    if seen == base { Fit::Same } else { Fit::Other }
}

pub(crate) fn search(
    alloc: Global,
    dna: &CellRope,
    at: u64,
    needle: &[Base],
) -> Result<Passing, NoMemory>
    requires { at ≤ length dna.now }
    ensures { IfOk result (PassesSo dna.now (Search needle.now) at) }
{
    let table = KmpTable::new(alloc, needle)?;
    search_by(alloc, &table, dna, at, needle)
}

/// Goes from place to place at which the needle may begin, up to the first that is not out. Where many bases are compared
/// in vain it goes on stretch by stretch.
fn search_by(
    alloc: Global,
    table: &KmpTable,
    dna: &CellRope,
    at: u64,
    needle: &[Base],
) -> Result<Passing, NoMemory>
    requires table { table.now ≡ needle.now }
    requires at { at ≤ length dna.now }
    ensures { IfOk result (PassesSo dna.now (Search needle.now) at) }
{
    let size = needle.len() as u64;
    let mut spare = size.saturating_mul(IN_VAIN);
    let mut place = next_place(table, dna, at);
    while size <= dna.len() - place {
        match stand_at(dna, place, needle) {
            Window::Sure => return Ok(Passing::To(place + size)),
            Window::Out(other) => {
                if spare <= other as u64 {
                    return search_along(alloc, table, dna, place, needle);
                }
                spare -= other as u64;
                place = next_place(table, dna, place + past_other(dna, place, needle, other));
            }
            Window::Unsure => return Ok(Passing::Depends),
        }
    }
    Ok(Passing::Fails)
}

/// The next place at which the needle may begin, as far as the stretch of a place goes.
fn next_place(table: &KmpTable, dna: &CellRope, place: u64) -> u64
    requires { place ≤ length dna.now }
    ensures after { place ≤ result }
    ensures within { result ≤ length dna.now }
    ensures out { AreOut table.now dna.now place result }
{
    if place == dna.len() {
        return place;
    }
    match dna.stretch(place) {
        Stretch::Known(strand, from) => place + (table.begin_in(strand.rope(), from) - from),
        Stretch::Target(_, _) => place,
    }
}

/// How far behind a place at which the needle can't stand the next is at which it has there the base that differs.
fn past_other(dna: &CellRope, place: u64, needle: &[Base], at: usize) -> u64
    requires { (out : IsOut needle.now dna.now place) × (out.at ≡ at) }
    ensures some { 0 < result }
    ensures within { place + result ≤ length dna.now }
    ensures out { AreOut needle.now dna.now place (place + result) }
{
    let _len = dna.len();
    match dna.cell(place + at as u64) {
        Some(Cell::Known(seen)) => shift_to(&needle[..at], seen) as u64,
        _ => 1,
    }
}

/// How far a base stands from the end of a list, counted from 1; past the list where it does not.
fn shift_to(front: &[Base], seen: Base) -> usize
    ensures some { 0 < result }
    ensures most { result ≤ length front.now + 1 }
    ensures passed { (k : ℕ) → k < length front.now → length front.now < k + result → slice_get front.now k ≡ Some seen → ⊥ }
{
    let mut left = front.len();
    while left > 0 {
        if front[left - 1] == seen {
            return front.len() - left + 1;
        }
        left -= 1;
    }
    front.len() + 1
}

pub(crate) fn stand_at(dna: &CellRope, place: u64, needle: &[Base]) -> Window
    requires { place + length needle.now ≤ length dna.now }
    ensures { StandsSo needle.now dna.now place result }
{
    let _len = dna.len();
    let mut sure = true;
    let mut done = 0;
    while done < needle.len() {
        match fit_along(dna, place + done as u64, &needle[done..]) {
            Along::Same(count) => done += count,
            Along::Other(at) => return Window::Out(done + at),
            Along::Holes(count) => {
                sure = false;
                done += count;
            }
        }
    }
    if sure { Window::Sure } else { Window::Unsure }
}
