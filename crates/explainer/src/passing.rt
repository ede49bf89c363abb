ghost use Rattle.std.specs.Prelude.{◌≡◌, ◌≤◌, length, IfOk};
ghost use Rattle.explainer.specs.Passing.{PassesSo};

use crate::searching::{Fit, fit_of, search};
use cell_rope::CellRope;
use dna_items::PatItem;
use fuun_base::{Base, NoMemory};
use std::alloc::Global;

/// What an item of a pattern does at a place of cells.
#[derive(Clone, Copy)]
pub(crate) enum Passing {
    /// It leads to this place, whatever the target.
    To(u64),
    /// It fails, whatever the target.
    Fails,
    Depends,
}

pub(crate) fn pass(
    alloc: Global,
    dna: &CellRope,
    at: u64,
    item: &PatItem,
) -> Result<Passing, NoMemory>
    requires { at ≤ length dna.now }
    ensures { IfOk result (PassesSo dna.now item.now at) }
{
    match item {
        PatItem::Base(base) => Ok(pass_base(dna, at, *base)),
        PatItem::Skip(n) => Ok(skip(dna, at, *n)),
        PatItem::Search(needle) => search(alloc, dna, at, needle.as_slice()),
        PatItem::GroupStart => Ok(Passing::To(at)),
        PatItem::GroupStop => Ok(Passing::To(at)),
    }
}

fn pass_base(dna: &CellRope, at: u64, base: Base) -> Passing
    requires { at ≤ length dna.now }
    ensures { PassesSo dna.now (PatItem.Base base) at result }
{
    let _len = dna.len();
    let Some(cell) = dna.cell(at) else {
        return Passing::Fails;
    };
    match fit_of(cell, base) {
        Fit::Same => Passing::To(at + 1),
        Fit::Other => Passing::Fails,
        Fit::Hole => Passing::Depends,
    }
}

fn skip(dna: &CellRope, at: u64, n: u64) -> Passing
    requires { at ≤ length dna.now }
    ensures { PassesSo dna.now (PatItem.Skip n) at result }
{
    if n > dna.len() - at {
        Passing::Fails
    } else {
        Passing::To(at + n)
    }
}
