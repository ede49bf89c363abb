//! What names stand for.
ghost use Rattle.std.specs.Prelude.{◌≡◌, ◌<◌, ◌^◌, ℕ, length, slice_index_or, OnOk};
ghost use Rattle.source_text.specs.declared.names.Known.TheVariants.{Unknown};
ghost use Rattle.source_text.specs.Keeping.{AreKnown, IsMeant, length_held};
ghost use Rattle.source_text.specs.Names.{Meaning, Names, is_unknown, next_lines, number_named, with_meaning};

use crate::held::Held;
use dna_items::BIG;
use fuun_base::NoMemory;
use source_items::Factor;

/// What a name stands for.
#[derive(Drop)]
pub(crate) enum Known {
    Unknown,
    /// `data`, `rest` and `self`.
    Reserved,
    /// Pieces, with templates for so many parameters.
    Definition { count: u64, held: Held },
    /// A place behind so many lines, where a second label of this name may stand.
    Label { line: u64, twice: bool },
}

/// Makes a name stand for something else.
pub(crate) fn set_known(known: &mut Vec<Known>, id: u64, new: Known) -> Result<(), NoMemory>
    ensures { OnOk result ((limit : ℕ) (names : Names) (meaning : Meaning) → AreKnown limit known.old.items names → IsMeant limit new meaning → AreKnown limit known.new.items (with_meaning names id meaning)) }
{
    if id >= BIG {
        return Err(NoMemory);
    }
    make_room(known, id)?;
    known[id as usize] = new;
    Ok(())
}

// Has a place for a name, where nothing is known of it yet.
fn make_room(known: &mut Vec<Known>, id: u64) -> Result<(), NoMemory>
    requires { id < 2 ^ 63 }
    ensures room { OnOk result (id < length known.new.items) }
    ensures same { OnOk result ((k : ℕ) → slice_index_or known.new.items k Unknown ≡ slice_index_or known.old.items k Unknown) }
{
    'room: while known.len() as u64 <= id {
        known.push(Known::Unknown)?;
    }
    Ok(())
}

/// Whether nothing is known of a name.
pub(crate) fn is_unknown(known: &[Known], id: u64) -> bool
    ensures { (limit : ℕ) (names : Names) → AreKnown limit known.now names → result ≡ is_unknown (names id) }
{
    if known.len() as u64 <= id {
        return true;
    }
    matches!(known[id as usize], Known::Unknown)
}

/// The number that a name stands for in a sum of the line before which so many stand.
pub(crate) fn number_named(known: &[Known], line: u64, id: u64) -> Option<Factor>
    ensures { (limit : ℕ) (names : Names) → AreKnown limit known.now names → result ≡ number_named names line id }
{
    if id == 1 {
        return Some(Factor::Rest);
    }
    if id == 2 {
        return Some(Factor::Own);
    }
    if known.len() as u64 <= id {
        return None;
    }
    match &known[id as usize] {
        Known::Definition { count, held } => length_of(*count, held),
        Known::Label { line: label, .. } => next_lines(line, *label),
        Known::Unknown | Known::Reserved => None,
    }
}

// How many bases a definition stands for, where it is one of bases without parameters.
fn length_of(count: u64, held: &Held) -> Option<Factor>
    ensures { result ≡ length_held count held.now }
{
    if count == 0 && held.bases {
        Some(Factor::Number(held.count))
    } else {
        None
    }
}

// The lines between a line and the place that a label names behind it.
fn next_lines(line: u64, label: u64) -> Option<Factor>
    ensures { result ≡ next_lines line label }
{
    if line < label {
        Some(Factor::Next(label - line - 1))
    } else {
        None
    }
}
