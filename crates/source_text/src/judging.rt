//! What statements are taken for.
ghost use Rattle.std.specs.Prelude.{◌≡◌, ℕ, ◌==◌, ◌&&◌, if◌then◌else◌, nat_lt, not};
ghost use Rattle.source_text.specs.Judging.{label_faults, stop_place};
ghost use Rattle.source_text.specs.Keeping.{AreKnown, IsMeant};
ghost use Rattle.source_text.specs.Names.{Meaning, Names};
ghost use Rattle.source_text.specs.Reading.{bad_name, no_faults};
ghost use Rattle.source_text.specs.Taking.{refusal_of};

use crate::faults::Faults;
use crate::forms::Spot;
use crate::names::Known;
use source_tokens::Statement;

/// Why a statement is refused, with how many bytes of the source stand before the place.
#[derive(Clone, Copy, Debug, PartialEq, Eq)]
pub enum Refusal {
    /// A token has no place here, or the statement ends too early.
    BadForm(u64),
    /// A name that is not known, stands for something else than is wanted, has another number of templates than its
    /// definition has parameters, or is defined and was known before.
    BadName(u64),
    /// A number that is 2^63 or more as it is written.
    BadNumber(u64),
    /// A definition with parameters that stands for more than the limit.
    TooLong,
    /// No DNA has the pattern: a group ends that was not begun or is not ended, or a base stands directly behind a search.
    NoCode(u64),
}

/// Where the reading of a statement stops with so many of its tokens left.
pub(crate) fn stop_place(statement: &Statement, left: usize) -> u64
    ensures { result ≡ stop_place statement.now left }
{
    let read = statement.tokens.len().saturating_sub(left);
    match statement.tokens.get(read) {
        Some(token) => token.at,
        None => statement.end,
    }
}

/// Why a statement is refused for its names and numbers, if it is: names come first.
pub(crate) fn refusal_of(faults: Faults) -> Option<Refusal>
    ensures { result ≡ refusal_of faults }
{
    match (faults.name, faults.number) {
        (Some(at), _) => Some(Refusal::BadName(at)),
        (None, Some(at)) => Some(Refusal::BadNumber(at)),
        (None, None) => None,
    }
}

/// Whether a definition counts more than is kept, where it has parameters.
pub(crate) fn is_too_long(limit: u64, parameters: u64, count: u64) -> bool
    ensures { result ≡ (not (parameters == 0) && nat_lt limit count) }
{
    parameters != 0 && limit < count
}

/// Whether the name of a label does not serve: it may stand for this label alone.
pub(crate) fn label_faults(known: &[Known], name: Spot) -> Faults
    ensures { (limit : ℕ) (names : Names) → AreKnown limit known.now names → result ≡ label_faults (names name.id) name.at }
{
    if known.len() as u64 <= name.id {
        return Faults::name(name.at);
    }
    known_label_faults(&known[name.id as usize], name.at)
}

fn known_label_faults(known: &Known, at: u64) -> Faults
    ensures { (limit : ℕ) (meaning : Meaning) → IsMeant limit known.now meaning → result ≡ label_faults meaning at }
{
    match known {
        Known::Label { twice, .. } => repeated_faults(*twice, at),
        Known::Unknown | Known::Reserved | Known::Definition { .. } => Faults::name(at),
    }
}

fn repeated_faults(twice: bool, at: u64) -> Faults
    ensures { result ≡ (if twice then bad_name at else no_faults) }
{
    if twice {
        Faults::name(at)
    } else {
        Faults::none()
    }
}
