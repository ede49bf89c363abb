//! Uses of names.
ghost use Rattle.std.specs.Prelude.{◌≡◌, ℕ, ◌^◌, ◌<◌, ◌≤◌, ◌||◌, List, length, IfOk};
ghost use Rattle.source_text.specs.declared.pieces.Piece.{Piece as PieceOf};
ghost use Rattle.source_text.specs.Keeping.{AreHeld, AreKnown, IsHeld, IsWorth};
ghost use Rattle.source_text.specs.Names.{Names, takes_templates};
ghost use Rattle.source_text.specs.Pieces.{filled, size};
ghost use Rattle.source_text.specs.Sequences.{bad, defined, is_template, meant, served, use_of};

use crate::faults::Faults;
use crate::held::{self, Held, no_pieces};
use crate::names::Known;
use crate::parts::{Found, Scope};
use crate::sequences::Kind;
use fuun_base::NoMemory;

/// The templates that a use gives for parameters, and the tokens of them that do not serve.
#[derive(Drop)]
pub(crate) struct Given {
    pub(crate) held: Vec<Held>,
    pub(crate) faults: Faults,
}

/// Whether templates may follow a name.
pub(crate) fn takes_templates(known: &[Known], id: u64) -> bool
    ensures { (limit : ℕ) (names : Names) → AreKnown limit known.now names → result ≡ takes_templates (names id) }
{
    if known.len() as u64 <= id {
        return true;
    }
    match &known[id as usize] {
        Known::Definition { count, .. } => *count != 0,
        Known::Unknown | Known::Reserved | Known::Label { .. } => true,
    }
}

/// What a name stands for at a use of it, with the templates that it gives.
pub(crate) fn use_of(
    scope: &Scope<'_>,
    kind: Kind,
    at: u64,
    given: &[Held],
    id: u64,
    faults: Faults,
) -> Result<Found, NoMemory>
    requires { scope.now.limit ≤ 2 ^ 40 }
    ensures { IfOk result (λ found. (names : Names) (lists : List (List PieceOf)) → AreKnown scope.now.limit scope.now.known.now names → AreHeld scope.now.limit given.now lists → IsWorth scope.now.limit found (use_of kind at lists (names id) faults)) }
{
    let found = meant(scope, kind, at, given, id)?;
    Ok(Found {
        held: found.held,
        faults: found.faults.and(faults),
    })
}

fn meant(scope: &Scope<'_>, kind: Kind, at: u64, given: &[Held], id: u64) -> Result<Found, NoMemory>
    requires { scope.now.limit ≤ 2 ^ 40 }
    ensures { IfOk result (λ found. (names : Names) (lists : List (List PieceOf)) → AreKnown scope.now.limit scope.now.known.now names → AreHeld scope.now.limit given.now lists → IsWorth scope.now.limit found (meant kind at lists (names id))) }
{
    if scope.known.len() as u64 <= id {
        return Ok(bad(scope, at));
    }
    match &scope.known[id as usize] {
        Known::Definition { count, held } => {
            let found = defined(scope, kind, at, given, *count, held)?;
            Ok(found)
        }
        Known::Unknown | Known::Reserved | Known::Label { .. } => Ok(bad(scope, at)),
    }
}

/// No pieces, at a name that does not serve.
pub(crate) fn bad(scope: &Scope<'_>, at: u64) -> Found
    ensures { (limit : ℕ) → IsWorth limit result (bad at) }
{
    Found {
        held: no_pieces(scope.alloc),
        faults: Faults::name(at),
    }
}

// What a definition with so many parameters stands for.
fn defined(
    scope: &Scope<'_>,
    kind: Kind,
    at: u64,
    given: &[Held],
    count: u64,
    held: &Held,
) -> Result<Found, NoMemory>
    requires { scope.now.limit ≤ 2 ^ 40 }
    ensures { IfOk result (λ found. (pieces : List PieceOf) (lists : List (List PieceOf)) → IsHeld scope.now.limit held.now pieces → (0 < count → size pieces ≤ scope.now.limit) → AreHeld scope.now.limit given.now lists → IsWorth scope.now.limit found (defined kind at lists count pieces)) }
{
    if count != given.len() as u64 {
        return Ok(bad(scope, at));
    }
    let pieces = in_place(scope, held, given)?;
    Ok(served(scope, kind, at, pieces))
}

// A definition's pieces with the templates that are given, or as they are where none is.
fn in_place(scope: &Scope<'_>, held: &Held, given: &[Held]) -> Result<Held, NoMemory>
    requires { scope.now.limit ≤ 2 ^ 40 }
    ensures { IfOk result (λ found. (pieces : List PieceOf) (lists : List (List PieceOf)) → IsHeld scope.now.limit held.now pieces → (0 < length given.now → size pieces ≤ scope.now.limit) → AreHeld scope.now.limit given.now lists → IsHeld scope.now.limit found (filled lists pieces)) }
{
    if given.is_empty() {
        let copy = held::both_copied(scope.alloc, scope.limit, no_pieces(scope.alloc), held)?;
        return Ok(copy);
    }
    let found = held::filled(scope.alloc, scope.limit, held.items.as_slice(), given)?;
    Ok(found)
}

// Pieces that serve in a sequence, at the place of their name.
fn served(scope: &Scope<'_>, kind: Kind, at: u64, held: Held) -> Found
    ensures { (limit : ℕ) (pieces : List PieceOf) → IsHeld limit held pieces → IsWorth limit result (served kind at pieces) }
{
    if !serves(kind, held.bases) {
        return bad(scope, at);
    }
    Found {
        held: held::placed(at, held),
        faults: Faults::none(),
    }
}

fn serves(kind: Kind, bases: bool) -> bool
    ensures { result ≡ (is_template kind || bases) }
{
    match kind {
        Kind::Template => true,
        Kind::Pattern | Kind::Bases => bases,
    }
}
