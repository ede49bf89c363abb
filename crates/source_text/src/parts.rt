//! Parts of sequences that hold no others.
ghost use Rattle.std.specs.Prelude.{ℕ, ◌^◌, ◌<◌, ◌≤◌, suc, length, IfOk};
ghost use Rattle.source_text.specs.Keeping.{AreKnown, IsWorth, Reads};
ghost use Rattle.source_text.specs.Names.{Names};
ghost use Rattle.source_text.specs.Sequences.{Inside, Worth, both, closed, group_part, len_part, level_part, nothing, one, piece_worth, repeated, repeats, skip_part, sum_part};

use crate::faults::{Counted, Faults, number};
use crate::held::{self, Held, no_pieces, one_piece};
use crate::names::Known;
use crate::pieces::{Item, Piece};
use crate::signs::{Sign, behind, stands, tail};
use crate::sums::{factor, sum};
use fuun_base::NoMemory;
use source_items::sum_of;
use source_tokens::Token;
use std::alloc::Global;

/// In what a sequence is read.
#[derive(Drop)]
pub(crate) struct Scope<'k> {
    pub(crate) alloc: Global,
    /// How many pieces are kept at most.
    pub(crate) limit: u64,
    /// How many lines stand before the statement.
    pub(crate) line: u64,
    /// What is known of names, by their numbers.
    pub(crate) known: &'k [Known],
}

/// Pieces that were read, and the tokens of them that do not serve.
#[derive(Drop)]
pub(crate) struct Found {
    pub(crate) held: Held,
    pub(crate) faults: Faults,
}

/// No pieces.
pub(crate) fn nothing(alloc: Global) -> Found
    ensures { (limit : ℕ) → IsWorth limit result nothing }
{
    Found {
        held: no_pieces(alloc),
        faults: Faults::none(),
    }
}

/// One piece, at its place.
pub(crate) fn one(scope: &Scope<'_>, item: Item, at: u64) -> Result<Found, NoMemory>
    requires { scope.now.limit ≤ 2 ^ 40 }
    ensures { IfOk result (λ found. IsWorth scope.now.limit found (one item at)) }
{
    let held = one_piece(scope.alloc, scope.limit, Piece { item, at })?;
    Ok(Found {
        held,
        faults: Faults::none(),
    })
}

/// Pieces behind others.
pub(crate) fn both(scope: &Scope<'_>, a: Found, b: Found) -> Result<Found, NoMemory>
    requires { scope.now.limit ≤ 2 ^ 40 }
    ensures { IfOk result (λ found. (x y : Worth) → IsWorth scope.now.limit a x → IsWorth scope.now.limit b y → IsWorth scope.now.limit found (both x y)) }
{
    let held = held::both(scope.alloc, scope.limit, a.held, b.held)?;
    Ok(Found {
        held,
        faults: a.faults.and(b.faults),
    })
}

/// Reads what repeats a part: `Err` tells how many tokens are left where the reading stops.
pub(crate) fn repeats<'a>(
    scope: &Scope<'_>,
    part: Found,
    tokens: &'a [Token],
) -> Result<Result<(Found, &'a [Token]), usize>, NoMemory>
    requires { scope.now.limit ≤ 2 ^ 40 }
    ensures value { IfOk result (λ read. (x : Worth) → IsWorth scope.now.limit part x → Reads scope.now.limit read (repeats (suc (length tokens.now)) x tokens.now)) }
    ensures within { IfOk result (λ read. IfOk read (λ found. length found.1.now ≤ length tokens.now)) }
{
    let mut found = part;
    let mut rest = tokens;
    'times: while stands(Sign::Star, rest) {
        let (times, left) = match number(tail(rest)) {
            Ok(read) => read,
            Err(left) => return Ok(Err(left)),
        };
        found = repeated(scope, found, times)?;
        rest = left;
    }
    Ok(Ok((found, rest)))
}

fn repeated(scope: &Scope<'_>, part: Found, times: Counted) -> Result<Found, NoMemory>
    requires { scope.now.limit ≤ 2 ^ 40 }
    ensures { IfOk result (λ found. (x : Worth) → IsWorth scope.now.limit part x → IsWorth scope.now.limit found (repeated x times.number times.faults)) }
{
    let held = held::repeated(scope.alloc, scope.limit, &part.held, times.number)?;
    Ok(Found {
        held,
        faults: part.faults.and(times.faults),
    })
}

// One piece, and the tokens that do not serve in it.
fn piece(scope: &Scope<'_>, item: Item, at: u64, faults: Faults) -> Result<Found, NoMemory>
    requires { scope.now.limit ≤ 2 ^ 40 }
    ensures { IfOk result (λ found. IsWorth scope.now.limit found (piece_worth item at faults)) }
{
    let held = one_piece(scope.alloc, scope.limit, Piece { item, at })?;
    Ok(Found { held, faults })
}

// One piece, where a sign ends it.
fn closed_piece<'a>(
    scope: &Scope<'_>,
    item: Item,
    at: u64,
    faults: Faults,
    end: Sign,
    tokens: &'a [Token],
) -> Result<Result<(Found, &'a [Token]), usize>, NoMemory>
    requires { scope.now.limit ≤ 2 ^ 40 }
    ensures value { IfOk result (λ read. Reads scope.now.limit read (closed end (piece_worth item at faults) tokens.now)) }
    ensures within { IfOk result (λ read. IfOk read (λ found. length found.1.now < length tokens.now)) }
{
    let rest = match behind(end, tokens) {
        Ok(rest) => rest,
        Err(left) => return Ok(Err(left)),
    };
    let found = piece(scope, item, at, faults)?;
    Ok(Ok((found, rest)))
}

/// Reads what a skip passes over, behind the `!` at this place.
pub(crate) fn skip_part<'a>(
    scope: &Scope<'_>,
    at: u64,
    tokens: &'a [Token],
) -> Result<Result<(Found, &'a [Token]), usize>, NoMemory>
    requires { scope.now.limit ≤ 2 ^ 40 }
    ensures value { IfOk result (λ read. (names : Names) (inside : Inside) → AreKnown scope.now.limit scope.now.known.now names → Reads scope.now.limit read (skip_part names scope.now.line inside at tokens.now)) }
    ensures within { IfOk result (λ read. IfOk read (λ found. length found.1.now ≤ length tokens.now)) }
{
    if stands(Sign::OpenBrace, tokens) {
        let read = sum_part(scope, at, tail(tokens))?;
        return Ok(read);
    }
    let (one, rest) = match factor(scope.known, scope.line, tokens) {
        Ok(read) => read,
        Err(left) => return Ok(Err(left)),
    };
    let sum = sum_of(scope.alloc, one.factor)?;
    let found = piece(scope, Item::Skip(sum), at, one.faults)?;
    Ok(Ok((found, rest)))
}

fn sum_part<'a>(
    scope: &Scope<'_>,
    at: u64,
    tokens: &'a [Token],
) -> Result<Result<(Found, &'a [Token]), usize>, NoMemory>
    requires { scope.now.limit ≤ 2 ^ 40 }
    ensures value { IfOk result (λ read. (names : Names) (inside : Inside) → AreKnown scope.now.limit scope.now.known.now names → Reads scope.now.limit read (sum_part names scope.now.line inside at tokens.now)) }
    ensures within { IfOk result (λ read. IfOk read (λ found. length found.1.now ≤ length tokens.now)) }
{
    let (one, rest) = match sum(scope.alloc, scope.known, scope.line, tokens)? {
        Ok(read) => read,
        Err(left) => return Ok(Err(left)),
    };
    let read = closed_piece(
        scope,
        Item::Skip(one.sum),
        at,
        one.faults,
        Sign::CloseBrace,
        rest,
    )?;
    Ok(read)
}

/// Reads a reference, behind the `{` at this place.
pub(crate) fn group_part<'a>(
    scope: &Scope<'_>,
    at: u64,
    tokens: &'a [Token],
) -> Result<Result<(Found, &'a [Token]), usize>, NoMemory>
    requires { scope.now.limit ≤ 2 ^ 40 }
    ensures value { IfOk result (λ read. (names : Names) (line : ℕ) (inside : Inside) → Reads scope.now.limit read (group_part names line inside at tokens.now)) }
    ensures within { IfOk result (λ read. IfOk read (λ found. length found.1.now ≤ length tokens.now)) }
{
    let (n, rest) = match number(tokens) {
        Ok(read) => read,
        Err(left) => return Ok(Err(left)),
    };
    let read = level_part(scope, at, n, rest)?;
    Ok(read)
}

fn level_part<'a>(
    scope: &Scope<'_>,
    at: u64,
    n: Counted,
    tokens: &'a [Token],
) -> Result<Result<(Found, &'a [Token]), usize>, NoMemory>
    requires { scope.now.limit ≤ 2 ^ 40 }
    ensures value { IfOk result (λ read. (names : Names) (line : ℕ) (inside : Inside) → Reads scope.now.limit read (level_part names line inside at n.number n.faults tokens.now)) }
    ensures within { IfOk result (λ read. IfOk read (λ found. length found.1.now ≤ length tokens.now)) }
{
    if !stands(Sign::Comma, tokens) {
        let group = Item::Group {
            n: n.number,
            level: 0,
        };
        let read = closed_piece(scope, group, at, n.faults, Sign::CloseBrace, tokens)?;
        return Ok(read);
    }
    let (level, rest) = match number(tail(tokens)) {
        Ok(read) => read,
        Err(left) => return Ok(Err(left)),
    };
    let group = Item::Group {
        n: n.number,
        level: level.number,
    };
    let faults = n.faults.and(level.faults);
    let read = closed_piece(scope, group, at, faults, Sign::CloseBrace, rest)?;
    Ok(read)
}

/// Reads the length of a group, behind the `|` at this place.
pub(crate) fn len_part<'a>(
    scope: &Scope<'_>,
    at: u64,
    tokens: &'a [Token],
) -> Result<Result<(Found, &'a [Token]), usize>, NoMemory>
    requires { scope.now.limit ≤ 2 ^ 40 }
    ensures value { IfOk result (λ read. (names : Names) (line : ℕ) (inside : Inside) → Reads scope.now.limit read (len_part names line inside at tokens.now)) }
    ensures within { IfOk result (λ read. IfOk read (λ found. length found.1.now ≤ length tokens.now)) }
{
    let (n, rest) = match number(tokens) {
        Ok(read) => read,
        Err(left) => return Ok(Err(left)),
    };
    let read = closed_piece(scope, Item::Len(n.number), at, n.faults, Sign::Bar, rest)?;
    Ok(read)
}
