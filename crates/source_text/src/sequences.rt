//! Sequences of parts.
ghost use Rattle.std.specs.Prelude.{◌≡◌, ℕ, ◌^◌, ◌<◌, ◌≤◌, ◌&&◌, ◌∷◌, ◌++◌, [], Ok, length, IfOk};
ghost use Rattle.source_text.specs.declared.sequences.Kind.TheVariants.{Pattern, Template};
ghost use Rattle.source_text.specs.declared.signs.Sign.TheVariants.{OpenBracket};
ghost use Rattle.source_text.specs.Keeping.{AreKnown, IsGiven, IsWorth, Reads, ReadsUses};
ghost use Rattle.source_text.specs.Names.{Names, takes_templates};
ghost use Rattle.source_text.specs.Reading.{both_faults, stands};
ghost use Rattle.source_text.specs.Sequences.{Inside, Uses, Worth, arguments, begins, begins_by, begins_common, bracket, common_by, inside_at, name_part, one, own_by, part, repeatable, search_part, search_worth, sequence_by, uses};

use crate::faults::Faults;
use crate::held::search_piece;
use crate::parts::{Found, Scope, both, group_part, len_part, nothing, one, repeats, skip_part};
use crate::pieces::Item;
use crate::signs::{Sign, behind, stands, tail};
use crate::uses::{Given, bad, takes_templates, use_of};
use fuun_base::NoMemory;
use source_tokens::{Token, Word};

/// What a sequence is read as.
#[derive(Clone, Copy)]
pub(crate) enum Kind {
    Pattern,
    Template,
    Bases,
}

// Whether a part of such a sequence stands at the front.
fn begins(kind: Kind, tokens: &[Token]) -> bool
    ensures { result ≡ begins_by (begins kind) tokens.now }
{
    match tokens.first() {
        Some(first) => begins_word(kind, first.word),
        None => false,
    }
}

fn begins_word(kind: Kind, word: Word) -> bool
    ensures { result ≡ begins kind word }
{
    match word {
        Word::Base(_) | Word::Name(_) | Word::OpenBracket => true,
        Word::Bang | Word::Less | Word::Open | Word::Close => matches!(kind, Kind::Pattern),
        Word::OpenBrace | Word::Bar => matches!(kind, Kind::Template),
        _ => false,
    }
}

/// Reads a sequence in which brackets may go so many deep: `Err` tells how many tokens are left where the reading stops.
#[cycle(sequence)]
pub(crate) fn sequence<'a>(
    scope: &Scope<'_>,
    kind: Kind,
    depth: u64,
    tokens: &'a [Token],
) -> Result<Result<(Found, &'a [Token]), usize>, NoMemory>
    requires { scope.now.limit ≤ 2 ^ 40 }
    ensures value { IfOk result (λ read. (names : Names) → AreKnown scope.now.limit scope.now.known.now names → Reads scope.now.limit read (sequence_by names scope.now.line (inside_at names scope.now.line depth) kind tokens.now)) }
    ensures within { IfOk result (λ read. IfOk read (λ found. length found.1.now ≤ length tokens.now)) }
{
    let mut found = nothing(scope.alloc);
    let mut rest = tokens;
    'parts: while begins(kind, rest) {
        let (next, left) = match part(scope, kind, depth, rest)? {
            Ok(read) => read,
            Err(left) => return Ok(Err(left)),
        };
        found = both(scope, found, next)?;
        rest = left;
    }
    Ok(Ok((found, rest)))
}

// Reads a part and what repeats it.
#[cycle(sequence)]
fn part<'a>(
    scope: &Scope<'_>,
    kind: Kind,
    depth: u64,
    tokens: &'a [Token],
) -> Result<Result<(Found, &'a [Token]), usize>, NoMemory>
    requires { scope.now.limit ≤ 2 ^ 40 }
    ensures value { IfOk result (λ read. (names : Names) → AreKnown scope.now.limit scope.now.known.now names → Reads scope.now.limit read (repeatable (part names scope.now.line (inside_at names scope.now.line depth) kind) tokens.now)) }
    ensures within { IfOk result (λ read. IfOk read (λ found. length found.1.now < length tokens.now)) }
{
    let (found, rest) = match once(scope, kind, depth, tokens)? {
        Ok(read) => read,
        Err(left) => return Ok(Err(left)),
    };
    let read = repeats(scope, found, rest)?;
    Ok(read)
}

// Reads a part.
#[cycle(sequence)]
fn once<'a>(
    scope: &Scope<'_>,
    kind: Kind,
    depth: u64,
    tokens: &'a [Token],
) -> Result<Result<(Found, &'a [Token]), usize>, NoMemory>
    requires { scope.now.limit ≤ 2 ^ 40 }
    ensures value { IfOk result (λ read. (names : Names) → AreKnown scope.now.limit scope.now.known.now names → Reads scope.now.limit read (part names scope.now.line (inside_at names scope.now.line depth) kind tokens.now)) }
    ensures within { IfOk result (λ read. IfOk read (λ found. length found.1.now < length tokens.now)) }
{
    let Some((first, rest)) = tokens.split_first() else {
        return Ok(Err(0));
    };
    if !begins_common(first.word) {
        let read = own_part(scope, kind, depth, first.word, first.at, rest)?;
        return Ok(read);
    }
    let read = common_part(scope, kind, depth, first.word, first.at, rest)?;
    Ok(read)
}

fn begins_common(word: Word) -> bool
    ensures { result ≡ begins_common word }
{
    matches!(word, Word::Base(_) | Word::Name(_) | Word::OpenBracket)
}

// Reads a part of all sequences behind its first word.
#[cycle(sequence)]
fn common_part<'a>(
    scope: &Scope<'_>,
    kind: Kind,
    depth: u64,
    word: Word,
    at: u64,
    rest: &'a [Token],
) -> Result<Result<(Found, &'a [Token]), usize>, NoMemory>
    requires { scope.now.limit ≤ 2 ^ 40 }
    ensures value { IfOk result (λ read. (names : Names) → AreKnown scope.now.limit scope.now.known.now names → Reads scope.now.limit read (common_by names scope.now.line (inside_at names scope.now.line depth) kind word at rest.now)) }
    ensures within { IfOk result (λ read. IfOk read (λ found. length found.1.now ≤ length rest.now)) }
{
    match word {
        Word::Base(base) => {
            let read = single(scope, Item::Base(base), at, rest)?;
            Ok(read)
        }
        Word::Name(id) => {
            let read = name_part(scope, kind, depth, id, at, rest)?;
            Ok(read)
        }
        Word::OpenBracket => {
            let read = bracket(scope, kind, depth, rest)?;
            Ok(read)
        }
        _ => Ok(Err(rest.len() + 1)),
    }
}

// One piece before the tokens that are left.
fn single<'a>(
    scope: &Scope<'_>,
    item: Item,
    at: u64,
    rest: &'a [Token],
) -> Result<Result<(Found, &'a [Token]), usize>, NoMemory>
    requires { scope.now.limit ≤ 2 ^ 40 }
    ensures value { IfOk result (λ read. Reads scope.now.limit read (Ok (one item at, rest.now))) }
    ensures within { IfOk result (λ read. IfOk read (λ found. length found.1.now ≤ length rest.now)) }
{
    let found = one(scope, item, at)?;
    Ok(Ok((found, rest)))
}

// Reads a part of patterns alone, or of templates alone, behind its first word.
#[cycle(sequence)]
fn own_part<'a>(
    scope: &Scope<'_>,
    kind: Kind,
    depth: u64,
    word: Word,
    at: u64,
    rest: &'a [Token],
) -> Result<Result<(Found, &'a [Token]), usize>, NoMemory>
    requires { scope.now.limit ≤ 2 ^ 40 }
    ensures value { IfOk result (λ read. (names : Names) → AreKnown scope.now.limit scope.now.known.now names → Reads scope.now.limit read (own_by names scope.now.line (inside_at names scope.now.line depth) kind word at rest.now)) }
    ensures within { IfOk result (λ read. IfOk read (λ found. length found.1.now ≤ length rest.now)) }
{
    match kind {
        Kind::Pattern => {
            let read = pattern_part(scope, depth, word, at, rest)?;
            Ok(read)
        }
        Kind::Template => {
            let read = template_part(scope, word, at, rest)?;
            Ok(read)
        }
        Kind::Bases => Ok(Err(rest.len() + 1)),
    }
}

#[cycle(sequence)]
fn pattern_part<'a>(
    scope: &Scope<'_>,
    depth: u64,
    word: Word,
    at: u64,
    rest: &'a [Token],
) -> Result<Result<(Found, &'a [Token]), usize>, NoMemory>
    requires { scope.now.limit ≤ 2 ^ 40 }
    ensures value { IfOk result (λ read. (names : Names) → AreKnown scope.now.limit scope.now.known.now names → Reads scope.now.limit read (own_by names scope.now.line (inside_at names scope.now.line depth) Pattern word at rest.now)) }
    ensures within { IfOk result (λ read. IfOk read (λ found. length found.1.now ≤ length rest.now)) }
{
    match word {
        Word::Bang => {
            let read = skip_part(scope, at, rest)?;
            Ok(read)
        }
        Word::Less => {
            let read = search_part(scope, depth, at, rest)?;
            Ok(read)
        }
        Word::Open => {
            let read = single(scope, Item::Start, at, rest)?;
            Ok(read)
        }
        Word::Close => {
            let read = single(scope, Item::Stop, at, rest)?;
            Ok(read)
        }
        _ => Ok(Err(rest.len() + 1)),
    }
}

fn template_part<'a>(
    scope: &Scope<'_>,
    word: Word,
    at: u64,
    rest: &'a [Token],
) -> Result<Result<(Found, &'a [Token]), usize>, NoMemory>
    requires { scope.now.limit ≤ 2 ^ 40 }
    ensures value { IfOk result (λ read. (names : Names) (line : ℕ) (inside : Inside) → Reads scope.now.limit read (own_by names line inside Template word at rest.now)) }
    ensures within { IfOk result (λ read. IfOk read (λ found. length found.1.now ≤ length rest.now)) }
{
    match word {
        Word::OpenBrace => {
            let read = group_part(scope, at, rest)?;
            Ok(read)
        }
        Word::Bar => {
            let read = len_part(scope, at, rest)?;
            Ok(read)
        }
        _ => Ok(Err(rest.len() + 1)),
    }
}

// Reads a bracket behind its start.
#[cycle(sequence)]
fn bracket<'a>(
    scope: &Scope<'_>,
    kind: Kind,
    depth: u64,
    rest: &'a [Token],
) -> Result<Result<(Found, &'a [Token]), usize>, NoMemory>
    requires { scope.now.limit ≤ 2 ^ 40 }
    ensures value { IfOk result (λ read. (names : Names) → AreKnown scope.now.limit scope.now.known.now names → Reads scope.now.limit read (bracket names scope.now.line (inside_at names scope.now.line depth) kind rest.now)) }
    ensures within { IfOk result (λ read. IfOk read (λ found. length found.1.now ≤ length rest.now)) }
{
    let (found, left) = match inside(scope, kind, depth, rest)? {
        Ok(read) => read,
        Err(left) => return Ok(Err(left)),
    };
    match behind(Sign::CloseBracket, left) {
        Ok(rest) => Ok(Ok((found, rest))),
        Err(left) => Ok(Err(left)),
    }
}

// Reads what stands inside a bracket.
#[cycle(sequence)]
fn inside<'a>(
    scope: &Scope<'_>,
    kind: Kind,
    depth: u64,
    rest: &'a [Token],
) -> Result<Result<(Found, &'a [Token]), usize>, NoMemory>
    requires { scope.now.limit ≤ 2 ^ 40 }
    ensures value { IfOk result (λ read. (names : Names) → AreKnown scope.now.limit scope.now.known.now names → Reads scope.now.limit read (inside_at names scope.now.line depth kind rest.now)) }
    ensures within { IfOk result (λ read. IfOk read (λ found. length found.1.now ≤ length rest.now)) }
{
    if depth == 0 {
        return Ok(Err(rest.len() + 1));
    }
    let read = sequence(scope, kind, depth - 1, rest)?;
    Ok(read)
}

// Reads a search behind its start.
#[cycle(sequence)]
fn search_part<'a>(
    scope: &Scope<'_>,
    depth: u64,
    at: u64,
    rest: &'a [Token],
) -> Result<Result<(Found, &'a [Token]), usize>, NoMemory>
    requires { scope.now.limit ≤ 2 ^ 40 }
    ensures value { IfOk result (λ read. (names : Names) → AreKnown scope.now.limit scope.now.known.now names → Reads scope.now.limit read (search_part names scope.now.line (inside_at names scope.now.line depth) at rest.now)) }
    ensures within { IfOk result (λ read. IfOk read (λ found. length found.1.now ≤ length rest.now)) }
{
    let (found, left) = match sequence(scope, Kind::Bases, depth, rest)? {
        Ok(read) => read,
        Err(left) => return Ok(Err(left)),
    };
    let rest = match behind(Sign::Greater, left) {
        Ok(rest) => rest,
        Err(left) => return Ok(Err(left)),
    };
    let found = search(scope, found, at)?;
    Ok(Ok((found, rest)))
}

// Reads the templates that follow a name, and tells what it stands for.
#[cycle(sequence)]
fn name_part<'a>(
    scope: &Scope<'_>,
    kind: Kind,
    depth: u64,
    id: u64,
    at: u64,
    rest: &'a [Token],
) -> Result<Result<(Found, &'a [Token]), usize>, NoMemory>
    requires { scope.now.limit ≤ 2 ^ 40 }
    ensures value { IfOk result (λ read. (names : Names) → AreKnown scope.now.limit scope.now.known.now names → Reads scope.now.limit read (name_part names scope.now.line (inside_at names scope.now.line depth) kind id at rest.now)) }
    ensures within { IfOk result (λ read. IfOk read (λ found. length found.1.now ≤ length rest.now)) }
{
    if !has_templates(scope, id, rest) {
        let found = use_of(scope, kind, at, &[], id, Faults::none())?;
        return Ok(Ok((found, rest)));
    }
    let (given, left) = match arguments(scope, depth, tail(rest))? {
        Ok(read) => read,
        Err(left) => return Ok(Err(left)),
    };
    let found = use_of(scope, kind, at, given.held.as_slice(), id, given.faults)?;
    Ok(Ok((found, left)))
}

fn has_templates(scope: &Scope<'_>, id: u64, rest: &[Token]) -> bool
    ensures { (names : Names) → AreKnown scope.now.limit scope.now.known.now names → result ≡ (takes_templates (names id) && stands OpenBracket rest.now) }
{
    both_hold(
        takes_templates(scope.known, id),
        stands(Sign::OpenBracket, rest),
    )
}

fn both_hold(a: bool, b: bool) -> bool
    ensures { result ≡ (a && b) }
{
    a && b
}

// Reads templates with `;` between them and the bracket's end.
#[cycle(sequence)]
fn arguments<'a>(
    scope: &Scope<'_>,
    depth: u64,
    tokens: &'a [Token],
) -> Result<Result<(Given, &'a [Token]), usize>, NoMemory>
    requires { scope.now.limit ≤ 2 ^ 40 }
    ensures value { IfOk result (λ read. (names : Names) → AreKnown scope.now.limit scope.now.known.now names → ReadsUses scope.now.limit read (arguments names scope.now.line (inside_at names scope.now.line depth) tokens.now)) }
    ensures within { IfOk result (λ read. IfOk read (λ given. length given.1.now ≤ length tokens.now)) }
{
    let (first, mut rest) = match inside(scope, Kind::Template, depth, tokens)? {
        Ok(read) => read,
        Err(left) => return Ok(Err(left)),
    };
    let mut given = first_given(scope, first)?;
    'templates: while stands(Sign::Semicolon, rest) {
        let (next, left) = match inside(scope, Kind::Template, depth, tail(rest))? {
            Ok(read) => read,
            Err(left) => return Ok(Err(left)),
        };
        given = with_given(given, next)?;
        rest = left;
    }
    match behind(Sign::CloseBracket, rest) {
        Ok(left) => Ok(Ok((given, left))),
        Err(left) => Ok(Err(left)),
    }
}

fn first_given(scope: &Scope<'_>, first: Found) -> Result<Given, NoMemory>
    ensures { IfOk result (λ given. (x : Worth) → IsWorth scope.now.limit first x → IsGiven scope.now.limit given (uses (x.pieces ∷ []) x.faults)) }
{
    let mut held = Vec::new(scope.alloc);
    held.push(first.held)?;
    Ok(Given {
        held,
        faults: first.faults,
    })
}

fn with_given(given: Given, next: Found) -> Result<Given, NoMemory>
    ensures { IfOk result (λ more. (limit : ℕ) (u : Uses) (x : Worth) → IsGiven limit given u → IsWorth limit next x → IsGiven limit more (uses (u.given ++ x.pieces ∷ []) (both_faults u.faults x.faults))) }
{
    let mut held = given.held;
    held.push(next.held)?;
    Ok(Given {
        held,
        faults: given.faults.and(next.faults),
    })
}

// The search for the bases that were found.
fn search(scope: &Scope<'_>, found: Found, at: u64) -> Result<Found, NoMemory>
    requires { scope.now.limit ≤ 2 ^ 40 }
    ensures { IfOk result (λ search. (x : Worth) → IsWorth scope.now.limit found x → IsWorth scope.now.limit search (search_worth at x)) }
{
    if !found.held.bases {
        return Ok(bad(scope, at));
    }
    let held = search_piece(scope.alloc, scope.limit, &found.held, at)?;
    Ok(Found {
        held,
        faults: found.faults,
    })
}
