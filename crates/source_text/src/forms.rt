//! The forms of statements.
ghost use Rattle.std.specs.Prelude.{◌≡◌, ℕ, ◌^◌, ◌≤◌, ◌<◌, ◌∷◌, [], None, length, IfErr, IfOk, OnOk};
ghost use Rattle.source_text.specs.declared.pieces.Item.TheVariants.{Given};
ghost use Rattle.source_text.specs.declared.sequences.Kind.TheVariants.{Template};
ghost use Rattle.source_text.specs.Forms.{arrow, data_form, definition_form, form, head, is_data, label_form, other_form, pair_form, parameters, spot, with_parameters};
ghost use Rattle.source_text.specs.Judging.{known_faults};
ghost use Rattle.source_text.specs.Keeping.{AreKnown, IsHeld};
ghost use Rattle.source_text.specs.Forming.{AreParameters, IsData, IsDefine, IsForm, IsPair, IsWhole, LeavesNames, made_mark};
ghost use Rattle.source_text.specs.Names.{Names};
ghost use Rattle.source_text.specs.Pieces.{piece_at};
ghost use Rattle.source_text.specs.Sequences.{sequence};
ghost use Rattle.source_text.specs.Reading.{seen};

use crate::faults::Faults;
use crate::held::{Held, one_piece};
use crate::names::{Known, is_unknown, set_known};
use crate::parts::{Found, Scope};
use crate::pieces::{Item, Piece};
use crate::sequences::{Kind, sequence};
use crate::signs::{Sign, behind, is_sign, stands, tail};
use fuun_base::{List, NoMemory};
use source_tokens::{Token, Word};
use std::alloc::Global;

/// How deep brackets may stand within each other.
pub(crate) const DEPTH: u64 = 64;

/// A name that stands somewhere.
#[derive(Clone, Copy)]
pub(crate) struct Spot {
    pub(crate) id: u64,
    /// How many bytes of the source stand before it.
    pub(crate) at: u64,
}

/// Reads a name: `Err` tells how many tokens are left where the reading stops.
#[tactic(auto, unfolding(crate::specs::Forms::spot))]
fn read_spot(tokens: &[Token]) -> Result<(Spot, &[Token]), usize>
    ensures value { seen result ≡ spot tokens.now }
    ensures within { IfOk result (λ read. length read.1.now < length tokens.now) }
{
    let Some((first, rest)) = tokens.split_first() else {
        return Err(0);
    };
    match first.word {
        Word::Name(id) => Ok((Spot { id, at: first.at }, rest)),
        _ => Err(rest.len() + 1),
    }
}

// Reads an arrow, and tells where it stands.
#[tactic(auto, unfolding(crate::specs::Forms::arrow))]
fn arrow(tokens: &[Token]) -> Result<(u64, &[Token]), usize>
    ensures value { seen result ≡ arrow tokens.now }
    ensures within { IfOk result (λ read. length read.1.now < length tokens.now) }
{
    let Some((first, rest)) = tokens.split_first() else {
        return Err(0);
    };
    if is_sign(Sign::Arrow, first.word) {
        Ok((first.at, rest))
    } else {
        Err(rest.len() + 1)
    }
}

/// A definition's name and its parameters.
#[derive(Drop)]
pub(crate) struct Head {
    pub(crate) name: Spot,
    pub(crate) parameters: List<Spot>,
}

/// Reads a name and its parameters, and `=`: `Err` tells how many tokens are left where the reading stops.
#[tactic(auto, unfolding(crate::specs::Forms::head))]
pub(crate) fn definition_head(
    alloc: Global,
    tokens: &[Token],
) -> Result<Result<(Head, &[Token]), usize>, NoMemory>
    ensures { IfOk result (λ read. seen read ≡ head tokens.now) }
{
    let (name, rest) = match read_spot(tokens) {
        Ok(read) => read,
        Err(left) => return Ok(Err(left)),
    };
    let (parameters, more) = match parameters(alloc, rest)? {
        Ok(read) => read,
        Err(left) => return Ok(Err(left)),
    };
    match behind(Sign::Equals, more) {
        Ok(left) => Ok(Ok((Head { name, parameters }, left))),
        Err(left) => Ok(Err(left)),
    }
}

/// The name of a label, where the tokens are one: `Err` tells how many are left where the reading stops.
pub(crate) fn label_form(tokens: &[Token]) -> Result<Spot, usize>
    ensures { made_mark result ≡ label_form tokens.now }
{
    let (name, rest) = read_spot(tokens)?;
    let left = behind(Sign::Colon, rest)?;
    match ended(left) {
        Ok(()) => Ok(name),
        Err(left) => Err(left),
    }
}

// Reads the names of parameters between brackets, or none.
fn parameters(
    alloc: Global,
    tokens: &[Token],
) -> Result<Result<(List<Spot>, &[Token]), usize>, NoMemory>
    ensures value { IfOk result (λ read. seen read ≡ parameters tokens.now) }
    ensures within { IfOk result (λ read. IfOk read (λ found. length found.1.now ≤ length tokens.now)) }
{
    let mut spots = List::new(alloc);
    if !stands(Sign::OpenBracket, tokens) {
        return Ok(Ok((spots, tokens)));
    }
    let (first, mut rest) = match read_spot(tail(tokens)) {
        Ok(read) => read,
        Err(left) => return Ok(Err(left)),
    };
    spots.push(first)?;
    'spots: while stands(Sign::Semicolon, rest) {
        let (next, left) = match read_spot(tail(rest)) {
            Ok(read) => read,
            Err(left) => return Ok(Err(left)),
        };
        spots.push(next)?;
        rest = left;
    }
    match behind(Sign::CloseBracket, rest) {
        Ok(left) => Ok(Ok((spots, left))),
        Err(left) => Ok(Err(left)),
    }
}

// Nothing is left: `Err` tells how many tokens are.
fn ended(tokens: &[Token]) -> Result<(), usize>
    ensures done { OnOk result (length tokens.now ≡ 0) }
    ensures left { IfErr result (λ left. (left ≡ length tokens.now) × (0 < left)) }
{
    if tokens.is_empty() {
        Ok(())
    } else {
        Err(tokens.len())
    }
}

/// The bases of data, behind its first token.
pub(crate) fn data_form(scope: &Scope<'_>, rest: &[Token]) -> Result<Result<Found, usize>, NoMemory>
    requires { scope.now.limit ≤ 2 ^ 40 }
    ensures { IfOk result (λ read. (names : Names) → AreKnown scope.now.limit scope.now.known.now names → IsData scope.now.limit read (data_form names scope.now.line rest.now)) }
{
    let (bases, left) = match sequence(scope, Kind::Bases, DEPTH, rest)? {
        Ok(read) => read,
        Err(left) => return Ok(Err(left)),
    };
    match ended(left) {
        Ok(()) => Ok(Ok(bases)),
        Err(left) => Ok(Err(left)),
    }
}

/// A pattern and its template, and where their arrow stands.
#[derive(Drop)]
pub(crate) struct Pair {
    pub(crate) pattern: Found,
    pub(crate) arrow: u64,
    pub(crate) template: Found,
}

/// The pair, where the tokens are one: `Err` tells how many are left where the reading stops.
pub(crate) fn pair_form(
    scope: &Scope<'_>,
    tokens: &[Token],
) -> Result<Result<Pair, usize>, NoMemory>
    requires { scope.now.limit ≤ 2 ^ 40 }
    ensures { IfOk result (λ read. (names : Names) → AreKnown scope.now.limit scope.now.known.now names → IsPair scope.now.limit read (pair_form names scope.now.line tokens.now)) }
{
    let (pattern, rest) = match sequence(scope, Kind::Pattern, DEPTH, tokens)? {
        Ok(read) => read,
        Err(left) => return Ok(Err(left)),
    };
    let (arrow, more) = match arrow(rest) {
        Ok(read) => read,
        Err(left) => return Ok(Err(left)),
    };
    let (template, left) = match sequence(scope, Kind::Template, DEPTH, more)? {
        Ok(read) => read,
        Err(left) => return Ok(Err(left)),
    };
    match ended(left) {
        Ok(()) => Ok(Ok(Pair {
            pattern,
            arrow,
            template,
        })),
        Err(left) => Ok(Err(left)),
    }
}

/// A definition: its names, which of them do not serve, and its template.
#[derive(Drop)]
pub(crate) struct Define {
    pub(crate) head: Head,
    /// The first of its names that was known before.
    pub(crate) known: Faults,
    pub(crate) template: Found,
}

// The definition, where the tokens are one: `Err` tells how many are left where the reading stops. Its parameters are known
// while its template is read.
fn definition_form(
    alloc: Global,
    limit: u64,
    line: u64,
    known: &mut Vec<Known>,
    tokens: &[Token],
) -> Result<Result<Define, usize>, NoMemory>
    requires { limit ≤ 2 ^ 40 }
    ensures value { IfOk result (λ read. (names : Names) → AreKnown limit known.old.items names → IsDefine limit names read (definition_form names line tokens.now)) }
    ensures left { IfOk result (λ read. IfOk read (λ define. (names : Names) → AreKnown limit known.old.items names → define.known.name ≡ None → AreKnown limit known.new.items names)) }
{
    let (head, rest) = match definition_head(alloc, tokens)? {
        Ok(read) => read,
        Err(left) => return Ok(Err(left)),
    };
    let own = name_faults(known.as_slice(), head.name);
    let others = add_parameters(alloc, limit, known, head.parameters.as_slice())?;
    let template = match template_form(alloc, limit, line, known.as_slice(), rest)? {
        Ok(template) => template,
        Err(left) => return Ok(Err(left)),
    };
    drop_parameters(known, head.parameters.as_slice())?;
    Ok(Ok(Define {
        head,
        known: own.and(others),
        template,
    }))
}

// A definition's name does not serve where it is known.
fn name_faults(known: &[Known], name: Spot) -> Faults
    ensures { (limit : ℕ) (names : Names) → AreKnown limit known.now names → result ≡ known_faults names (name ∷ []) }
{
    if is_unknown(known, name.id) {
        Faults::none()
    } else {
        Faults::name(name.at)
    }
}

// Makes parameters known by their places, and tells the first that was known before.
fn add_parameters(
    alloc: Global,
    limit: u64,
    known: &mut Vec<Known>,
    parameters: &[Spot],
) -> Result<Faults, NoMemory>
    requires { limit ≤ 2 ^ 40 }
    ensures { IfOk result (λ faults. (names : Names) → AreKnown limit known.old.items names → AreParameters limit names parameters.now known.new.items faults) }
{
    let mut faults = Faults::none();
    let mut place = 0;
    'parameters: for parameter in parameters {
        faults = faults.and(name_faults(known.as_slice(), *parameter));
        let held = parameter_piece(alloc, limit, place)?;
        set_known(known, parameter.id, Known::Definition { count: 0, held })?;
        place += 1;
    }
    Ok(faults)
}

// What the parameter at a place stands for.
fn parameter_piece(alloc: Global, limit: u64, place: u64) -> Result<Held, NoMemory>
    requires { limit ≤ 2 ^ 40 }
    ensures { IfOk result (λ held. IsHeld limit held (piece_at 0 (Given place) ∷ [])) }
{
    let piece = Piece {
        item: Item::Given(place),
        at: 0,
    };
    let held = one_piece(alloc, limit, piece)?;
    Ok(held)
}

// Makes parameters unknown again, where they were unknown before.
fn drop_parameters(known: &mut Vec<Known>, parameters: &[Spot]) -> Result<(), NoMemory>
    ensures { OnOk result ((limit : ℕ) (names : Names) → (known_faults names parameters.now).name ≡ None → AreKnown limit known.old.items (with_parameters 0 names parameters.now) → AreKnown limit known.new.items names) }
{
    'parameters: for parameter in parameters {
        set_known(known, parameter.id, Known::Unknown)?;
    }
    Ok(())
}

// A template that is all that there is: `Err` tells how many tokens are left where the reading stops.
fn template_form(
    alloc: Global,
    limit: u64,
    line: u64,
    known: &[Known],
    tokens: &[Token],
) -> Result<Result<Found, usize>, NoMemory>
    requires { limit ≤ 2 ^ 40 }
    ensures { IfOk result (λ read. (names : Names) → AreKnown limit known.now names → IsWhole limit read (sequence names line Template tokens.now)) }
{
    let scope = Scope {
        alloc,
        limit,
        line,
        known,
    };
    let (template, left) = match sequence(&scope, Kind::Template, DEPTH, tokens)? {
        Ok(read) => read,
        Err(left) => return Ok(Err(left)),
    };
    match ended(left) {
        Ok(()) => Ok(Ok(template)),
        Err(left) => Ok(Err(left)),
    }
}

/// A statement by its form.
#[derive(Drop)]
pub(crate) enum FormFound {
    Pair(Pair),
    Define(Define),
    Data(Found),
    /// A label.
    Mark(Spot),
}

/// The form of a statement before which so many lines stand: `Err` tells how many tokens are left where the reading stops.
#[tactic(auto, unfolding(crate::specs::Forms::form))]
pub(crate) fn form(
    alloc: Global,
    limit: u64,
    line: u64,
    known: &mut Vec<Known>,
    tokens: &[Token],
) -> Result<Result<FormFound, usize>, NoMemory>
    requires { limit ≤ 2 ^ 40 }
    ensures value { IfOk result (λ read. (names : Names) → AreKnown limit known.old.items names → IsForm limit names read (form names line tokens.now)) }
    ensures left { IfOk result (λ read. IfOk read (λ found. (names : Names) → AreKnown limit known.old.items names → LeavesNames found → AreKnown limit known.new.items names)) }
{
    let Some((first, rest)) = tokens.split_first() else {
        return Ok(Err(0));
    };
    if is_data(first.word) {
        let read = read_data(alloc, limit, line, known.as_slice(), rest)?;
        return Ok(read);
    }
    let read = other_form(alloc, limit, line, known, tokens)?;
    Ok(read)
}

// Whether a statement that begins so is data.
fn is_data(word: Word) -> bool
    ensures { result ≡ is_data word }
{
    matches!(word, Word::Name(0))
}

fn read_data(
    alloc: Global,
    limit: u64,
    line: u64,
    known: &[Known],
    rest: &[Token],
) -> Result<Result<FormFound, usize>, NoMemory>
    requires { limit ≤ 2 ^ 40 }
    ensures value { IfOk result (λ read. (names : Names) → AreKnown limit known.now names → IsForm limit names read (data_form names line rest.now)) }
    ensures leaves { IfOk result (λ read. IfOk read (λ found. LeavesNames found)) }
{
    let scope = Scope {
        alloc,
        limit,
        line,
        known,
    };
    match data_form(&scope, rest)? {
        Ok(bases) => Ok(Ok(FormFound::Data(bases))),
        Err(left) => Ok(Err(left)),
    }
}

fn read_pair(
    alloc: Global,
    limit: u64,
    line: u64,
    known: &[Known],
    tokens: &[Token],
) -> Result<Result<Pair, usize>, NoMemory>
    requires { limit ≤ 2 ^ 40 }
    ensures { IfOk result (λ read. (names : Names) → AreKnown limit known.now names → IsPair limit read (pair_form names line tokens.now)) }
{
    let scope = Scope {
        alloc,
        limit,
        line,
        known,
    };
    let read = pair_form(&scope, tokens)?;
    Ok(read)
}

// A label, a pair or a definition. What is known changes with the last alone.
fn other_form(
    alloc: Global,
    limit: u64,
    line: u64,
    known: &mut Vec<Known>,
    tokens: &[Token],
) -> Result<Result<FormFound, usize>, NoMemory>
    requires { limit ≤ 2 ^ 40 }
    ensures value { IfOk result (λ read. (names : Names) → AreKnown limit known.old.items names → IsForm limit names read (other_form names line tokens.now)) }
    ensures left { IfOk result (λ read. IfOk read (λ found. (names : Names) → AreKnown limit known.old.items names → LeavesNames found → AreKnown limit known.new.items names)) }
{
    let no_label = match label_form(tokens) {
        Ok(name) => return Ok(Ok(FormFound::Mark(name))),
        Err(left) => left,
    };
    let no_pair = match read_pair(alloc, limit, line, known.as_slice(), tokens)? {
        Ok(pair) => return Ok(Ok(FormFound::Pair(pair))),
        Err(left) => left,
    };
    match definition_form(alloc, limit, line, known, tokens)? {
        Ok(define) => Ok(Ok(FormFound::Define(define))),
        Err(left) => Ok(Err(no_label.min(no_pair.min(left)))),
    }
}
