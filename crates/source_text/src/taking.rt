//! Statements, taken one after the other.
ghost use Rattle.std.specs.Prelude.{◌≡◌, ◌^◌, ◌≤◌, ◌∷◌, ◌++◌, ℕ, List as ListOf, [], None, Ok, Result as ResultOf, IfOk, OnOk};
ghost use Rattle.source_items.specs.declared.lines.Line.{Line as LineOf};
ghost use Rattle.source_items.specs.Held.{IsHeld as IsHeldLine};
ghost use Rattle.source_tokens.specs.declared.words.Token.{Token as TokenOf};
ghost use Rattle.source_text.specs.Forming.{IsForm, LeavesNames};
ghost use Rattle.source_text.specs.Forms.{Form, Data as DataOf, Define as DefineOf, Mark as MarkOf, Pair as PairOf};
ghost use Rattle.source_text.specs.Judging.{State, define_faults, first_at, placed, state, taken, taken_if, with_statement};
ghost use Rattle.source_text.specs.Keeping.{AreKnown, IsWorth};
ghost use Rattle.source_text.specs.Sequences.{Worth};
ghost use Rattle.source_text.specs.Sources.{taken_all};
ghost use Rattle.source_text.specs.Taking.{AreKept, IsReading, IsTaken};

use crate::building::{pair_line, plain_line};
use crate::forms::{Define, FormFound, Pair, Spot, form};
use crate::judging::{Refusal, is_too_long, label_faults, refusal_of, stop_place};
use crate::names::{Known, set_known};
use crate::parts::Found;
use crate::patterns::no_code_within;
use fuun_base::{List, NoMemory};
use source_items::Line;
use source_tokens::{Statement, Statements, Token};
use std::alloc::Global;

/// What the statements so far come to.
#[derive(Drop)]
pub(crate) struct Reading {
    pub(crate) alloc: Global,
    /// How many pieces are kept at most.
    pub(crate) limit: u64,
    /// What is known of names, by their numbers.
    pub(crate) known: Vec<Known>,
    pub(crate) lines: List<Line>,
    /// How many bytes of the source stand before each line's arrow, or before data.
    pub(crate) places: List<u64>,
}

/// Takes the statements that are left, or tells why one is refused.
pub(crate) fn take_all(
    reading: &mut Reading,
    mut statements: Statements,
) -> Result<Result<(), Refusal>, NoMemory>
    requires { reading.old.limit ≤ 2 ^ 40 }
    ensures value { IfOk result (λ done. (before : State) → IsReading reading.old before → IsTaken reading.new done (taken_all reading.old.limit before statements)) }
    ensures limit { reading.new.limit ≡ reading.old.limit }
{
    'statements: while let Some(statement) = statements.next_statement()? {
        if let Err(refusal) = take_statement(reading, &statement)? {
            return Ok(Err(refusal));
        }
    }
    Ok(Ok(()))
}

// Takes one more statement, or tells why it is refused.
fn take_statement(
    reading: &mut Reading,
    statement: &Statement,
) -> Result<Result<(), Refusal>, NoMemory>
    requires { reading.old.limit ≤ 2 ^ 40 }
    ensures value { IfOk result (λ done. (before : State) → IsReading reading.old before → IsTaken reading.new done (with_statement reading.old.limit before statement.now)) }
    ensures limit { reading.new.limit ≡ reading.old.limit }
{
    let line = reading.lines.len() as u64;
    let tokens = statement.tokens.as_slice();
    match form(
        reading.alloc,
        reading.limit,
        line,
        &mut reading.known,
        tokens,
    )? {
        Ok(found) => {
            let done = take_form(reading, statement, found)?;
            Ok(done)
        }
        Err(left) => Ok(Err(Refusal::BadForm(stop_place(statement, left)))),
    }
}

// Takes a statement by its form. What is known of names was left as it was, but by a definition whose names do not serve.
fn take_form(
    reading: &mut Reading,
    statement: &Statement,
    found: FormFound,
) -> Result<Result<(), Refusal>, NoMemory>
    requires { reading.old.limit ≤ 2 ^ 40 }
    ensures value { IfOk result (λ done. (before : State) (form : ResultOf Form ℕ) → AreKept reading.old.limit reading.old.lines reading.old.places before.lines → (LeavesNames found → AreKnown reading.old.limit reading.old.known.items before.names) → IsForm reading.old.limit before.names (Ok found) form → IsTaken reading.new done (taken_if reading.old.limit before statement.now form)) }
    ensures limit { reading.new.limit ≡ reading.old.limit }
{
    match found {
        FormFound::Pair(pair) => {
            let done = take_pair(reading, pair)?;
            Ok(done)
        }
        FormFound::Define(define) => {
            let done = take_define(reading, define)?;
            Ok(done)
        }
        FormFound::Data(bases) => {
            let done = take_data(reading, statement.tokens.as_slice(), bases)?;
            Ok(done)
        }
        FormFound::Mark(name) => Ok(take_mark(reading, name)),
    }
}

fn take_pair(reading: &mut Reading, pair: Pair) -> Result<Result<(), Refusal>, NoMemory>
    requires { reading.old.limit ≤ 2 ^ 40 }
    ensures value { IfOk result (λ done. (before : State) (tokens : ListOf TokenOf) (x y : Worth) → IsReading reading.old before → IsWorth reading.old.limit pair.pattern x → IsWorth reading.old.limit pair.template y → IsTaken reading.new done (taken reading.old.limit before tokens (PairOf x pair.arrow y))) }
    ensures limit { reading.new.limit ≡ reading.old.limit }
{
    if let Some(refusal) = refusal_of(pair.pattern.faults.and(pair.template.faults)) {
        return Ok(Err(refusal));
    }
    if let Some(at) = no_code_within(reading.limit, pair.arrow, &pair.pattern.held) {
        return Ok(Err(Refusal::NoCode(at)));
    }
    let line = pair_line(
        reading.alloc,
        reading.limit,
        pair.pattern.held,
        pair.template.held,
    )?;
    add_line(reading, line, pair.arrow)?;
    Ok(Ok(()))
}

fn take_define(reading: &mut Reading, define: Define) -> Result<Result<(), Refusal>, NoMemory>
    requires { reading.old.limit ≤ 2 ^ 40 }
    ensures value { IfOk result (λ done. (before : State) (tokens : ListOf TokenOf) (x : Worth) → AreKept reading.old.limit reading.old.lines reading.old.places before.lines → (define.known.name ≡ None → AreKnown reading.old.limit reading.old.known.items before.names) → IsWorth reading.old.limit define.template x → define.known ≡ define_faults before.names define.head.name define.head.parameters → IsTaken reading.new done (taken reading.old.limit before tokens (DefineOf define.head.name define.head.parameters x))) }
    ensures limit { reading.new.limit ≡ reading.old.limit }
{
    if let Some(refusal) = refusal_of(define.known.and(define.template.faults)) {
        return Ok(Err(refusal));
    }
    let count = define.head.parameters.len() as u64;
    if is_too_long(reading.limit, count, define.template.held.count) {
        return Ok(Err(Refusal::TooLong));
    }
    let held = define.template.held;
    set_known(
        &mut reading.known,
        define.head.name.id,
        Known::Definition { count, held },
    )?;
    Ok(Ok(()))
}

fn take_data(
    reading: &mut Reading,
    tokens: &[Token],
    bases: Found,
) -> Result<Result<(), Refusal>, NoMemory>
    requires { reading.old.limit ≤ 2 ^ 40 }
    ensures value { IfOk result (λ done. (before : State) (x : Worth) → IsReading reading.old before → IsWorth reading.old.limit bases x → IsTaken reading.new done (taken reading.old.limit before tokens.now (DataOf x))) }
    ensures limit { reading.new.limit ≡ reading.old.limit }
{
    if let Some(refusal) = refusal_of(bases.faults) {
        return Ok(Err(refusal));
    }
    let line = plain_line(reading.alloc, reading.limit, bases.held)?;
    add_line(reading, line, first_at(tokens))?;
    Ok(Ok(()))
}

fn take_mark(reading: &Reading, name: Spot) -> Result<(), Refusal>
    ensures { (before : State) (tokens : ListOf TokenOf) → IsReading reading.now before → IsTaken reading.now result (taken reading.now.limit before tokens (MarkOf name)) }
{
    match refusal_of(label_faults(reading.known.as_slice(), name)) {
        Some(refusal) => Err(refusal),
        None => Ok(()),
    }
}

// Where the first token stands.
fn first_at(tokens: &[Token]) -> u64
    ensures { result ≡ first_at tokens.now }
{
    match tokens.first() {
        Some(token) => token.at,
        None => 0,
    }
}

// Keeps one more line, and where it stands.
fn add_line(reading: &mut Reading, line: Line, at: u64) -> Result<(), NoMemory>
    ensures value { OnOk result ((before : State) (x : LineOf) → IsReading reading.old before → IsHeldLine reading.old.limit x line → IsReading reading.new (state before.names (before.lines ++ placed x at ∷ []))) }
    ensures limit { reading.new.limit ≡ reading.old.limit }
{
    reading.lines.push(line)?;
    reading.places.push(at)?;
    Ok(())
}
