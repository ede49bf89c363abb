//! Sources, read whole.
ghost use Rattle.std.specs.Prelude.{◌≡◌, ℕ, ◌+◌, ◌^◌, ◌≤◌, if◌then◌else◌, IfOk, OnOk};
ghost use Rattle.std.specs.List.{list_any};
ghost use Rattle.source_text.specs.Keeping.{AreKnown};
ghost use Rattle.source_text.specs.Names.{Names};
ghost use Rattle.source_text.specs.Sources.{is_equals, labels, labels_of, labels_with, lines_of};
ghost use Rattle.source_text.specs.Taking.{IsRead, mark_of};

use crate::commands::first_known;
use crate::judging::Refusal;
use crate::labels::{add_label, has_equals};
use crate::names::Known;
use crate::signs::{Sign, is_sign};
use crate::taking::{Reading, take_all};
use fuun_base::{List, NoMemory};
use source_items::Line;
use source_tokens::{Statements, Token, Word};
use std::alloc::Global;

/// The lines of a source.
#[derive(Drop)]
pub struct Source {
    pub lines: List<Line>,
    /// How many bytes of the source stand before each line's arrow, or before data.
    pub places: List<u64>,
}

/// Reads the lines of a source, or tells why its first statement is refused that is. No more than `limit` pieces, where
/// `limit` is at most 2^40, are kept of a line or of what a name stands for.
pub fn read_source(
    alloc: Global,
    source: &[u8],
    limit: u64,
) -> Result<Result<Source, Refusal>, NoMemory>
    requires { limit ≤ 2 ^ 40 }
    ensures { IfOk result (λ read. IsRead limit read (lines_of limit source.now)) }
{
    let mut known = first_known(alloc, limit)?;
    add_labels(&mut known, Statements::new(alloc, source)?)?;
    let mut reading = Reading {
        alloc,
        limit,
        known,
        lines: List::new(alloc),
        places: List::new(alloc),
    };
    if let Err(refusal) = take_all(&mut reading, Statements::new(alloc, source)?)? {
        return Ok(Err(refusal));
    }
    Ok(Ok(Source {
        lines: reading.lines,
        places: reading.places,
    }))
}

// Makes the labels of all statements known.
fn add_labels(known: &mut Vec<Known>, mut statements: Statements) -> Result<(), NoMemory>
    ensures { OnOk result ((limit : ℕ) (names : Names) → AreKnown limit known.old.items names → AreKnown limit known.new.items (labels_of (labels names 0) statements)) }
{
    let mut lines = 0;
    'statements: while let Some(statement) = statements.next_statement()? {
        lines = add_labels_of(known, lines, statement.tokens.as_slice())?;
    }
    Ok(())
}

// Makes the label known that a statement is, before which so many lines stand, and tells how many stand behind it.
fn add_labels_of(known: &mut Vec<Known>, lines: u64, tokens: &[Token]) -> Result<u64, NoMemory>
    ensures names { IfOk result (λ more. (limit : ℕ) (names : Names) → AreKnown limit known.old.items names → AreKnown limit known.new.items (labels_with (labels names lines) tokens.now).names) }
    ensures lines { IfOk result (λ more. (names : Names) → more ≡ (labels_with (labels names lines) tokens.now).lines) }
{
    match mark_of(tokens) {
        Some(Word::Name(id)) => {
            add_label(known, lines, id)?;
            Ok(lines)
        }
        Some(_) => Ok(lines),
        None => lines_behind(lines, tokens),
    }
}

// The first word of a label, which is two tokens of which the second is `:`.
fn mark_of(tokens: &[Token]) -> Option<Word>
    ensures { result ≡ mark_of tokens.now }
{
    match tokens {
        [first, second] if is_sign(Sign::Colon, second.word) => Some(first.word),
        _ => None,
    }
}

// How many lines stand behind a statement that is no label: it is a line where it is no definition.
fn lines_behind(lines: u64, tokens: &[Token]) -> Result<u64, NoMemory>
    ensures { IfOk result (λ more. more ≡ (if list_any is_equals tokens.now then lines else lines + 1)) }
{
    if has_equals(tokens) {
        return Ok(lines);
    }
    lines.checked_add(1).ok_or(NoMemory)
}
