//! The statements of a source.
ghost use Rattle.std.specs.Prelude.{◌≡◌, ◌≤◌, ◌∷◌, ◌++◌, [], None, IfOk, OnErr, MatchOption, length};
ghost use Rattle.std.specs.Option.{option_to_list};
ghost use Rattle.source_tokens.specs.Statements.{statements, statements_from};

use crate::bytes::rest_from;
use crate::names::Names;
use crate::plain::plain_text;
use crate::scan::line_tokens;
use crate::words::Token;
use fuun_base::{List, NoMemory, first_line};
use std::alloc::Global;
use std::marker::Model;

/// A statement of a source.
#[derive(Debug, Drop)]
pub struct Statement {
    /// Its tokens, of which there is one at least.
    pub tokens: List<Token>,
    /// How many bytes of the source stand before the end of its last token.
    pub end: u64,
}

/// The statements of a source that are still to be read.
#[derive(Drop)]
pub struct Statements {
    alloc: Global,
    text: Vec<u8>,
    place: usize,
    names: Names,
}

impl Model for Statements {
    ghost use Rattle.std.specs.Prelude.{List as ListOf, ◌≤◌, length};
    ghost use Rattle.source_tokens.specs.declared.statements.Statement.{Statement as StatementOf};
    ghost use Rattle.source_tokens.specs.Statements.{statements_from};

    ghost Value = { ListOf StatementOf };

    ghost view = { λ left. statements_from left.names left.place left.text.items };

    ghost invariant = { λ left. left.place ≤ length left.text.items };
}

impl Statements {
    /// The statements of a source.
    pub fn new(alloc: Global, source: &[u8]) -> Result<Self, NoMemory>
        ensures { IfOk result (λ left. left ≡ statements source.now) }
    {
        Ok(Statements {
            alloc,
            text: plain_text(alloc, source)?,
            place: 0,
            names: Names::new(alloc)?,
        })
    }

    /// The first of the statements that are left, if there is one. After an error none is left.
    pub fn next_statement(&mut self) -> Result<Option<Statement>, NoMemory>
        ensures next { IfOk result (λ next. MatchOption next ((self.old ≡ []) × (self.new ≡ [])) (λ statement. self.old ≡ statement ∷ self.new)) }
        ensures broken { OnErr result (self.new ≡ []) }
    {
        match next_from(
            self.alloc,
            &mut self.names,
            self.text.as_slice(),
            self.place,
        ) {
            Ok((next, place)) => {
                self.place = place;
                Ok(next)
            }
            Err(NoMemory) => {
                self.place = self.text.len();
                Err(NoMemory)
            }
        }
    }
}

// The first statement of the lines from a place on, and the place of the lines behind it.
fn next_from(
    alloc: Global,
    names: &mut Names,
    text: &[u8],
    start: usize,
) -> Result<(Option<Statement>, usize), NoMemory>
    requires { start ≤ length text.now }
    ensures next { IfOk result (λ read. statements_from names.old start text.now ≡ option_to_list read.0 ++ statements_from names.new read.1 text.now) }
    ensures last { IfOk result (λ read. read.0 ≡ None → read.1 ≡ length text.now) }
    ensures within { IfOk result (λ read. read.1 ≤ length text.now) }
{
    let mut place = start;
    'lines: while place < text.len() {
        let (line, _more) = first_line(rest_from(text, place));
        let (tokens, end) = line_tokens(alloc, names, place, line)?;
        place = text.len().min(place + line.len() + 1);
        if !tokens.is_empty() {
            return Ok((Some(Statement { tokens, end }), place));
        }
    }
    Ok((None, place))
}
