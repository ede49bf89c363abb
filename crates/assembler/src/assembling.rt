ghost use Rattle.std.specs.Prelude.{◌≡◌, ◌≢◌, ℕ, ◌^◌, ◌≤◌, Err, List, Ok, [], length, IfErr, IfOk, OnOk};
ghost use Rattle.fuun_base.specs.Lines.{lines};
ghost use Rattle.assembler.specs.Answers.{Pair, AreTexts, ReadsPairs, IsAssembled};
ghost use Rattle.assembler.specs.Laws.{IsReadOfNone};
ghost use Rattle.assembler.specs.Lines.{IsRefusal, IsTaken};

use crate::pairs::read_pair;
use fuun_base::{Base, BaseList, NoMemory, first_line};
use item_codes::{is_readable, put_pair};
use std::alloc::Global;

/// Why a text was not assembled.
#[derive(Clone, Copy, Debug, PartialEq, Eq)]
pub enum AsmError {
    /// The first line that is refused, counted from 1: it is the text of no pair whose numbers are all below 2^63.
    BadText { line: u64 },
    /// The first line that is refused, counted from 1: its pattern has a group that is not closed or not opened, or a search
    /// directly before a base, so no DNA without RNA is read as it.
    Unreadable { line: u64 },
    NoMemory,
}

/// The DNA of a text of at most 2^26 bytes: each line is a pattern, ` -> ` and a template as a listing writes them, and a
/// line feed ends it, which the last line may lack. Nothing else is skipped.
pub fn assemble(alloc: Global, text: &[u8]) -> Result<BaseList, AsmError>
    requires { length text.now ≤ 2 ^ 26 }
    ensures taken { IfOk result (λ code. IsAssembled text.now (Ok code)) }
    ensures refused { IfErr result (λ error. error ≢ AsmError.NoMemory → IsAssembled text.now (Err error)) }
    ensures reads { IfOk result (λ code. (pairs : List Pair) × AreTexts (lines text.now) pairs × ReadsPairs code pairs []) }
    ensures no_dna { (number : ℕ) → result ≡ Err (AsmError.Unreadable number) → IsReadOfNone (lines text.now) number }
{
    let mut bases = Vec::new(alloc);
    let mut rest = text;
    let mut number = 1;
    'lines: while rest.len() > 0 {
        let (line, more) = first_line(rest);
        if let Err(error) = assemble_line(alloc, line, number, &mut bases) {
            return Err(error);
        }
        rest = more;
        number += 1;
    }
    match BaseList::from_vec(alloc, bases) {
        Ok(code) => Ok(code),
        Err(NoMemory) => Err(AsmError::NoMemory),
    }
}

// Appends the code of the line of this number.
fn assemble_line(
    alloc: Global,
    line: &[u8],
    number: u64,
    out: &mut Vec<Base>,
) -> Result<(), AsmError>
    ensures taken { OnOk result (IsTaken line.now out.old.items out.new.items) }
    ensures refused { IfErr result (λ error. IsRefusal line.now number error) }
{
    let pair = match read_pair(alloc, line) {
        Ok(Some(pair)) => pair,
        Ok(None) => return Err(AsmError::BadText { line: number }),
        Err(NoMemory) => return Err(AsmError::NoMemory),
    };
    if !is_readable(&pair.pattern) {
        return Err(AsmError::Unreadable { line: number });
    }
    match put_pair(&pair.pattern, &pair.template, out) {
        Ok(()) => Ok(()),
        Err(NoMemory) => Err(AsmError::NoMemory),
    }
}
