//! From lines to DNA.
ghost use Rattle.std.specs.Prelude.{◌≡◌, ◌≢◌, ℕ, ◌^◌, ◌<◌, ◌≤◌, Err, List as ListOf, Ok, length, IfErr, IfOk, MatchResult};
ghost use Rattle.source_items.specs.declared.lines.Line.{Line};
ghost use Rattle.source_items.specs.Held.{AreHeld};
ghost use Rattle.source_code.specs.Answers.{IsAnswer};
ghost use Rattle.source_code.specs.Kept.{AreFound, IsRefusal, Exact};
ghost use Rattle.source_code.specs.Lengths.{dna};

use crate::behind::Behind;
use crate::lengths::own_len;
use crate::putting::put_line;
use fuun_base::{Base, BaseList, NoMemory};
use source_items::Line;
use std::alloc::Global;

/// Why lines have no DNA.
#[derive(Clone, Copy, Debug, PartialEq, Eq)]
pub enum CodeError {
    /// The last line that has a value of 2^63 or more, by its index from 0.
    BadNumber { index: u64 },
    /// All values are below 2^63, and the DNA is longer than the limit.
    TooLong,
    NoMemory,
}

impl From<NoMemory> for CodeError {
    ghost use Rattle.source_code.specs.declared.settling.CodeError.TheVariants.{NoMemory as OutOfMemory};

    ghost from_gives = { λ _ e. e ≡ OutOfMemory };

    fn from(_: NoMemory) -> Self {
        CodeError::NoMemory
    }
}

/// The DNA of lines: their codes, one after the other, of at most `limit` bases in all, where `limit` is at most 2^40. It is the
/// answer for all lines that these are kept for.
pub fn settle(alloc: Global, lines: &[Line], limit: u64) -> Result<BaseList, CodeError>
    requires { limit ≤ 2 ^ 40 }
    ensures taken { (all : ListOf Line) → AreHeld limit all lines.now → IfOk result (λ code. IsAnswer all limit (Ok code)) }
    ensures within { IfOk result (λ code. length code ≤ limit) }
    ensures refused { (all : ListOf Line) → AreHeld limit all lines.now → IfErr result (λ error. error ≢ CodeError.NoMemory → IsAnswer all limit (Err error)) }
    ensures index { (index : ℕ) → result ≡ Err (CodeError.BadNumber index) → index < length lines.now }
{
    let behind = match lengths(alloc, lines) {
        Ok(behind) => behind,
        Err(error) => return Err(error),
    };
    if behind.total() > u128::from(limit) {
        return Err(CodeError::TooLong);
    }
    match codes(alloc, lines, behind) {
        Ok(code) => Ok(code),
        Err(NoMemory) => Err(CodeError::NoMemory),
    }
}

// The lengths of lines, or the last that has a value of 2^63 or more.
fn lengths(alloc: Global, lines: &[Line]) -> Result<Behind, CodeError>
    ensures { MatchResult result (λ behind. AreFound lines.now behind) (λ error. IsRefusal lines.now error) }
{
    let mut behind = Behind::new(alloc);
    let mut left = lines.len();
    'lines: while left > 0 {
        left -= 1;
        let Some(own) = own_len(&behind, &lines[left]) else {
            return Err(CodeError::BadNumber { index: left as u64 });
        };
        behind.push(own)?;
    }
    Ok(behind)
}

// The codes of lines of these lengths.
fn codes(alloc: Global, lines: &[Line], mut behind: Behind) -> Result<BaseList, NoMemory>
    requires { Exact lines.now behind }
    ensures { IfOk result (λ code. code ≡ dna lines.now behind) }
{
    let mut bases = Vec::new(alloc);
    'lines: for line in lines {
        if let Some(own) = behind.pop() {
            put_line(own, &behind, line, &mut bases)?;
        }
    }
    BaseList::from_vec(alloc, bases)
}
