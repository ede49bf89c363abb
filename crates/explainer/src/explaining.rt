ghost use Rattle.std.specs.Prelude.{◌≡◌, ℕ, ◌+◌, ◌<◌, ◌≤◌, ◌^◌, length, IfOk};
ghost use Rattle.sym_strand.specs.Segments.{StandFor};
ghost use Rattle.explainer.specs.Run as run;
ghost use Rattle.explainer.specs.Run.{Explains, EndsSo};

use crate::attempt::{Next, step};
use crate::{ExplainError, Explained};
use cell_rope::CellRope;
use fuun_base::{Base, CommandList, NoMemory, Steps};
use std::alloc::Global;
use std::marker::Brand;
use std::sync::ledger::{Blank, Ledger};

/// Says what a prefix does to every DNA of so many bases, of which nothing else is known: how the machine ends, after how
/// many attempts, with which RNA, and what its last DNA is. It is not told where an attempt depends on the target by the
/// rule of docs/MACHINE.md, "Explaining", which may be so though all targets go alike. Nodes are made on a counter of its own.
/// `attempts` is the budget of attempts, and `limit` the greatest length in bases that a DNA may have.
pub fn explain(
    alloc: Global,
    prefix: &[Base],
    target: u64,
    attempts: u64,
    limit: u64,
) -> Result<Explained, ExplainError>
    requires some { 1 ≤ limit }
    requires limit { limit ≤ 2 ^ 40 }
    requires budget { attempts ≤ 2 ^ 40 }
    requires within { length prefix.now + target ≤ limit }
    ensures explained { IfOk result (Explains prefix.now target attempts limit) }
    ensures depends { (attempt : ℕ) → result ≡ Err (ExplainError.Depends attempt) → EndsSo prefix.now target attempts limit (run.Depends attempt) }
    ensures too_long { (attempt : ℕ) → result ≡ Err (ExplainError.TooLong attempt) → EndsSo prefix.now target attempts limit (run.TooLong attempt) }
{
    explain_counted::<Brand>(alloc, prefix, target, attempts, limit, Blank::new(1))
}

fn explain_counted<L: Ledger>(
    alloc: Global,
    prefix: &[Base],
    target: u64,
    attempts: u64,
    limit: u64,
    blank: Blank,
) -> Result<Explained, ExplainError>
    requires name { blank.name ≡ L.name }
    requires parts { blank.parts ≡ L.parts }
    requires some { 0 < L.parts }
    requires limit { limit ≤ 2 ^ 40 }
    requires budget { attempts ≤ 2 ^ 40 }
    requires within { length prefix.now + target ≤ limit }
    ensures explained { IfOk result (Explains prefix.now target attempts limit) }
    ensures depends { (attempt : ℕ) → result ≡ Err (ExplainError.Depends attempt) → EndsSo prefix.now target attempts limit (run.Depends attempt) }
    ensures too_long { (attempt : ℕ) → result ≡ Err (ExplainError.TooLong attempt) → EndsSo prefix.now target attempts limit (run.TooLong attempt) }
{
    let mut steps = Steps::<L>::new(blank);
    let mut dna = CellRope::start(alloc, prefix, target, &mut steps)?;
    let mut rna = CommandList::new(alloc);
    for attempt in 0..attempts {
        match step(alloc, &dna, limit, &mut rna, &mut steps)? {
            Next::Cells(next) => dna = next,
            Next::TooLong => return Err(ExplainError::TooLong { attempt }),
            Next::Finished => return Ok(explained(true, attempt + 1, rna, &dna)?),
            Next::Depends => return Err(ExplainError::Depends { attempt }),
        }
    }
    Ok(explained(false, attempts, rna, &dna)?)
}

fn explained(
    finished: bool,
    attempts: u64,
    rna: CommandList,
    dna: &CellRope,
) -> Result<Explained, NoMemory>
    ensures finished { IfOk result (λ found. found.finished ≡ finished) }
    ensures attempts { IfOk result (λ found. found.attempts ≡ attempts) }
    ensures rna { IfOk result (λ found. found.rna ≡ rna) }
    ensures segs { IfOk result (λ found. StandFor found.segs dna.now) }
{
    Ok(Explained {
        finished,
        attempts,
        rna,
        segs: dna.segs()?,
    })
}
