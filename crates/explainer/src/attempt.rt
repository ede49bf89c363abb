ghost use Rattle.std.specs.Prelude.{◌≡◌, ◌+◌, ◌-◌, ◌≤◌, ◌^◌, drop, length, if◌then◌else◌, IfOk};
ghost use Rattle.dna_items.specs.Balance.{IsBalanced};
ghost use Rattle.sym_strand.specs.Cells.{all_known};
ghost use Rattle.explainer.specs.Making.{Comes, ComesOfItems};

use crate::matching::{CellMatch, match_cells};
use crate::reading::read_front;
use crate::replacing::put;
use cell_rope::CellRope;
use dna_reader::Pair;
use fuun_base::{CommandList, NoMemory, Steps};
use std::alloc::Global;
use std::sync::ledger::Ledger;

/// What comes of an attempt.
#[derive(Drop)]
pub(crate) enum Next {
    /// The next cells.
    Cells(CellRope),
    TooLong,
    Finished,
    Depends,
}

/// Makes an attempt on cells. Its RNA is added to the commands.
pub(crate) fn step<L: Ledger>(
    alloc: Global,
    dna: &CellRope,
    limit: u64,
    rna: &mut CommandList,
    steps: &mut Steps<L>,
) -> Result<Next, NoMemory>
    requires limit { limit ≤ 2 ^ 40 }
    requires within { length dna.now ≤ limit }
    ensures { IfOk result (Comes dna.now limit rna.old rna.new) }
{
    match read_front(alloc, dna, rna, steps)? {
        Some(pair) => rewrite(alloc, dna, limit, &pair, steps),
        None => Ok(run_out(dna)),
    }
}

fn run_out(dna: &CellRope) -> Next
    ensures { result ≡ (if all_known dna.now then Next.Finished else Next.Depends) }
{
    if dna.all_known() {
        Next::Finished
    } else {
        Next::Depends
    }
}

/// Matches the pair on the cells behind it, and makes the next cells.
fn rewrite<L: Ledger>(
    alloc: Global,
    dna: &CellRope,
    limit: u64,
    pair: &Pair,
    steps: &mut Steps<L>,
) -> Result<Next, NoMemory>
    requires place { pair.now.next ≤ length dna.now }
    requires balanced { IsBalanced pair.now.pattern }
    requires limit { limit ≤ 2 ^ 40 }
    requires within { length dna.now ≤ limit }
    ensures { IfOk result (ComesOfItems (drop pair.now.next dna.now) pair.now.pattern pair.now.template limit) }
{
    let rest = dna.sub(pair.next, dna.len(), steps)?;
    match match_cells(alloc, &rest, pair.pattern.as_slice())? {
        CellMatch::Matched { stop, groups } => put(
            alloc,
            &rest,
            pair.template.as_slice(),
            groups.as_slice(),
            stop,
            limit,
            steps,
        ),
        CellMatch::NoMatch => Ok(Next::Cells(rest)),
        CellMatch::Depends => Ok(Next::Depends),
    }
}
