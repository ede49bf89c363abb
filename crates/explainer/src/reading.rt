ghost use Rattle.std.specs.Prelude.{◌≤◌, length, IfOk, MatchOption};
ghost use Rattle.dna_items.specs.Balance.{IsBalanced};
ghost use Rattle.dna_reader.specs.Pairs.{PairIsRead, PairRanOut};
ghost use Rattle.dna_reader.specs.Takers.{Appended};
ghost use Rattle.sym_strand.specs.Cells.{known_front};

use cell_rope::CellRope;
use dna_reader::{Pair, ReadingError, read_pair};
use fuun_base::{CommandList, NoMemory, Steps};
use std::alloc::Global;
use std::sync::ledger::Ledger;
use strand::Strand;

/// Reads a pattern and then a template from the bases before the first place of the target: None where one runs out.
/// Their RNA is added to the commands.
pub(crate) fn read_front<L: Ledger>(
    alloc: Global,
    dna: &CellRope,
    rna: &mut CommandList,
    steps: &mut Steps<L>,
) -> Result<Option<Pair>, NoMemory>
    ensures read { IfOk result (λ read. MatchOption read
        (PairRanOut Appended rna.old rna.new (known_front dna.now) 0)
        (λ pair. PairIsRead Appended rna.old rna.new (known_front dna.now) 0 pair.pattern pair.template pair.next)) }
    ensures balanced { IfOk result (λ read. MatchOption read (Unit {0}) (λ pair. IsBalanced pair.pattern)) }
    ensures within { IfOk result (λ read. MatchOption read (Unit {0}) (λ pair. pair.next ≤ length (known_front dna.now))) }
    ensures few { IfOk result (λ read. MatchOption read (Unit {0}) (λ pair. length pair.pattern ≤ length (known_front dna.now))) }
{
    let _len = dna.len();
    let _taken = rna.len();
    let front = dna.known_front(steps)?;
    match read_pair(alloc, &front, 0, rna) {
        Ok(pair) => Ok(Some(pair)),
        Err(ReadingError::RanOut) => Ok(None),
        Err(ReadingError::TakerFailed) => Err(NoMemory),
        Err(ReadingError::NoMemory) => Err(NoMemory),
    }
}
