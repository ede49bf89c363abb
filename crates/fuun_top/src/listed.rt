// The listing of a DNA file.
ghost use Rattle.std.specs.Prelude.{◌≡◌, ◌≤◌, length, IfOk};
ghost use Rattle.fuun_base.specs.Ticks.{Ticks};
ghost use Rattle.fuun_top.specs.Output.{IsListingOutput};
ghost use Rattle.fuun_top.specs.Reading.{most_bytes};
ghost use Rattle.fuun_top.specs.Steps.{start_steps};
ghost use Rattle.fuun_top.specs.WritingRoom.{Wrote, status_listed};

use crate::Status;
use fuun_base::{BaseList, NoMemory, Steps};
use fuun_io::Sink;
use listing::{ListError, list_pairs};
use rope_strand::RopeStrand;
use std::alloc::Global;
use std::sync::ledger::Ledger;
use strand::Strand;

/// Writes the listing of up to `count` pairs of a DNA, and answers its status. Without memory in the middle a front
/// of it is written.
pub(crate) fn put_listing<S: Sink, L: Ledger>(
    alloc: Global,
    dna: BaseList,
    count: u64,
    out: &mut S,
    steps: &mut Steps<L>,
) -> Status
    requires { length dna ≤ most_bytes }
    ensures wrote { Wrote (IsListingOutput dna count) result
        (S.bytes out.old) (S.bytes out.new) (S.faults out.old) (S.faults out.new) }
    ensures ticks { Ticks steps.old steps.new (start_steps (length dna)) }
{
    match strand_of(alloc, dna, steps) {
        Ok(strand) => listing_status(list_pairs(alloc, &strand, count, out)),
        Err(NoMemory) => Status::NoMemory,
    }
}

/// The bases of a list, which is given up.
fn strand_of<L: Ledger>(
    alloc: Global,
    dna: BaseList,
    steps: &mut Steps<L>,
) -> Result<RopeStrand, NoMemory>
    requires { length dna ≤ most_bytes }
    ensures bases { IfOk result (λ strand. strand.bases ≡ dna) }
    ensures ticks { Ticks steps.old steps.new (start_steps (length dna)) }
{
    RopeStrand::build(alloc, dna.as_slice(), steps)
}

/// The status that a listing leaves.
fn listing_status(listed: Result<(), ListError>) -> Status
    ensures { result ≡ status_listed listed }
{
    match listed {
        Ok(()) => Status::Done,
        Err(ListError::WriteFault) => Status::WriteFault,
        Err(ListError::NoMemory) => Status::NoMemory,
    }
}
