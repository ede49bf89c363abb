// Runs that a script goes through, forward and back.
ghost use Rattle.std.specs.Prelude.{◌≡◌, ◌^◌, ◌≤◌, length, IfOk};
ghost use Rattle.fuun_base.specs.Ticks.{Ticks};
ghost use Rattle.fuun_top.specs.declared.inputs.Inputs.TheVariants as inputs;
ghost use Rattle.fuun_top.specs.Output.{IsRewindOutput};
ghost use Rattle.fuun_top.specs.ReadingRoom.{AreInRange};
ghost use Rattle.fuun_top.specs.Steps.{RewindTicks, start_steps};
ghost use Rattle.fuun_top.specs.WritingRoom.{Wrote, status_rewound};

use crate::Status;
use fuun_base::{BaseList, NoMemory, Steps};
use fuun_io::Sink;
use rewinder::{OrderList, RewindError, Rewinder};
use rope_strand::RopeStrand;
use std::alloc::Global;
use std::sync::ledger::Ledger;
use strand::Strand;

/// Obeys the orders of a script one after the other, and writes what each tells as it is known. Without memory in the
/// middle a front of it is written.
pub(crate) fn put_rewound<S: Sink, L: Ledger>(
    alloc: Global,
    dna: BaseList,
    orders: &OrderList,
    limit: u64,
    out: &mut S,
    steps: &mut Steps<L>,
) -> Status
    requires { AreInRange (inputs.Rewind dna orders.now limit) }
    ensures wrote { Wrote (IsRewindOutput dna orders.now limit) result
        (S.bytes out.old) (S.bytes out.new) (S.faults out.old) (S.faults out.new) }
    ensures ticks { RewindTicks dna orders.now limit steps.old steps.new }
{
    match rewinder_on(alloc, dna, limit, steps) {
        Ok(mut rewinder) => rewind_status(rewinder.obey_all(orders, out, steps)),
        Err(NoMemory) => Status::NoMemory,
    }
}

/// A rewinder on the bases of a list, which is given up.
fn rewinder_on<L: Ledger>(
    alloc: Global,
    dna: BaseList,
    limit: u64,
    steps: &mut Steps<L>,
) -> Result<Rewinder, NoMemory>
    requires some { 1 ≤ limit }
    requires most { limit ≤ 2 ^ 40 }
    requires within { length dna ≤ limit }
    ensures made { IfOk result (λ made. made ≡ record { start = dna; limit = limit; attempt = 0; dna = dna; reached = 0 }) }
    ensures ticks { Ticks steps.old steps.new (start_steps (length dna)) }
{
    let strand = RopeStrand::build(alloc, dna.as_slice(), steps)?;
    Rewinder::new(alloc, strand, limit)
}

/// The status that the orders of a script leave.
fn rewind_status(obeyed: Result<(), RewindError>) -> Status
    ensures { result ≡ status_rewound obeyed }
{
    match obeyed {
        Ok(()) => Status::Done,
        Err(RewindError::WriteFault) => Status::WriteFault,
        Err(RewindError::NoMemory) => Status::NoMemory,
    }
}
