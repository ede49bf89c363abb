// The attempts of a run, written as they are made.
ghost use Rattle.std.specs.Prelude.{◌≡◌};
ghost use Rattle.fuun_top.specs.declared.inputs.Inputs.TheVariants as inputs;
ghost use Rattle.fuun_top.specs.Output.{IsTraceOutput};
ghost use Rattle.fuun_top.specs.ReadingRoom.{AreInRange};
ghost use Rattle.fuun_top.specs.Steps.{RunTicks};
ghost use Rattle.fuun_top.specs.WritingRoom.{Wrote, status_traced};

use crate::Status;
use crate::running::machine_on;
use exec_loop::RunEnd;
use fuun_base::{BaseList, NoMemory, Steps};
use fuun_io::Sink;
use listing::ListError;
use std::alloc::Global;
use std::sync::ledger::Ledger;
use tracer::trace;

/// Makes a run and writes a line behind each attempt, and answers how the run ended. Without memory in the middle a
/// front of the lines is written.
pub(crate) fn put_trace<S: Sink, L: Ledger>(
    alloc: Global,
    dna: BaseList,
    budget: u64,
    limit: u64,
    out: &mut S,
    steps: &mut Steps<L>,
) -> Status
    requires { AreInRange (inputs.Trace dna budget limit) }
    ensures wrote { Wrote (IsTraceOutput dna budget limit) result
        (S.bytes out.old) (S.bytes out.new) (S.faults out.old) (S.faults out.new) }
    ensures ticks { RunTicks dna budget limit steps.old steps.new }
{
    match machine_on(alloc, dna, limit, steps) {
        Ok(mut machine) => trace_status(trace(&mut machine, budget, out, steps)),
        Err(NoMemory) => Status::NoMemory,
    }
}

/// The status that a traced run leaves.
fn trace_status(traced: Result<RunEnd, ListError>) -> Status
    ensures { result ≡ status_traced traced }
{
    match traced {
        Ok(RunEnd::Finished { .. }) => Status::Done,
        Ok(RunEnd::Budget) => Status::OutOfBudget,
        Ok(RunEnd::TooLong { attempt }) => Status::TooLong { attempt },
        Err(ListError::WriteFault) => Status::WriteFault,
        Err(ListError::NoMemory) => Status::NoMemory,
    }
}
