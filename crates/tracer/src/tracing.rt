ghost use Rattle.std.specs.Prelude.{◌≡◌, ◌≢◌, ◌≤◌, ◌<◌, ◌^◌};
ghost use Rattle.fuun_io.specs.Counts.{Rose};
ghost use Rattle.exec_loop.specs.RunEnds.{run_end};
ghost use Rattle.exec_loop.specs.State.{IsLimited};
ghost use Rattle.exec_loop.specs.Weights.{TicksForRun};
ghost use Rattle.tracer.specs.Traced.{IsTraced};

use crate::lines::put_line;
use dna_reader::Discard;
use exec_loop::{Machine, Outcome, RunEnd};
use fuun_base::Steps;
use fuun_io::Sink;
use listing::ListError;
use std::sync::ledger::Ledger;
use strand::Strand;

/// Runs as `Machine::run` does, for at most `budget` attempts, and writes the line of each attempt behind it.
/// Its RNA is passed over. After a fault of the sink the machine is as the attempt left it whose line was not
/// written whole, after want of memory as before the attempt that got none.
pub fn trace<T: Strand, S: Sink, L: Ledger>(
    machine: &mut Machine<T>,
    budget: u64,
    sink: &mut S,
    steps: &mut Steps<L>,
) -> Result<RunEnd, ListError>
    requires { budget ≤ 2 ^ 40 }
    ensures traced { IsTraced machine.old machine.new budget result (S.bytes sink.old) (S.bytes sink.new) }
    ensures limit { machine.new.limit ≡ machine.old.limit }
    ensures limited { IsLimited machine.new }
    ensures fault { result ≡ Err ListError.WriteFault → Rose (S.faults sink.old) (S.faults sink.new) }
    ensures no_fault { result ≢ Err ListError.WriteFault → S.faults sink.new ≡ S.faults sink.old }
    ensures ticks { TicksForRun (T.height_bound machine.old.limit) budget machine.old steps.old steps.new }
{
    let _limit = machine.limit();
    for attempt in 0..budget {
        let len = machine.dna().len();
        // A `Discard` never fails.
        let Ok(report) = machine.step(&mut Discard::new(), steps) else {
            return Err(ListError::NoMemory);
        };
        put_line(attempt, len, &report, machine.dna().len(), sink)?;
        if let Some(end) = end_by(report.outcome, attempt) {
            return Ok(end);
        }
    }
    Ok(RunEnd::Budget)
}

/// How a run ends with an attempt that ends so, made after so many others: None where it goes on.
fn end_by(outcome: Outcome, before: u64) -> Option<RunEnd>
    requires { before < 2 ^ 40 }
    ensures { result ≡ run_end outcome before }
{
    match outcome {
        Outcome::Matched(_) | Outcome::NoMatch => None,
        Outcome::TooLong => Some(RunEnd::TooLong { attempt: before }),
        Outcome::Finished => Some(RunEnd::Finished {
            attempts: before + 1,
        }),
    }
}
