ghost use Rattle.std.specs.Prelude.{◌≡◌, ◌^◌, ◌≤◌, length, IfOk, MatchResult};
ghost use Rattle.exec_loop.specs.State.{State};
ghost use Rattle.exec_loop.specs.Weights.{TicksForAttempt};
ghost use Rattle.rewinder.specs.History.{EndsFor, GoesOn};

use crate::Stop;
use dna_reader::Discard;
use exec_loop::{Machine, Outcome};
use fuun_base::{NoMemory, Steps};
use std::alloc::Global;
use std::sync::ledger::Ledger;
use strand::Strand;

/// Makes an attempt on a DNA: the next DNA, or why there is none.
pub(crate) fn attempt_on<S: Strand, L: Ledger>(
    alloc: Global,
    dna: &S,
    limit: u64,
    steps: &mut Steps<L>,
) -> Result<Result<S, Stop>, NoMemory>
    requires some { 1 ≤ limit }
    requires most { limit ≤ 2 ^ 40 }
    requires within { length (S.bases dna.now) ≤ limit }
    ensures made { IfOk result (λ made. MatchResult made
        (λ next. GoesOn limit (S.bases dna.now) (S.bases next) × (length (S.bases next) ≤ limit))
        (EndsFor limit (S.bases dna.now))) }
    ensures ticks { let state : State = record { dna = S.bases dna.now; limit = limit } in
        TicksForAttempt (S.height_bound limit) state steps.old steps.new }
{
    let mut machine = Machine::new(alloc, dna.share()?, limit);
    // A `Discard` never fails.
    let Ok(report) = machine.step(&mut Discard::new(), steps) else {
        return Err(NoMemory);
    };
    match report.outcome {
        Outcome::Matched(_) | Outcome::NoMatch => Ok(Ok(machine.dna().share()?)),
        Outcome::TooLong => Ok(Err(Stop::TooLong)),
        Outcome::Finished => Ok(Err(Stop::Finish)),
    }
}
