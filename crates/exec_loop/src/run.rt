ghost use Rattle.std.specs.Prelude.{◌≡◌, ◌≢◌, ◌^◌, ◌<◌, ◌≤◌, IfOk, OnErr};
ghost use Rattle.exec_loop.specs.State.{IsLimited};
ghost use Rattle.exec_loop.specs.RunEnds.{run_end};
ghost use Rattle.exec_loop.specs.Made.{MakesRun, BreaksOff, tried, TakesForRun};
ghost use Rattle.exec_loop.specs.Weights.{TicksFor, TicksForRun};
ghost use Rattle.fuun_io.specs.Counts.{Rose};

use crate::{Machine, Outcome, RunEnd, StepError};
use dna_reader::RnaTaker;
use fuun_base::Steps;
use std::sync::ledger::Ledger;
use strand::Strand;

impl<S: Strand> Machine<S> {
    /// Makes attempts until one finishes or is too long, or until as many were made as the budget allows.
    /// After an error the DNA is that before the attempt that failed: the RNA of those before it was taken, and a part of its own.
    /// On every outcome at most as many steps are counted as the attempts weigh together.
    pub fn run<T: RnaTaker, L: Ledger>(
        &mut self,
        budget: u64,
        rna: &mut T,
        steps: &mut Steps<L>,
    ) -> Result<RunEnd, StepError>
        requires budget { budget ≤ 2 ^ 40 }
        requires room { T.taken rna.old ≤ 2 ^ 97 }
        ensures run { IfOk result (λ end. MakesRun T.follows rna.old rna.new self.old self.new budget end) }
        ensures limit { self.new.limit ≡ self.old.limit }
        ensures limited { IsLimited self.new }

        ensures part { OnErr result ((broken : BreaksOff T.follows T.within rna.old rna.new self.old self.new budget)
            × TicksFor (S.height_bound self.old.limit) self.old.dna (tried broken) steps.old steps.new) }
        ensures failed { result ≡ Err StepError.TakerFailed → Rose (T.faults rna.old) (T.faults rna.new) }
        ensures no_fault { result ≢ Err StepError.TakerFailed → T.faults rna.new ≡ T.faults rna.old }
        ensures most { TakesForRun budget self.old (T.taken rna.old) (T.taken rna.new) }
        ensures ticks { TicksForRun (S.height_bound self.old.limit) budget self.old steps.old steps.new }
    {
        let _limit = self.limit();
        for attempt in 0..budget {
            let report = self.step(rna, steps)?;
            if let Some(end) = report.outcome.run_end(attempt) {
                return Ok(end);
            }
        }
        Ok(RunEnd::Budget)
    }
}

impl Outcome {
    /// How a run ends with an attempt that ends so, made after so many others: None where it goes on.
    fn run_end(self, before: u64) -> Option<RunEnd>
        requires { before < 2 ^ 40 }
        ensures { result ≡ run_end self before }
    {
        match self {
            Outcome::Matched(_) | Outcome::NoMatch => None,
            Outcome::TooLong => Some(RunEnd::TooLong { attempt: before }),
            Outcome::Finished => Some(RunEnd::Finished {
                attempts: before + 1,
            }),
        }
    }
}
