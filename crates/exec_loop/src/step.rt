ghost use Rattle.std.specs.Prelude.{◌≡◌, ◌≢◌, ◌+◌, ◌^◌, ◌≤◌, [], length, IfOk, OnErr};
ghost use Rattle.dna_items.specs.Balance.{IsBalanced};
ghost use Rattle.exec_loop.specs.Rewriting.{ComesToState, ItemsTick};
ghost use Rattle.exec_loop.specs.State.{IsLimited};
ghost use Rattle.exec_loop.specs.Made.{MakesAttempt, StandsWithinAttempt};
ghost use Rattle.exec_loop.specs.Weights.{TicksForAttempt};
ghost use Rattle.fuun_io.specs.Counts.{Rose};

use crate::rewriting::{Rewriting, rewrite};
use crate::{Machine, Outcome, Report, StepError};
use dna_items::{PatList, TplList};
use dna_reader::{Pair, ReadingError, RnaTaker, read_pair};
use fuun_base::Steps;
use std::alloc::Global;
use std::sync::ledger::Ledger;
use strand::Strand;

impl<S: Strand> Machine<S> {
    /// Makes one attempt. Its RNA goes to the taker, whatever becomes of the attempt.
    /// After an error the DNA is as before, and another `step` reads that RNA again.
    /// On every outcome at most as many steps are counted as the attempt weighs.
    pub fn step<T: RnaTaker, L: Ledger>(
        &mut self,
        rna: &mut T,
        steps: &mut Steps<L>,
    ) -> Result<Report, StepError>
        requires { T.taken rna.old ≤ 2 ^ 98 }
        ensures attempt { IfOk result (λ report. MakesAttempt T.follows rna.old rna.new self.old self.new report) }
        ensures limit { self.new.limit ≡ self.old.limit }
        ensures limited { IsLimited self.new }

        ensures unchanged { OnErr result (self.new ≡ self.old) }
        ensures part { OnErr result (StandsWithinAttempt T.within rna.old rna.new self.old) }
        ensures failed { result ≡ Err StepError.TakerFailed → Rose (T.faults rna.old) (T.faults rna.new) }
        ensures no_fault { result ≢ Err StepError.TakerFailed → T.faults rna.new ≡ T.faults rna.old }
        ensures most { T.taken rna.new ≤ T.taken rna.old + 2 ^ 41 }
        ensures ticks { TicksForAttempt (S.height_bound self.old.limit) self.old steps.old steps.new }
    {
        let _limit = self.limit();
        match read_pair(self.alloc, &self.dna, 0, rna) {
            Ok(pair) => self.put_next(pair, steps),
            Err(ReadingError::RanOut) => Ok(Report::finished(self.alloc)),
            Err(ReadingError::TakerFailed) => Err(StepError::TakerFailed),
            Err(ReadingError::NoMemory) => Err(StepError::NoMemory),
        }
    }

    /// Puts the DNA that the pair makes of this one in its place, if there is one.
    fn put_next<L: Ledger>(&mut self, pair: Pair, steps: &mut Steps<L>) -> Result<Report, StepError>
        requires place { pair.next ≤ length self.old.dna }
        requires balanced { IsBalanced pair.pattern }
        ensures came { IfOk result (λ report. ComesToState self.old self.new pair.next pair.pattern pair.template report.outcome) }
        ensures pattern { IfOk result (λ report. report.pattern ≡ pair.pattern) }
        ensures template { IfOk result (λ report. report.template ≡ pair.template) }
        ensures limit { self.new.limit ≡ self.old.limit }
        ensures limited { IsLimited self.new }
        ensures unchanged { OnErr result (self.new ≡ self.old) }
        ensures memory { OnErr result (result ≡ Err StepError.NoMemory) }
        ensures ticks { ItemsTick self.old.dna pair.next self.old.limit pair.pattern pair.template (S.height_bound self.old.limit) steps.old steps.new }
    {
        let rewriting = rewrite(self.alloc, &self.dna, self.limit, &pair, steps)?;
        let Pair {
            pattern,
            template,
            ..
        } = pair;
        let Rewriting { outcome, next } = rewriting;
        if let Some(dna) = next {
            self.dna = dna;
        }
        Ok(Report {
            pattern,
            template,
            outcome,
        })
    }
}

impl Report {
    /// The report of an attempt in which a reading ran out.
    fn finished(alloc: Global) -> Report
        ensures pattern { result.pattern ≡ [] }
        ensures template { result.template ≡ [] }
        ensures outcome { result.outcome ≡ Outcome.Finished }
    {
        Report {
            pattern: PatList::new(alloc),
            template: TplList::new(alloc),
            outcome: Outcome::Finished,
        }
    }
}
