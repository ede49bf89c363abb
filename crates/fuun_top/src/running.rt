// Runs, and what is written of them.
ghost use Rattle.std.specs.Prelude.{◌≡◌, ◌^◌, ◌≤◌, length, IfOk};
ghost use Rattle.exec_loop.specs.Weights.{TicksForRun};
ghost use Rattle.fuun_base.specs.Ticks.{Ticks};
ghost use Rattle.fuun_top.specs.declared.request.RunVerb.TheVariants as verbs;
ghost use Rattle.fuun_top.specs.Output.{IsRunOutput, spent_is_done, status_by};
ghost use Rattle.fuun_top.specs.Steps.{most_height, start_steps};
ghost use Rattle.fuun_top.specs.WritingRoom.{Wrote};

use crate::Status;
use crate::letters::put_letters;
use crate::output::status_after;
use crate::pictures::put_image;
use crate::request::RunVerb;
use dna_reader::{Discard, RnaLines};
use exec_loop::{Machine, RunEnd, StepError};
use fuun_base::{BaseList, NoMemory, Steps};
use fuun_io::Sink;
use rope_strand::RopeStrand;
use std::alloc::Global;
use std::sync::ledger::Ledger;
use strand::Strand;

/// The machine on a DNA, whose list is given up.
pub(crate) fn machine_on<L: Ledger>(
    alloc: Global,
    dna: BaseList,
    limit: u64,
    steps: &mut Steps<L>,
) -> Result<Machine<RopeStrand>, NoMemory>
    requires some { 1 ≤ limit }
    requires most { limit ≤ 2 ^ 40 }
    requires within { length dna ≤ limit }
    ensures dna { IfOk result (λ machine. machine.dna ≡ dna) }
    ensures limit { IfOk result (λ machine. machine.limit ≡ limit) }
    ensures ticks { Ticks steps.old steps.new (start_steps (length dna)) }
{
    let strand = RopeStrand::build(alloc, dna.as_slice(), steps)?;
    Ok(Machine::new(alloc, strand, limit))
}

/// Runs a machine, and writes what the verb makes of the run.
pub(crate) fn put_made<S: Sink, L: Ledger>(
    alloc: Global,
    verb: RunVerb,
    machine: &mut Machine<RopeStrand>,
    budget: u64,
    out: &mut S,
    steps: &mut Steps<L>,
) -> Status
    requires { budget ≤ 2 ^ 40 }
    ensures wrote { Wrote (IsRunOutput verb machine.old.dna budget machine.old.limit) result
        (S.bytes out.old) (S.bytes out.new) (S.faults out.old) (S.faults out.new) }
    ensures ticks { TicksForRun (most_height machine.old.limit) budget machine.old steps.old steps.new }
{
    match verb {
        RunVerb::Rna => put_rna(machine, budget, out, steps),
        RunVerb::Image(profile) => put_image(alloc, profile, machine, budget, out, steps),
        RunVerb::Dna => put_dna(machine, budget, out, steps),
    }
}

/// Writes each command of a run's RNA as it is read, one a line.
fn put_rna<S: Sink, L: Ledger>(
    machine: &mut Machine<RopeStrand>,
    budget: u64,
    out: &mut S,
    steps: &mut Steps<L>,
) -> Status
    requires { budget ≤ 2 ^ 40 }
    ensures wrote { Wrote (IsRunOutput verbs.Rna machine.old.dna budget machine.old.limit) result
        (S.bytes out.old) (S.bytes out.new) (S.faults out.old) (S.faults out.new) }
    ensures ticks { TicksForRun (most_height machine.old.limit) budget machine.old steps.old steps.new }
{
    let mut lines = RnaLines::new(out);
    match machine.run(budget, &mut lines, steps) {
        Ok(end) => run_status(RunVerb::Rna, end),
        Err(StepError::TakerFailed) => Status::WriteFault,
        Err(StepError::NoMemory) => Status::NoMemory,
    }
}

/// Writes the DNA where a run ends.
fn put_dna<S: Sink, L: Ledger>(
    machine: &mut Machine<RopeStrand>,
    budget: u64,
    out: &mut S,
    steps: &mut Steps<L>,
) -> Status
    requires { budget ≤ 2 ^ 40 }
    ensures wrote { Wrote (IsRunOutput verbs.Dna machine.old.dna budget machine.old.limit) result
        (S.bytes out.old) (S.bytes out.new) (S.faults out.old) (S.faults out.new) }
    ensures ticks { TicksForRun (most_height machine.old.limit) budget machine.old steps.old steps.new }
{
    let mut rna = Discard::new();
    match machine.run(budget, &mut rna, steps) {
        Ok(end) => status_after(
            put_letters(machine.dna(), out),
            run_status(RunVerb::Dna, end),
        ),
        Err(StepError::NoMemory) => Status::NoMemory,
        Err(StepError::TakerFailed) => unreachable!(),
    }
}

/// How the end of a verb's run is told.
pub(crate) fn run_status(verb: RunVerb, end: RunEnd) -> Status
    ensures { result ≡ status_by (spent_is_done verb) end }
{
    match (verb, end) {
        (_, RunEnd::Finished { .. }) | (RunVerb::Dna, RunEnd::Budget) => Status::Done,
        (RunVerb::Rna | RunVerb::Image(_), RunEnd::Budget) => Status::OutOfBudget,
        (_, RunEnd::TooLong { attempt }) => Status::TooLong { attempt },
    }
}
