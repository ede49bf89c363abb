// Runs on loads, and what is told of them.
ghost use Rattle.std.specs.Prelude.{◌≡◌, ℕ, ◌^◌, ◌<◌, ◌≤◌, length, IfOk};
ghost use Rattle.exec_loop.specs.Weights.{TicksForRun};
ghost use Rattle.fuun_base.specs.Tally.{tally_of};
ghost use Rattle.patch_compile.specs.Code.{prefix};
ghost use Rattle.patch_text.specs.Lengths.{AllFit};
ghost use Rattle.workload.specs.Mark.{mark_of};
ghost use Rattle.fuun_top.specs.declared.inputs.Inputs.TheVariants as inputs;
ghost use Rattle.fuun_top.specs.Bench.{attempts_by, load_dna, load_limit};
ghost use Rattle.fuun_top.specs.Output.{IsBenchOutput};
ghost use Rattle.fuun_top.specs.ReadingRoom.{AreInRange};
ghost use Rattle.fuun_top.specs.Steps.{RunTicks, most_height};
ghost use Rattle.fuun_top.specs.WritingRoom.{Sums, Wrote};

use crate::Status;
use crate::inputs::joined;
use crate::output::status_after;
use crate::running::machine_on;
use dna_reader::Discard;
use exec_loop::{Machine, RunEnd, StepError};
use fuun_base::{Base, BaseList, NoMemory, Steps, Tally};
use fuun_io::Sink;
use patch_compile::{CompileError, compile};
use patch_text::PatchFile;
use rope_strand::RopeStrand;
use std::alloc::Global;
use std::sync::ledger::Ledger;
use strand::Strand;
use workload::{Load, Summary, make, mark_behind, put_summary};

/// The most bases that a DNA may have.
const LIMIT: u64 = 1 << 26;

/// How many bases are marked at a time.
const WINDOW: usize = 1 << 12;

/// Makes a run on a load, and writes what is told of it.
pub(crate) fn put_bench<S: Sink, L: Ledger>(
    alloc: Global,
    seed: u64,
    size: u64,
    rounds: u64,
    out: &mut S,
    steps: &mut Steps<L>,
) -> Status
    requires { AreInRange (inputs.Bench seed size rounds) }
    ensures wrote { Wrote (IsBenchOutput seed size rounds) result
        (S.bytes out.old) (S.bytes out.new) (S.faults out.old) (S.faults out.new) }
    ensures ticks { RunTicks (load_dna seed size rounds) rounds load_limit steps.old steps.new }
{
    match run_load(alloc, seed, size, rounds, steps) {
        Ok(summary) => status_after(put_summary(&summary, out), Status::Done),
        Err(NoMemory) => Status::NoMemory,
    }
}

/// Makes a run on a load: an attempt for each of its patches.
fn run_load<L: Ledger>(
    alloc: Global,
    seed: u64,
    size: u64,
    rounds: u64,
    steps: &mut Steps<L>,
) -> Result<Summary, NoMemory>
    requires { AreInRange (inputs.Bench seed size rounds) }
    ensures sums { IfOk result (Sums (load_dna seed size rounds) rounds load_limit) }
    ensures ticks { RunTicks (load_dna seed size rounds) rounds load_limit steps.old steps.new }
{
    let dna = load_dna(alloc, seed, size, rounds)?;
    let mut machine = machine_on(alloc, dna, LIMIT, steps)?;
    summary_of_run(&mut machine, rounds, steps)
}

/// The DNA of a load: the prefix of its patches before its target.
fn load_dna(alloc: Global, seed: u64, size: u64, rounds: u64) -> Result<BaseList, NoMemory>
    requires { AreInRange (inputs.Bench seed size rounds) }
    ensures dna { IfOk result (λ dna. dna ≡ load_dna seed size rounds) }
    ensures within { IfOk result (λ dna. length dna ≤ load_limit) }
{
    let Load { target, patches } = make(alloc, seed, size, rounds)?;
    let prefix = prefix_of(alloc, &patches)?;
    joined(alloc, prefix, target)
}

/// The prefix of patches that fit.
fn prefix_of(alloc: Global, patches: &PatchFile) -> Result<BaseList, NoMemory>
    requires fit { AllFit patches.now.stated patches.now.rows }
    requires short { length (prefix patches.now.rows) ≤ load_limit }
    ensures { IfOk result (λ code. code ≡ prefix patches.now.rows) }
{
    match compile(alloc, patches, LIMIT) {
        Ok(code) => Ok(code),
        Err(CompileError::NoMemory) => Err(NoMemory),
        Err(CompileError::Outside { .. }) => unreachable!(),
        Err(CompileError::TooLong) => unreachable!(),
    }
}

/// Makes a run, and what is told of it.
fn summary_of_run<L: Ledger>(
    machine: &mut Machine<RopeStrand>,
    budget: u64,
    steps: &mut Steps<L>,
) -> Result<Summary, NoMemory>
    requires { budget ≤ 2 ^ 16 }
    ensures sums { IfOk result (Sums machine.old.dna budget machine.old.limit) }
    ensures ticks { TicksForRun (most_height machine.old.limit) budget machine.old steps.old steps.new }
{
    let mut rna = Discard::new();
    match machine.run(budget, &mut rna, steps) {
        Ok(end) => Ok(Summary {
            attempts: attempts_made(end, budget),
            tally: tally_of(machine.dna()),
            rna: rna.count() as u64,
            mark: mark_of(machine.dna()),
        }),
        Err(StepError::NoMemory) => Err(NoMemory),
        Err(StepError::TakerFailed) => unreachable!(),
    }
}

/// How many attempts a run made.
fn attempts_made(end: RunEnd, budget: u64) -> u64
    requires { (attempt : ℕ) → end ≡ RunEnd.TooLong attempt → attempt < budget }
    ensures { result ≡ attempts_by budget end }
{
    match end {
        RunEnd::Finished { attempts } => attempts,
        RunEnd::Budget => budget,
        RunEnd::TooLong { attempt } => attempt + 1,
    }
}

/// How many of each base a DNA has.
fn tally_of<T: Strand>(dna: &T) -> Tally
    ensures { result ≡ tally_of (T.bases dna.now) }
{
    dna.tally(0, dna.len())
}

/// The mark of a DNA.
fn mark_of<T: Strand>(dna: &T) -> u32
    ensures { result ≡ mark_of (T.bases dna.now) }
{
    mark_in_windows::<WINDOW, T>(dna)
}

/// The mark of a DNA, so many bases at a time.
fn mark_in_windows<const COUNT: usize, T: Strand>(dna: &T) -> u32
    requires { (1 ≤ COUNT) × (COUNT ≤ 2 ^ 20) }
    ensures { result ≡ mark_of (T.bases dna.now) }
{
    let mut window = [Base::I; COUNT];
    mark_by_buffer(dna, &mut window)
}

/// The mark of a DNA, as many bases at a time as a buffer holds.
fn mark_by_buffer<T: Strand>(dna: &T, window: &mut [Base]) -> u32
    requires { 1 ≤ length window.old }
    ensures { result ≡ mark_of (T.bases dna.now) }
{
    let len = dna.len();
    let mut mark = 0;
    let mut place = 0;
    while place < len {
        let count = dna.copy_out(place, window);
        mark = mark_behind(mark, &window[..count]);
        place += count as u64;
    }
    mark
}
