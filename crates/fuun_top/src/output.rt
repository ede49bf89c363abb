// The writing room: from inputs to an output.
ghost use Rattle.std.specs.Prelude.{◌≡◌};
ghost use Rattle.fuun_top.specs.declared.inputs.Inputs.TheVariants as inputs;
ghost use Rattle.fuun_top.specs.declared.status.Status.TheVariants.{Done};
ghost use Rattle.fuun_top.specs.Output.{IsBody, IsOutputOf, IsRunOutput, plain_body};
ghost use Rattle.fuun_top.specs.ReadingRoom.{AreInRange};
ghost use Rattle.fuun_top.specs.Steps.{InputsTick, RunTicks};
ghost use Rattle.fuun_top.specs.WritingRoom.{Wrote, status_after};

use crate::Status;
use crate::bench::put_bench;
use crate::inputs::{Inputs, Plain};
use crate::listed::put_listing;
use crate::making::{put_explained_prefix, put_text};
use crate::pictures::put_drawing;
use crate::request::{RnaVerb, RunVerb};
use crate::rewound::put_rewound;
use crate::running::{machine_on, put_made};
use crate::traced::put_trace;
use fuun_base::{BaseList, NoMemory, Steps};
use fuun_io::{Sink, WriteFault};
use listing::list_rna;
use std::alloc::Global;
use std::sync::ledger::Ledger;

/// Writes the output of inputs, and answers its status.
pub(crate) fn put_output<S: Sink, L: Ledger>(
    alloc: Global,
    inputs: Inputs,
    out: &mut S,
    steps: &mut Steps<L>,
) -> Status
    requires { AreInRange inputs }
    ensures wrote { Wrote (IsOutputOf inputs) result
        (S.bytes out.old) (S.bytes out.new) (S.faults out.old) (S.faults out.new) }
    ensures ticks { InputsTick inputs steps.old steps.new }
{
    match inputs {
        Inputs::Run {
            verb,
            dna,
            budget,
            limit,
        } => put_run(alloc, verb, dna, budget, limit, out, steps),
        Inputs::Trace { dna, budget, limit } => put_trace(alloc, dna, budget, limit, out, steps),
        Inputs::Plain(plain) => put_plain(alloc, &plain, out),
        Inputs::Listing { dna, count } => put_listing(alloc, dna, count, out, steps),
        Inputs::Explain {
            prefix,
            length,
            attempts,
            limit,
        } => put_explained_prefix(alloc, &prefix, length, attempts, limit, out),
        Inputs::Rewind { dna, orders, limit } => put_rewound(
            alloc, dna, &orders, limit, out, steps,
        ),
        Inputs::Text { verb, text } => put_text(alloc, verb, &text, out),
        Inputs::Bench { seed, size, rounds } => put_bench(alloc, seed, size, rounds, out, steps),
    }
}

/// Makes a run, and writes what its verb makes of it.
fn put_run<S: Sink, L: Ledger>(
    alloc: Global,
    verb: RunVerb,
    dna: BaseList,
    budget: u64,
    limit: u64,
    out: &mut S,
    steps: &mut Steps<L>,
) -> Status
    requires { AreInRange (inputs.Run verb dna budget limit) }
    ensures wrote { Wrote (IsRunOutput verb dna budget limit) result
        (S.bytes out.old) (S.bytes out.new) (S.faults out.old) (S.faults out.new) }
    ensures ticks { RunTicks dna budget limit steps.old steps.new }
{
    match machine_on(alloc, dna, limit, steps) {
        Ok(mut machine) => put_made(alloc, verb, &mut machine, budget, out, steps),
        Err(NoMemory) => Status::NoMemory,
    }
}

/// Writes what is made without a run.
fn put_plain<S: Sink>(alloc: Global, plain: &Plain, out: &mut S) -> Status
    ensures { Wrote (IsBody Done (plain_body plain.now)) result
        (S.bytes out.old) (S.bytes out.new) (S.faults out.old) (S.faults out.new) }
{
    match plain {
        Plain::Rna(RnaVerb::Draw(profile), commands) => put_drawing(alloc, *profile, commands, out),
        Plain::Rna(RnaVerb::Names(profile), commands) => {
            status_after(list_rna(commands, *profile, out), Status::Done)
        }
    }
}

/// The status once a writing came to its end or failed.
pub(crate) fn status_after(written: Result<(), WriteFault>, status: Status) -> Status
    ensures { result ≡ status_after written status }
{
    match written {
        Ok(()) => status,
        Err(WriteFault) => Status::WriteFault,
    }
}
