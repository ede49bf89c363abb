// Pictures of RNA.
ghost use Rattle.std.specs.Prelude.{◌≡◌, ◌^◌, ◌≤◌, IfOk};
ghost use Rattle.exec_loop.specs.Weights.{TicksForRun};
ghost use Rattle.painter.specs.Picture.{Builds, start};
ghost use Rattle.rna_code.specs.Commands.{act_of};
ghost use Rattle.fuun_top.specs.declared.request.RunVerb.TheVariants as verbs;
ghost use Rattle.fuun_top.specs.declared.status.Status.TheVariants.{Done};
ghost use Rattle.fuun_top.specs.Output.{Drawing, IsBody, IsPictureOf, IsRunOutput};
ghost use Rattle.fuun_top.specs.Steps.{most_height};
ghost use Rattle.fuun_top.specs.WritingRoom.{DrewRun, IsImageOf, Wrote};

use crate::Status;
use crate::output::status_after;
use crate::request::RunVerb;
use crate::running::run_status;
use exec_loop::{Machine, RunEnd, StepError};
use fuun_base::{CommandList, NoMemory, Steps};
use fuun_io::Sink;
use painter::Painter;
use ppm_out::write_ppm;
use rna_code::Profile;
use rope_strand::RopeStrand;
use std::alloc::Global;
use std::sync::ledger::Ledger;

/// Pixels on each side of a picture, and the most bitmaps that it may have.
const PLAIN_SIDE: usize = 600;

const PLAIN_LAYERS: usize = 10;

/// The same in the wide profile.
const WIDE_SIDE: usize = 1024;

const WIDE_LAYERS: usize = 16;

/// Writes the picture that the RNA of a run draws in a profile.
pub(crate) fn put_image<S: Sink, L: Ledger>(
    alloc: Global,
    profile: Profile,
    machine: &mut Machine<RopeStrand>,
    budget: u64,
    out: &mut S,
    steps: &mut Steps<L>,
) -> Status
    requires { budget ≤ 2 ^ 40 }
    ensures wrote { Wrote (IsRunOutput (verbs.Image profile) machine.old.dna budget machine.old.limit) result
        (S.bytes out.old) (S.bytes out.new) (S.faults out.old) (S.faults out.new) }
    ensures ticks { TicksForRun (most_height machine.old.limit) budget machine.old steps.old steps.new }
{
    match profile {
        Profile::Plain => put_image_on::<PLAIN_SIDE, PLAIN_LAYERS, S, L>(
            alloc, profile, machine, budget, out, steps,
        ),
        Profile::Wide => put_image_on::<WIDE_SIDE, WIDE_LAYERS, S, L>(
            alloc, profile, machine, budget, out, steps,
        ),
    }
}

/// Writes the picture of a run on bitmaps of `SIDE` times `SIDE` pixels, at most `MAX` of them.
fn put_image_on<const SIDE: usize, const MAX: usize, S: Sink, L: Ledger>(
    alloc: Global,
    profile: Profile,
    machine: &mut Machine<RopeStrand>,
    budget: u64,
    out: &mut S,
    steps: &mut Steps<L>,
) -> Status
    requires side { (1 ≤ SIDE) × (SIDE ≤ 1024) }
    requires most { (1 ≤ MAX) × (MAX ≤ 16) }
    requires budget { budget ≤ 2 ^ 40 }
    ensures wrote { Wrote (IsImageOf SIDE MAX profile machine.old.dna budget machine.old.limit) result
        (S.bytes out.old) (S.bytes out.new) (S.faults out.old) (S.faults out.new) }
    ensures ticks { TicksForRun (most_height machine.old.limit) budget machine.old steps.old steps.new }
{
    match paint_run::<SIDE, MAX, L>(alloc, profile, machine, budget, steps) {
        Ok((end, painter)) => status_after(
            write_ppm(painter.top(), out),
            run_status(RunVerb::Image(profile), end),
        ),
        Err(NoMemory) => Status::NoMemory,
    }
}

/// Paints each command of a run's RNA as it is read.
fn paint_run<const SIDE: usize, const MAX: usize, L: Ledger>(
    alloc: Global,
    profile: Profile,
    machine: &mut Machine<RopeStrand>,
    budget: u64,
    steps: &mut Steps<L>,
) -> Result<(RunEnd, Painter<SIDE, MAX>), NoMemory>
    requires side { (1 ≤ SIDE) × (SIDE ≤ 1024) }
    requires most { (1 ≤ MAX) × (MAX ≤ 16) }
    requires budget { budget ≤ 2 ^ 40 }
    ensures drew { IfOk result (λ drew. DrewRun SIDE MAX profile machine.old.dna budget machine.old.limit drew.0 drew.1.picture) }
    ensures ticks { TicksForRun (most_height machine.old.limit) budget machine.old steps.old steps.new }
{
    let mut painter = Painter::<SIDE, MAX>::new(alloc, profile)?;
    match machine.run(budget, &mut painter, steps) {
        Ok(end) => Ok((end, painter)),
        Err(StepError::NoMemory) => Err(NoMemory),
        Err(StepError::TakerFailed) => unreachable!(),
    }
}

/// Writes the picture that commands draw in a profile.
pub(crate) fn put_drawing<S: Sink>(
    alloc: Global,
    profile: Profile,
    commands: &CommandList,
    out: &mut S,
) -> Status
    ensures { Wrote (IsBody Done (Drawing profile commands.now)) result
        (S.bytes out.old) (S.bytes out.new) (S.faults out.old) (S.faults out.new) }
{
    match profile {
        Profile::Plain => {
            put_picture::<PLAIN_SIDE, PLAIN_LAYERS, S>(alloc, profile, commands, out)
        }
        Profile::Wide => put_picture::<WIDE_SIDE, WIDE_LAYERS, S>(alloc, profile, commands, out),
    }
}

/// Writes the picture that commands draw on bitmaps of `SIDE` times `SIDE` pixels, at most `MAX` of them.
fn put_picture<const SIDE: usize, const MAX: usize, S: Sink>(
    alloc: Global,
    profile: Profile,
    commands: &CommandList,
    out: &mut S,
) -> Status
    requires side { (1 ≤ SIDE) × (SIDE ≤ 1024) }
    requires most { (1 ≤ MAX) × (MAX ≤ 16) }
    ensures { Wrote (IsPictureOf SIDE MAX profile commands.now Done) result
        (S.bytes out.old) (S.bytes out.new) (S.faults out.old) (S.faults out.new) }
{
    match painted::<SIDE, MAX>(alloc, profile, commands) {
        Ok(painter) => status_after(write_ppm(painter.top(), out), Status::Done),
        Err(NoMemory) => Status::NoMemory,
    }
}

/// Draws the commands.
fn painted<const SIDE: usize, const MAX: usize>(
    alloc: Global,
    profile: Profile,
    commands: &CommandList,
) -> Result<Painter<SIDE, MAX>, NoMemory>
    requires side { (1 ≤ SIDE) × (SIDE ≤ 1024) }
    requires most { (1 ≤ MAX) × (MAX ≤ 16) }
    ensures { IfOk result (λ painter. Builds SIDE MAX (act_of profile) commands.now (start SIDE) painter.picture) }
{
    let mut painter = Painter::<SIDE, MAX>::new(alloc, profile)?;
    for command in commands.as_slice() {
        painter.paint(command);
    }
    Ok(painter)
}
