//! The DNA of a picture.
ghost use Rattle.std.specs.Prelude.{◌≡◌, ◌+◌, ◌<◌, ◌≤◌, ◌++◌, [], None, IfOk, OnOk, replicate};
ghost use Rattle.draw_compile.specs.Drawing.{code, codes_of, drawing, filling, ink_command, inks, last_pixel, move, row_commands, run_commands};
ghost use Rattle.draw_compile.specs.Runs.{row_at, runs_of};

use crate::runs::{Rgb, Run, SIDE, needs_filling, run_at};
use canvas::Spot;
use fuun_base::Base::{self, C, F, I, P};
use fuun_base::NoMemory;
use picture_in::Picture;
use std::alloc::Global;

/// How many inks fill the bucket.
const INKS: u32 = 255;

// The commands that are used, beside the colours, as DNA.
const EMPTY_BUCKET: [Base; 10] = [I, I, I, P, I, I, P, I, C, P];

const SET_MARK: [Base; 10] = [I, I, I, P, C, C, I, F, F, P];

const MOVE: [Base; 10] = [I, I, I, P, I, I, I, I, I, P];

const DRAW_LINE: [Base; 10] = [I, I, I, P, F, F, I, C, C, P];

const TURN_CLOCKWISE: [Base; 10] = [I, I, I, P, F, F, F, F, F, P];

const TURN_COUNTERCLOCKWISE: [Base; 10] = [I, I, I, P, C, C, C, C, C, P];

/// The DNA that draws a picture, for which `len` bases are reserved.
pub(crate) fn drawing_of(
    alloc: Global,
    picture: &Picture,
    len: usize,
) -> Result<Vec<Base>, NoMemory>
    ensures { IfOk result (λ bases. bases.items ≡ drawing picture.now) }
{
    let mut out = Vec::with_capacity(alloc, len)?;
    let mut before = None;
    for y in 0..SIDE {
        before = put_row(picture, y, before, &mut out)?;
    }
    Ok(out)
}

// Appends a row behind a run of a pixel, if there is one, and answers the pixel of the row's last run.
fn put_row(
    picture: &Picture,
    y: u32,
    before: Option<Rgb>,
    out: &mut Vec<Base>,
) -> Result<Option<Rgb>, NoMemory>
    requires { y < SIDE }
    ensures added { OnOk result (out.new.items ≡ out.old.items ++ codes_of (row_commands before (runs_of (row_at 600 picture.now y)))) }
    ensures last { IfOk result (λ last. last ≡ last_pixel before (runs_of (row_at 600 picture.now y))) }
{
    let mut last = before;
    let mut x = 0;
    while x < SIDE {
        let run = run_at(picture, Spot { x, y });
        put_run(last, &run, out)?;
        last = Some(run.pixel);
        x += run.len;
    }
    put_turn(out)?;
    Ok(last)
}

// Appends the commands that go from a row to the next.
fn put_turn(out: &mut Vec<Base>) -> Result<(), NoMemory>
    ensures { OnOk result (out.new.items ≡ out.old.items ++ codes_of (row_commands None [])) }
{
    out.extend_from_slice(&TURN_CLOCKWISE)?;
    out.extend_from_slice(&MOVE)?;
    out.extend_from_slice(&TURN_COUNTERCLOCKWISE)?;
    Ok(())
}

// Appends a run behind the run of a pixel, if there is one.
fn put_run(before: Option<Rgb>, run: &Run, out: &mut Vec<Base>) -> Result<(), NoMemory>
    requires { 1 ≤ run.now.len }
    ensures { OnOk result (out.new.items ≡ out.old.items ++ codes_of (run_commands before run.now)) }
{
    put_filling(before, run.pixel, out)?;
    out.extend_from_slice(&SET_MARK)?;
    put_moves(run.len - 1, out)?;
    out.extend_from_slice(&DRAW_LINE)?;
    out.extend_from_slice(&MOVE)?;
    Ok(())
}

// Appends the commands that give the bucket the colour of a pixel.
fn put_filling(before: Option<Rgb>, pixel: Rgb, out: &mut Vec<Base>) -> Result<(), NoMemory>
    ensures { OnOk result (out.new.items ≡ out.old.items ++ codes_of (filling before pixel)) }
{
    if needs_filling(before, pixel) {
        out.extend_from_slice(&EMPTY_BUCKET)?;
        put_inks(pixel, INKS, out)
    } else {
        Ok(())
    }
}

// Appends so many inks of a pixel.
fn put_inks(pixel: Rgb, count: u32, out: &mut Vec<Base>) -> Result<(), NoMemory>
    ensures { OnOk result (out.new.items ≡ out.old.items ++ codes_of (inks pixel count)) }
{
    for k in 0..count {
        out.extend_from_slice(&ink(pixel, k))?;
    }
    Ok(())
}

// Appends so many moves.
fn put_moves(count: u32, out: &mut Vec<Base>) -> Result<(), NoMemory>
    ensures { OnOk result (out.new.items ≡ out.old.items ++ codes_of (replicate count move)) }
{
    for _step in 0..count {
        out.extend_from_slice(&MOVE)?;
    }
    Ok(())
}

// An ink of a pixel as DNA.
fn ink(pixel: Rgb, k: u32) -> [Base; 10]
    ensures { result ≡ code (ink_command pixel k) }
{
    match (
        k < u32::from(pixel.0),
        k < u32::from(pixel.1),
        k < u32::from(pixel.2),
    ) {
        (false, false, false) => [I, I, I, P, I, P, I, I, I, C],
        (true, false, false) => [I, I, I, P, I, P, I, I, I, P],
        (false, true, false) => [I, I, I, P, I, P, I, I, C, C],
        (true, true, false) => [I, I, I, P, I, P, I, I, C, F],
        (false, false, true) => [I, I, I, P, I, P, I, I, C, P],
        (true, false, true) => [I, I, I, P, I, P, I, I, F, C],
        (false, true, true) => [I, I, I, P, I, P, I, I, F, F],
        (true, true, true) => [I, I, I, P, I, P, I, I, P, C],
    }
}
