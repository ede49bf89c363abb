//! The program: words from the command line, files from the disk, output to standard output.
#![tactic(auto)]

ghost use Rattle.std.specs.Prelude.{◌≡◌, ◌⊎◌, ◌<◌};

mod disk;
mod stream;

use disk::DiskFolder;
use fuun_base::Steps;
use fuun_top::{Status, fuun, put_status};
use std::env;
use std::io::{BufWriter, ErrorKind, Write};
use std::marker::Brand;
use std::process::ExitCode;
use std::sync::ledger::{Blank, Ledger};
use stream::StreamSink;

/// Bytes of output that are kept back before they are written.
const OUTPUT_BUFFER: usize = 1 << 16;

/// Bytes of stack that no verb needs all of.
const STACK: usize = 1 << 18;

/// Whether there is memory for the stack.
fn has_stack(rt: &HostRuntime) -> bool {
    Vec::<u8>::with_capacity(rt.alloc(), STACK).is_ok()
}

/// Takes the stack before anything else takes memory. The system gives it page by page as calls come to it, and where it
/// has none left it ends the program by a signal.
#[inline(never)]
fn take_stack(rt: &HostRuntime) {
    let pages = [0; STACK];
    // For a write, even of no bytes, the pages have to be there.
    let _ = rt.stderr().write(&pages[..0]);
}

/// The words after the program's name; the status where they can't be had.
fn words(rt: &HostRuntime) -> Result<Vec<String>, Status> {
    let mut args = match env::args(rt) {
        Ok(args) => args,
        Err(error) if error.kind() == ErrorKind::InvalidData => return Err(Status::Usage),
        Err(_) => return Err(Status::NoMemory),
    };
    let _program = args.next();
    args.collect(rt.alloc()).map_err(|_| Status::NoMemory)
}

/// The status of what the words ask for, written as far as it tells.
fn answer<L: Ledger, W: Write + Drop>(
    rt: &HostRuntime,
    words: &[String],
    blank: Blank,
    out: &mut StreamSink<W>,
) -> Status
    requires name { blank.name ≡ L.name }
    requires parts { blank.parts ≡ L.parts }
    requires some { 0 < L.parts }
{
    let mut steps = Steps::<L>::new(blank);
    let mut folder = DiskFolder::new(rt);
    let status = fuun(rt.alloc(), words, &mut folder, out, &mut steps);
    status
}

fn run_counted<L: Ledger>(rt: &HostRuntime, words: &[String], blank: Blank) -> Status
    requires name { blank.name ≡ L.name }
    requires parts { blank.parts ≡ L.parts }
    requires some { 0 < L.parts }
{
    let Ok(buffer) = BufWriter::with_capacity(rt.alloc(), OUTPUT_BUFFER, rt.stdout()) else {
        return Status::NoMemory;
    };
    let mut out = StreamSink::new(buffer);
    let status = answer::<L, _>(rt, words, blank, &mut out);
    let ended = match status {
        Status::WriteFault => Status::WriteFault,
        _ => flushed(status, &mut out),
    };
    close(ended, out);
    ended
}

/// The status, where what was kept back could be written.
fn flushed<W: Write + Drop>(status: Status, out: &mut StreamSink<W>) -> Status
    ensures { (result ≡ status) ⊎ (result ≡ Status.WriteFault) }
{
    match out.flush() {
        Ok(()) => status,
        Err(_) => Status::WriteFault,
    }
}

/// Gives up the output. After a write fault nothing is written again: the buffer's bytes go unwritten.
fn close<W: Write + Drop>(ended: Status, out: StreamSink<BufWriter<W>>) {
    if ended == Status::WriteFault {
        let (_writer, _unwritten) = out.into_writer().into_parts();
    }
}

fn run(rt: &HostRuntime) -> Status {
    if !has_stack(rt) {
        return Status::NoMemory;
    }
    take_stack(rt);
    match words(rt) {
        Ok(words) => run_counted::<Brand>(rt, &words, Blank::new(1)),
        Err(status) => status,
    }
}

fn main(rt: HostRuntime) -> ExitCode {
    let status = run(&rt);
    let _ = put_status(&status, &mut StreamSink::new(rt.stderr()));
    ExitCode::from(status.number())
}

#[cfg(test)]
mod tests;
