//! Each read and each write fails once: the status is the fault's, and the bytes are a front of the run's.
ghost use Rattle.std.specs.Prelude.{◌≡◌, ◌<◌};

use crate::tests::{REPEATING, ROW, words};
use crate::{Status, fuun};
use fuun_base::Steps;
use fuun_io::{MemFolder, MemSink};
use std::alloc::{AllocError, Global};
use std::marker::Brand;
use std::process::Abort;
use std::sync::ledger::{Blank, Ledger};
use std::test::Fail;

/// What fails.
#[derive(Clone, Copy)]
enum Kind {
    Read,
    Write,
}

/// Words over the file `a` and, where it is asked for, the script `s`, and what they give where nothing fails. A write takes
/// at most `most` bytes.
#[derive(Clone, Copy)]
struct Row<'a> {
    line: &'static str,
    file: &'a [u8],
    most: usize,
    status: Status,
    bytes: &'a [u8],
}

/// Asks for the row's words while the read or write of that number, from 0, fails. Answers how many bytes were written
/// before the fault, and nothing where the run ended without one.
fn front_counted<L: Ledger>(
    rt: &impl Abort,
    alloc: Global,
    blank: Blank,
    row: &Row<'_>,
    kind: Kind,
    call: u64,
) -> Result<Option<usize>, Fail>
    requires name { blank.name ≡ L.name }
    requires parts { blank.parts ≡ L.parts }
    requires some { 0 < L.parts }
{
    let mut steps = Steps::<L>::new(blank);
    let mut folder = MemFolder::new(alloc);
    folder.add("a", row.file)?;
    folder.add("s", SCRIPT)?;
    let mut sink = MemSink::with_room(alloc, row.bytes.len())?;
    sink.set_most(row.most.max(1));
    match kind {
        Kind::Read => folder.fail_at(call)?,
        Kind::Write => sink.fail_at(call)?,
    }
    let words = words(alloc, row.line)?;
    let answer = fuun(alloc, &words, &mut folder, &mut sink, &mut steps);
    let bytes = sink.bytes();
    let front = &row.bytes[..bytes.len().min(row.bytes.len())];
    assert_eq!(rt; bytes, front, "{} {call}", row.line);
    if answer == row.status {
        assert_eq!(rt; bytes.len(), row.bytes.len(), "{} {call}", row.line);
        return Ok(None);
    }
    let fault = match kind {
        Kind::Read => Status::ReadFault,
        Kind::Write => Status::WriteFault,
    };
    assert_eq!(rt; answer, fault, "{} {call}", row.line);
    Ok(Some(bytes.len()))
}

fn front(
    rt: &impl Abort,
    alloc: Global,
    row: &Row<'_>,
    kind: Kind,
    call: u64,
) -> Result<Option<usize>, Fail> {
    front_counted::<Brand>(rt, alloc, Blank::new(1), row, kind, call)
}

/// Lets one call after another fail, until a run ends without a fault. Answers how many calls there were.
fn count_calls(rt: &impl Abort, alloc: Global, row: &Row<'_>, kind: Kind) -> Result<u64, Fail> {
    for call in 0..200 {
        match (front(rt, alloc, row, kind, call)?, kind) {
            (None, _) => return Ok(call),
            (Some(len), Kind::Read) => assert_eq!(rt; len, 0, "{} {call}", row.line),
            (Some(_), Kind::Write) => {}
        }
    }
    Err(Fail::from("a run without a fault"))
}

const TRACE: &[u8] = b"0 30 (!2)P -> PI{0,0} | match 3 | 5\n1 5 finish\n";

const SCRIPT: &[u8] = b"step 5\nwhere\nback 1\nshow 0 4\nstep 1\n";

/// The prefix that puts two bases in the place of one, before any four bases.
const PREFIX: &[u8] = b"IIPIPICPIICIPCPIICIFPPCCIIC";

const EDIT: &[u8] = b"version = 1\nlength = 4\n\n[[patch]]\nat = 2\ncut = 1\nput = \"II\"\n";

#[test]
fn each_read_and_each_write_fails_once(rt: HostRuntime) -> Result<(), Fail> {
    for (reads, line, file, status, bytes) in [
        (2, "trace --dna a", ROW, Status::Done, TRACE),
        (
            2,
            "trace --dna a --budget 1",
            ROW,
            Status::OutOfBudget,
            b"0 30 (!2)P -> PI{0,0} | match 3 | 5\n".as_slice(),
        ),
        (
            2,
            "rna --dna a --budget 3",
            REPEATING,
            Status::OutOfBudget,
            b"PIPIIIC\nPIPIIIC\nPIPIIIC\n".as_slice(),
        ),
        (
            2,
            "dna --dna a --budget 1",
            ROW,
            Status::Done,
            b"PICFC\n".as_slice(),
        ),
        (
            2,
            "names --rna a",
            b"PIPIIIC\nPPP\n\n".as_slice(),
            Status::Done,
            b"PIPIIIC black\nPPP other\n other\n".as_slice(),
        ),
        (
            2,
            "list --dna a --count 2",
            ROW,
            Status::Done,
            b"0 (!2)P -> PI{0,0}\n26 finish\n".as_slice(),
        ),
        (
            2,
            "patch --file a",
            EDIT,
            Status::Done,
            b"IIPIPICPIICIPCPIICIFPPCCIIC\n".as_slice(),
        ),
        (
            2,
            "assemble --text a",
            b"(!2)P -> PI{0,0}".as_slice(),
            Status::Done,
            b"IIPIPICPIICICIICICCIFPPIIC\n".as_slice(),
        ),
        (
            2,
            "explain --prefix a --length 4 --attempts 1",
            PREFIX,
            Status::Done,
            b"end budget 1\ntarget 0 2\nknown II\ntarget 3 4\n".as_slice(),
        ),
        (
            4,
            "rewind --dna a --script s",
            ROW,
            Status::Done,
            b"at 1 5 finish\nat 1 5\nat 0 30\nIIPI\nat 1 5\n".as_slice(),
        ),
        (
            0,
            "bench --seed 0 --size 2 --rounds 1",
            b"".as_slice(),
            Status::Done,
            b"attempts 1\nlength 3\ni 2\nc 0\nf 1\np 0\nrna 0\nmark 995\n".as_slice(),
        ),
    ] {
        let row = Row {
            line,
            file,
            most: 8,
            status,
            bytes,
        };
        let failed = count_calls(&rt, rt.alloc(), &row, Kind::Read)?;
        let writes = count_calls(&rt, rt.alloc(), &row, Kind::Write)?;
        assert_eq!(rt; failed, reads, "{line}");
        assert!(rt; writes as usize >= bytes.len().div_ceil(8), "{line}");
    }
    Ok(())
}

#[test]
fn faults_as_worked(rt: HostRuntime) -> Result<(), Fail> {
    let mut row = Row {
        line: "trace --dna a",
        file: ROW,
        most: 8,
        status: Status::Done,
        bytes: TRACE,
    };
    let third_write = front(&rt, rt.alloc(), &row, Kind::Write, 2)?;
    assert!(rt; third_write.is_some_and(|len| len <= 16));
    let second_read = front(&rt, rt.alloc(), &row, Kind::Read, 1)?;
    assert_eq!(rt; second_read, Some(0));
    row.line = "trace --dna unknown";
    let unknown = front(&rt, rt.alloc(), &row, Kind::Read, 9)?;
    assert_eq!(rt; unknown, Some(0));
    Ok(())
}

/// The file of a picture that has this pixel all over.
fn plain_picture(alloc: Global, pixel: [u8; 3]) -> Result<Vec<u8>, AllocError> {
    let mut bytes = Vec::new(alloc);
    bytes.extend_from_slice(b"P6\n600 600\n255\n")?;
    for _ in 0..360_000 {
        bytes.extend_from_slice(&pixel)?;
    }
    Ok(bytes)
}

/// The DNA of some commands, one of them so often, and some more.
fn put_commands(
    dna: &mut Vec<u8>,
    first: &[&[u8]],
    again: (&[u8], u32),
    last: &[&[u8]],
) -> Result<(), AllocError> {
    for command in first {
        dna.extend_from_slice(command)?;
    }
    for _ in 0..again.1 {
        dna.extend_from_slice(again.0)?;
    }
    for command in last {
        dna.extend_from_slice(command)?;
    }
    Ok(())
}

/// The DNA that draws a black picture, as letters: 255 inks, and then 600 lines of 600 pixels.
fn black_drawing(alloc: Global) -> Result<Vec<u8>, AllocError> {
    let mut dna = Vec::new(alloc);
    put_commands(&mut dna, &[b"IIIPIIPICP"], (b"IIIPIPIIIC", 255), &[])?;
    for _ in 0..600 {
        put_commands(
            &mut dna,
            &[b"IIIPCCIFFP"],
            (b"IIIPIIIIIP", 599),
            &[
                b"IIIPFFICCP",
                b"IIIPIIIIIP",
                b"IIIPFFFFFP",
                b"IIIPIIIIIP",
                b"IIIPCCCCCP",
            ],
        )?;
    }
    dna.push(b'\n')?;
    Ok(dna)
}

/// Lets the first and the second read and write fail, one at a time.
fn fails_early(rt: &impl Abort, alloc: Global, row: &Row<'_>) -> Result<(), Fail> {
    for call in 0..2 {
        let read = front(rt, alloc, row, Kind::Read, call)?;
        assert_eq!(rt; read, Some(0), "{} {call}", row.line);
        let written = front(rt, alloc, row, Kind::Write, call)?;
        assert!(rt; written.is_some(), "{} {call}", row.line);
    }
    Ok(())
}

#[test]
fn a_picture_fails_at_its_first_reads_and_writes(rt: HostRuntime) -> Result<(), Fail> {
    let red = plain_picture(rt.alloc(), [255, 0, 0])?;
    let black = plain_picture(rt.alloc(), [0, 0, 0])?;
    let drawing = black_drawing(rt.alloc())?;
    for (line, file, bytes) in [
        (
            "draw --rna a",
            b"PIPIIIP\nPIIPIIP\n".as_slice(),
            red.as_slice(),
        ),
        (
            "image --dna a --budget 1",
            b"IIIPIPIIIPIIIPIIPIIP".as_slice(),
            red.as_slice(),
        ),
        ("picture --ppm a", black.as_slice(), drawing.as_slice()),
        (
            "image --dna a --budget 1",
            drawing.as_slice(),
            black.as_slice(),
        ),
    ] {
        let row = Row {
            line,
            file,
            most: 65_536,
            status: Status::Done,
            bytes,
        };
        fails_early(&rt, rt.alloc(), &row)?;
    }
    Ok(())
}
