//! What one verb writes, taken as the file of another.
ghost use Rattle.std.specs.Prelude.{◌≡◌, ◌<◌};

use crate::tests::{REPEATING, ROW, words};
use crate::{Status, fuun};
use fuun_base::Steps;
use fuun_io::{MemFolder, MemSink};
use std::alloc::Global;
use std::marker::Brand;
use std::process::Abort;
use std::sync::ledger::{Blank, Ledger};
use std::test::Fail;

/// The most bytes that the words of a test write.
const ROOM: usize = 1 << 22;

/// A file in memory.
#[derive(Drop)]
struct Kept {
    name: &'static str,
    bytes: Vec<u8>,
}

fn ask_counted<L: Ledger>(
    alloc: Global,
    blank: Blank,
    words: &[String],
    folder: &mut MemFolder,
    sink: &mut MemSink,
) -> Status
    requires name { blank.name ≡ L.name }
    requires parts { blank.parts ≡ L.parts }
    requires some { 0 < L.parts }
{
    let mut steps = Steps::<L>::new(blank);
    fuun(alloc, words, folder, sink, &mut steps)
}

fn ask(alloc: Global, words: &[String], folder: &mut MemFolder, sink: &mut MemSink) -> Status {
    ask_counted::<Brand>(alloc, Blank::new(1), words, folder, sink)
}

/// What the words write over the files, with this status.
fn output(
    rt: &impl Abort,
    alloc: Global,
    files: &[Kept],
    line: &str,
    wanted: Status,
) -> Result<Vec<u8>, Fail> {
    let mut folder = MemFolder::new(alloc);
    for file in files {
        folder.add(file.name, &file.bytes)?;
    }
    let mut sink = MemSink::with_room(alloc, ROOM)?;
    let words = words(alloc, line)?;
    let status = ask(alloc, &words, &mut folder, &mut sink);
    assert_eq!(rt; status, wanted, "{line}");
    Ok(Vec::from_slice(alloc, sink.bytes())?)
}

/// Puts a file to the others.
fn put(alloc: Global, files: &mut Vec<Kept>, name: &'static str, bytes: &[u8]) -> Result<(), Fail> {
    let bytes = Vec::from_slice(alloc, bytes)?;
    files.push(Kept { name, bytes })?;
    Ok(())
}

/// Keeps what the words write in a file.
fn keep(
    rt: &impl Abort,
    alloc: Global,
    files: &mut Vec<Kept>,
    line: &str,
    name: &'static str,
) -> Result<(), Fail> {
    let bytes = output(rt, alloc, files.as_slice(), line, Status::Done)?;
    files.push(Kept { name, bytes })?;
    Ok(())
}

#[test]
fn a_run_is_cut_and_goes_on(rt: HostRuntime) -> Result<(), Fail> {
    let alloc = rt.alloc();
    let mut files = Vec::new(alloc);
    put(alloc, &mut files, "a", REPEATING)?;
    keep(&rt, alloc, &mut files, "dna --dna a --budget 2", "b")?;
    let spent = Status::OutOfBudget;
    for verb in ["rna", "dna"] {
        let ended = if verb == "rna" { spent } else { Status::Done };
        let mut parts = Vec::new(alloc);
        if verb == "rna" {
            let first = output(&rt, alloc, &files, "rna --dna a --budget 2", spent)?;
            parts.extend_from_slice(&first)?;
        }
        let line = format!(in alloc; "{verb} --dna b --budget 3")?;
        parts.extend_from_slice(&output(&rt, alloc, &files, line.as_str(), ended)?)?;
        let line = format!(in alloc; "{verb} --dna a --budget 5")?;
        let whole = output(&rt, alloc, &files, line.as_str(), ended)?;
        assert_eq!(rt; parts, whole, "{verb}");
    }
    Ok(())
}

#[test]
fn a_trace_is_counted_on(rt: HostRuntime) -> Result<(), Fail> {
    let alloc = rt.alloc();
    let mut files = Vec::new(alloc);
    put(alloc, &mut files, "a", ROW)?;
    keep(&rt, alloc, &mut files, "dna --dna a --budget 1", "b")?;
    let second = output(&rt, alloc, &files, "trace --dna b", Status::Done)?;
    assert_eq!(rt; second.as_slice(), b"0 5 finish\n".as_slice());
    let whole = output(&rt, alloc, &files, "trace --dna a", Status::Done)?;
    assert!(rt; whole.as_slice().ends_with(b"\n1 5 finish\n"));
    Ok(())
}

#[test]
fn rna_is_drawn_as_the_image(rt: HostRuntime) -> Result<(), Fail> {
    let alloc = rt.alloc();
    let mut files = Vec::new(alloc);
    // Red, a mark, a move, a turn, a move, a line, and the fill of what lies round it.
    put(
        alloc,
        &mut files,
        "a",
        b"IIIPIPIIIPIIIPCCIFFPIIIPIIIIIPIIIPFFFFFPIIIPIIIIIPIIIPFFICCPIIIPIIPIIP",
    )?;
    keep(&rt, alloc, &mut files, "rna --dna a", "r")?;
    let drawn = output(&rt, alloc, &files, "draw --rna r", Status::Done)?;
    let image = output(&rt, alloc, &files, "image --dna a", Status::Done)?;
    assert!(rt; drawn == image);
    Ok(())
}

const PATCH: &[u8] =
    b"version = 2\nlength = 6\n[[patch]]\nmove = 0\ncount = 2\nto = 4\n[[patch]]\nat = 0\ncut = 1\nput = \"PP\"\n";

#[test]
fn a_patch_is_carried_out_and_explained(rt: HostRuntime) -> Result<(), Fail> {
    let alloc = rt.alloc();
    let mut files = Vec::new(alloc);
    put(alloc, &mut files, "f", PATCH)?;
    put(alloc, &mut files, "a", b"ICFPIC")?;
    keep(&rt, alloc, &mut files, "patch --file f", "p")?;
    for (line, status, bytes) in [
        (
            "dna --dna a --prefix p --budget 2",
            Status::Done,
            b"PPPICIC\n".as_slice(),
        ),
        (
            "rna --dna a --prefix p --budget 2",
            Status::OutOfBudget,
            b"".as_slice(),
        ),
        (
            "explain --prefix p --length 6 --attempts 2",
            Status::Done,
            b"end budget 2\nknown PP\ntarget 3 6\ntarget 0 2\n".as_slice(),
        ),
    ] {
        let found = output(&rt, alloc, &files, line, status)?;
        assert_eq!(rt; found.as_slice(), bytes, "{line}");
    }
    Ok(())
}

/// The lines of a listing, each without its place.
fn without_places(alloc: Global, listing: &[u8]) -> Result<Vec<u8>, Fail> {
    let mut text = Vec::new(alloc);
    let mut in_place = true;
    for byte in listing {
        if !in_place {
            text.push(*byte)?;
        }
        in_place = *byte == b'\n' || in_place && *byte != b' ';
    }
    Ok(text)
}

#[test]
fn an_assembled_text_is_listed_and_assembled_again(rt: HostRuntime) -> Result<(), Fail> {
    let alloc = rt.alloc();
    let text = b"(!2)P -> PI{0,0}\n<CF> -> |0|\n";
    let mut files = Vec::new(alloc);
    put(alloc, &mut files, "t", text)?;
    keep(&rt, alloc, &mut files, "assemble --text t", "a")?;
    let whole = output(&rt, alloc, &files, "list --dna a --count 9", Status::Done)?;
    assert_eq!(rt;
        whole.as_slice(),
        b"0 (!2)P -> PI{0,0}\n26 <CF> -> |0|\n41 finish\n".as_slice()
    );
    let pairs = output(&rt, alloc, &files, "list --dna a --count 2", Status::Done)?;
    let again = without_places(alloc, &pairs)?;
    assert_eq!(rt; again.as_slice(), text.as_slice());
    Ok(())
}

#[test]
fn a_picture_is_drawn_again(rt: HostRuntime) -> Result<(), Fail> {
    let alloc = rt.alloc();
    let mut files = Vec::new(alloc);
    // Yellow, a mark, a move, a turn, a move, a line, and blue in what lies round it.
    put(
        alloc,
        &mut files,
        "r",
        b"PIPIICF\nPCCIFFP\nPIIIIIP\nPFFFFFP\nPIIIIIP\nPFFICCP\nPIIIIIP\nPIIPICP\nPIPIICP\nPIIPIIP\n",
    )?;
    keep(&rt, alloc, &mut files, "draw --rna r", "x")?;
    keep(&rt, alloc, &mut files, "picture --ppm x", "a")?;
    let drawn = output(&rt, alloc, &files, "draw --rna r", Status::Done)?;
    let image = output(&rt, alloc, &files, "image --dna a --budget 1", Status::Done)?;
    assert!(rt; drawn == image);
    Ok(())
}

#[test]
fn a_script_agrees_with_the_run(rt: HostRuntime) -> Result<(), Fail> {
    let alloc = rt.alloc();
    let mut files = Vec::new(alloc);
    put(alloc, &mut files, "a", ROW)?;
    put(alloc, &mut files, "s", b"step 1\nshow 0 9\n")?;
    let mut wanted = Vec::new(alloc);
    wanted.extend_from_slice(b"at 1 5\n")?;
    let dna = output(&rt, alloc, &files, "dna --dna a --budget 1", Status::Done)?;
    wanted.extend_from_slice(&dna)?;
    let rewound = output(
        &rt,
        alloc,
        &files,
        "rewind --dna a --script s",
        Status::Done,
    )?;
    assert_eq!(rt; rewound, wanted);
    let traced = output(&rt, alloc, &files, "trace --dna a --budget 2", Status::Done)?;
    assert!(rt; traced.as_slice().ends_with(b"\n1 5 finish\n"));
    Ok(())
}
