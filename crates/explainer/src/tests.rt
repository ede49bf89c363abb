ghost use Rattle.std.specs.Prelude.{◌≡◌, ◌<◌, ◌≤◌, length};

use crate::open_places::search_along;
use crate::passing::Passing;
use crate::{ExplainError, Explained, explain, put_explained};
use cell_rope::CellRope;
use fuun_base::{Base, BaseList, CommandList, Steps, read_dna};
use fuun_io::MemSink;
use rope_search::KmpTable;
use std::alloc::Global;
use std::marker::Brand;
use std::process::Abort;
use std::sync::ledger::{Blank, Ledger};
use std::test::Fail;
use sym_strand::SegList;

// A patch of four bases at place 2, of which one is cut and two are put.
const PATCH: &str = "IIPIPICPIICIPCPIICIFPPCCIIC";

// A copy of two bases from place 1 to place 2.
const COPY: &str = "IIPIPCPIICIIPIPCPIICIIPIPCPIICIICIFPPIFPCPIFPCPIFPICPIFPICPIIC";

// A C behind a base of the target, and then a search for CF.
const SEARCH: &str = "IIPIPCCICPIICIIPIPCPIICIICIFPPIFPCPFIICIFFFPIICIIC";

const LIMIT: u64 = 1 << 26;

fn explained(
    alloc: Global,
    letters: &str,
    target: u64,
    attempts: u64,
    limit: u64,
) -> Result<Result<Explained, ExplainError>, Fail> {
    let prefix: BaseList = read_dna(alloc, letters.as_bytes())?;
    if limit < 1 || limit > 1 << 40 || attempts > 1 << 40 || target > 1 << 40 {
        return Ok(Err(ExplainError::NoMemory));
    }
    if prefix.len() > 1000 || prefix.len() as u64 + target > limit {
        return Ok(Err(ExplainError::NoMemory));
    }
    Ok(explain(alloc, prefix.as_slice(), target, attempts, limit))
}

fn text_of(alloc: Global, found: &Explained) -> Result<MemSink, Fail> {
    let mut sink = MemSink::with_room(alloc, 4096)?;
    put_explained(found, &mut sink)?;
    Ok(sink)
}

#[test]
fn prefixes_are_explained(rt: HostRuntime) -> Result<(), Fail> {
    let alloc = rt.alloc();
    for (letters, target, attempts, text) in [
        (
            PATCH,
            4,
            1,
            "end budget 1\ntarget 0 2\nknown II\ntarget 3 4\n",
        ),
        (
            PATCH,
            1 << 40 >> 1,
            1,
            "end budget 1\ntarget 0 2\nknown II\ntarget 3 549755813888\n",
        ),
        (
            COPY,
            4,
            1,
            "end budget 1\ntarget 0 2\ntarget 1 3\ntarget 2 4\n",
        ),
        ("CIICIIC", 0, 1, "end budget 1\n"),
        ("CIICIIC", 0, 2, "end finished 2\n"),
        (
            "IIICFPICFP",
            0,
            1,
            "end finished 1\nrna CFPICFP\nknown IIICFPICFP\n",
        ),
        (
            "IFFIIICIICC",
            3,
            0,
            "end budget 0\nknown IFFIIICIICC\ntarget 0 3\n",
        ),
        ("IFFCIICIICFC", 0, 1, "end budget 1\nknown FC\n"),
        (SEARCH, 1, 2, "end budget 2\ntarget 0 1\nknown C\n"),
    ] {
        let found = explained(alloc, letters, target, attempts, 1 << 40)?;
        let found = found.map_err(|_| Fail::from("not explained"))?;
        let sink = text_of(alloc, &found)?;
        assert_eq!(&rt; sink.bytes(), text.as_bytes(), "at {letters}");
    }
    Ok(())
}

#[test]
fn what_depends_is_not_explained(rt: HostRuntime) -> Result<(), Fail> {
    let alloc = rt.alloc();
    for (letters, target, attempts, limit, error) in [
        (PATCH, 4, 2, LIMIT, ExplainError::Depends { attempt: 1 }),
        (SEARCH, 2, 2, LIMIT, ExplainError::Depends { attempt: 1 }),
        ("CIICIIC", 1, 1, LIMIT, ExplainError::Depends { attempt: 0 }),
        (
            "IFFIIICIIC",
            3,
            1,
            LIMIT,
            ExplainError::Depends { attempt: 0 },
        ),
        (
            "IIPIPCPIICIICIFCPPIIC",
            3,
            1,
            24,
            ExplainError::Depends { attempt: 0 },
        ),
        (
            "IIPIPIICCCCPIICIICIFPPIFPPIFPPIIC",
            70,
            1,
            130,
            ExplainError::TooLong { attempt: 0 },
        ),
        (
            "IFFCIICIICFC",
            3,
            1,
            LIMIT,
            ExplainError::Depends { attempt: 0 },
        ),
    ] {
        let found = explained(alloc, letters, target, attempts, limit)?;
        assert_eq!(&rt; found.err(), Some(error), "at {letters}");
    }
    Ok(())
}

#[test]
fn searches_go_over_the_target(rt: HostRuntime) -> Result<(), Fail> {
    searches::<Brand, _>(&rt, rt.alloc(), Blank::new(1))
}

fn searches<L: Ledger, R: Abort>(rt: &R, alloc: Global, blank: Blank) -> Result<(), Fail>
    requires name { blank.name ≡ L.name }
    requires parts { blank.parts ≡ L.parts }
    requires some { 0 < L.parts }
{
    let mut steps = Steps::<L>::new(blank);
    for (front, target, back, needle, end, place) in [
        ("C", 2, "FC", "FF", "depends", 0),
        ("IC", 1, "PF", "CIP", "depends", 0),
        ("FF", 3, "FP", "FFFFFP", "depends", 0),
        ("IC", 1, "PF", "CCF", "fails", 0),
        ("C", 2, "CCCCI", "CCCCF", "fails", 0),
        ("I", 1, "CCFCC", "CCF", "to", 5),
    ] {
        let dna = cells(alloc, front, target, back, &mut steps)?;
        let needle = read_dna(alloc, needle.as_bytes())?;
        if needle.len() == 0 {
            return Ok(());
        }
        let table = KmpTable::new(alloc, needle.as_slice())?;
        let passing = search_along(alloc, &table, &dna, 0, needle.as_slice())?;
        let (found_end, found_place) = told(passing);
        assert_eq!(rt; found_end, end, "at {front} {back}");
        assert_eq!(rt; found_place, place, "at {front} {back}");
    }
    Ok(())
}

#[test]
fn searches_go_over_long_stretches(rt: HostRuntime) -> Result<(), Fail> {
    long_searches::<Brand, _>(&rt, rt.alloc(), Blank::new(1))
}

// 300 I, some places of the target, 300 I and an F, in which so many I and an F are sought.
fn long_searches<L: Ledger, R: Abort>(rt: &R, alloc: Global, blank: Blank) -> Result<(), Fail>
    requires name { blank.name ≡ L.name }
    requires parts { blank.parts ≡ L.parts }
    requires some { 0 < L.parts }
{
    let mut steps = Steps::<L>::new(blank);
    for (target, size, end, place) in [
        (2, 301, "depends", 0),
        (2, 602, "depends", 0),
        (2, 603, "fails", 0),
        (0, 300, "to", 601),
        (0, 601, "fails", 0),
    ] {
        let dna = long_cells(alloc, target, &mut steps)?;
        let mut needle = vec![in alloc; Base::I; size]?;
        needle.push(Base::F)?;
        let table = KmpTable::new(alloc, needle.as_slice())?;
        let passing = search_along(alloc, &table, &dna, 0, needle.as_slice())?;
        let (found_end, found_place) = told(passing);
        assert_eq!(rt; found_end, end, "{size} and one over {target}");
        assert_eq!(rt; found_place, place, "{size} and one over {target}");
    }
    Ok(())
}

fn long_cells<L: Ledger>(
    alloc: Global,
    target: u64,
    steps: &mut Steps<L>,
) -> Result<CellRope, Fail> {
    if target > 1000 {
        return Err(Fail::from("too long"));
    }
    let mut bases = vec![in alloc; Base::I; 300]?;
    let front = CellRope::start(alloc, bases.as_slice(), target, steps)?;
    bases.push(Base::F)?;
    let back = CellRope::start(alloc, bases.as_slice(), 0, steps)?;
    if front.len() + back.len() > 3000 {
        return Err(Fail::from("too long"));
    }
    Ok(CellRope::join(&front, &back, steps)?)
}

fn cells<L: Ledger>(
    alloc: Global,
    front: &str,
    target: u64,
    back: &str,
    steps: &mut Steps<L>,
) -> Result<CellRope, Fail> {
    let front = read_dna(alloc, front.as_bytes())?;
    let back = read_dna(alloc, back.as_bytes())?;
    if front.len() > 1000 || target > 1000 || back.len() > 1000 {
        return Err(Fail::from("too long"));
    }
    let front = CellRope::start(alloc, front.as_slice(), target, steps)?;
    let back = CellRope::start(alloc, back.as_slice(), 0, steps)?;
    if front.len() + back.len() > 3000 {
        return Err(Fail::from("too long"));
    }
    Ok(CellRope::join(&front, &back, steps)?)
}

fn told(passing: Passing) -> (&'static str, u64) {
    match passing {
        Passing::To(place) => ("to", place),
        Passing::Fails => ("fails", 0),
        Passing::Depends => ("depends", 0),
    }
}
