ghost use Rattle.std.specs.Prelude.{◌≡◌, ◌<◌};

use crate::trace;
use exec_loop::{Machine, RunEnd};
use fuun_base::{Steps, read_dna};
use fuun_io::MemSink;
use listing::ListError;
use std::alloc::Global;
use std::marker::Brand;
use std::process::Abort;
use std::sync::ledger::{Blank, Ledger};
use std::test::Fail;
use strand::{FlatStrand, Strand};

const LIMIT: u64 = 1 << 26;

const FIRST: &[u8] = b"IIPIPICPIICICIIFICCIFPPIICCFPC";

const FIRST_LINES: &[u8] = b"0 30 (!2)P -> PI{0,0} | match 3 | 5\n1 5 finish\n";

#[test]
fn traces_as_worked(rt: HostRuntime) -> Result<(), Fail> {
    trace_rows::<Brand>(&rt, rt.alloc(), Blank::new(1))?;
    trace_great_numbers::<Brand>(&rt, rt.alloc(), Blank::new(1))?;
    keep_the_limit::<Brand>(&rt, rt.alloc(), Blank::new(1))?;
    fail_in_a_line::<Brand>(&rt, rt.alloc(), Blank::new(1))
}

fn trace_rows<L: Ledger>(rt: &impl Abort, alloc: Global, blank: Blank) -> Result<(), Fail>
    requires name { blank.name ≡ L.name }
    requires parts { blank.parts ≡ L.parts }
    requires some { 0 < L.parts }
{
    let mut steps = Steps::<L>::new(blank);
    let finished = |attempts| RunEnd::Finished { attempts };
    for (letters, budget, end, lines) in [
        (FIRST, 0, RunEnd::Budget, b"".as_slice()),
        (
            FIRST,
            1,
            RunEnd::Budget,
            b"0 30 (!2)P -> PI{0,0} | match 3 | 5\n",
        ),
        (FIRST, 2, finished(2), FIRST_LINES),
        (
            b"IFFFPIICCIICPCFCF",
            2,
            finished(2),
            b"0 17 <CF> -> I | match 3 | 3\n1 3 finish\n",
        ),
        (
            b"IIPIPICPIICIICIIPPIICCF",
            2,
            finished(2),
            b"0 23 (!2) -> |0| | match 2 | 3\n1 3 finish\n",
        ),
        (
            b"CIICIICCF",
            2,
            finished(2),
            b"0 9 I ->  | no match | 2\n1 2 finish\n",
        ),
        (b"IPCC", 1, finished(1), b"0 4 finish\n"),
        (b"IF", 1, finished(1), b"0 2 finish\n"),
        (b"II", 1, finished(1), b"0 2 finish\n"),
    ] {
        let mut machine = machine_on(alloc, letters, LIMIT, &mut steps)?;
        expect(rt, alloc, &mut machine, budget, end, lines, &mut steps)?;
    }
    Ok(())
}

fn trace_great_numbers<L: Ledger>(rt: &impl Abort, alloc: Global, blank: Blank) -> Result<(), Fail>
    requires name { blank.name ≡ L.name }
    requires parts { blank.parts ≡ L.parts }
    requires some { 0 < L.parts }
{
    let mut steps = Steps::<L>::new(blank);
    let finished = RunEnd::Finished { attempts: 2 };
    for (front, back, end, lines) in [
        (
            b"IP".as_slice(),
            b"IICIICCF".as_slice(),
            finished,
            b"0 210 !big ->  | no match | 2\n1 2 finish\n".as_slice(),
        ),
        (
            b"IICIFP",
            b"IICCF",
            finished,
            b"0 211  -> {big,0} | match 0 | 2\n1 2 finish\n",
        ),
        (
            b"IIPIICIICIF",
            b"PIICCF",
            finished,
            b"0 217 () -> {0,big} | match 0 | 2\n1 2 finish\n",
        ),
        (
            b"IIPIPCPIICIICIF",
            b"PIICCF",
            RunEnd::TooLong { attempt: 0 },
            b"0 221 (!1) -> {0,big} | too long\n",
        ),
    ] {
        let letters = around_great_number(alloc, front, back)?;
        let mut machine = machine_on(alloc, letters.as_slice(), LIMIT, &mut steps)?;
        expect(rt, alloc, &mut machine, 2, end, lines, &mut steps)?;
    }
    Ok(())
}

fn keep_the_limit<L: Ledger>(rt: &impl Abort, alloc: Global, blank: Blank) -> Result<(), Fail>
    requires name { blank.name ≡ L.name }
    requires parts { blank.parts ≡ L.parts }
    requires some { 0 < L.parts }
{
    let mut steps = Steps::<L>::new(blank);
    let letters = b"IIPIPIIICPIICIICIFPPIFPPIFPPIFPPIFPPIFPPIFPPIICCCCCCCCC";
    for (limit, end, lines) in [
        (
            56,
            RunEnd::Finished { attempts: 2 },
            b"0 55 (!8) -> {0,0}{0,0}{0,0}{0,0}{0,0}{0,0}{0,0} | match 8 | 56\n1 56 finish\n".as_slice(),
        ),
        (
            55,
            RunEnd::TooLong { attempt: 0 },
            b"0 55 (!8) -> {0,0}{0,0}{0,0}{0,0}{0,0}{0,0}{0,0} | too long\n",
        ),
    ] {
        let mut machine = machine_on(alloc, letters, limit, &mut steps)?;
        expect(rt, alloc, &mut machine, 2, end, lines, &mut steps)?;
    }
    Ok(())
}

// A write fails within the first line: the first attempt was made.
fn fail_in_a_line<L: Ledger>(rt: &impl Abort, alloc: Global, blank: Blank) -> Result<(), Fail>
    requires name { blank.name ≡ L.name }
    requires parts { blank.parts ≡ L.parts }
    requires some { 0 < L.parts }
{
    let mut steps = Steps::<L>::new(blank);
    let mut machine = machine_on(alloc, FIRST, LIMIT, &mut steps)?;
    let mut sink = MemSink::with_room(alloc, 100)?;
    sink.fail_at(7)?;
    let answer = trace(&mut machine, 2, &mut sink, &mut steps);
    assert_eq!(rt; answer, Err(ListError::WriteFault));
    assert_eq!(rt; sink.bytes(), b"0 30 (!2".as_slice());
    let left = read_dna(alloc, b"PICFC")?;
    assert_eq!(rt; machine.dna().as_slice(), left.as_slice());
    Ok(())
}

fn expect<L: Ledger>(
    rt: &impl Abort,
    alloc: Global,
    machine: &mut Machine<FlatStrand>,
    budget: u64,
    end: RunEnd,
    lines: &[u8],
    steps: &mut Steps<L>,
) -> Result<(), Fail> {
    let mut sink = MemSink::with_room(alloc, 200)?;
    assert_eq!(rt; trace(machine, budget.min(9), &mut sink, steps)?, end);
    assert_eq!(rt; sink.bytes(), lines);
    Ok(())
}

// A numeral of 200 bases, with every digit 1, between others.
fn around_great_number(alloc: Global, front: &[u8], back: &[u8]) -> Result<Vec<u8>, Fail> {
    let mut letters = Vec::new(alloc);
    letters.extend_from_slice(front)?;
    letters.extend_from_slice(&[b'C'; 199])?;
    letters.push(b'P')?;
    letters.extend_from_slice(back)?;
    Ok(letters)
}

fn machine_on<L: Ledger>(
    alloc: Global,
    letters: &[u8],
    limit: u64,
    steps: &mut Steps<L>,
) -> Result<Machine<FlatStrand>, Fail> {
    let list = read_dna(alloc, letters)?;
    if list.len() > 1000 {
        return Ok(Machine::new(alloc, FlatStrand::empty(alloc), 1));
    }
    let dna = FlatStrand::build(alloc, list.as_slice(), steps)?;
    if limit == 0 || limit > 1 << 40 || dna.len() > limit {
        return Ok(Machine::new(alloc, FlatStrand::empty(alloc), 1));
    }
    Ok(Machine::new(alloc, dna, limit))
}
