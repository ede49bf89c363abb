ghost use Rattle.std.specs.Prelude.{◌≡◌, ◌<◌};

use crate::{Machine, Outcome, Report, RunEnd};
use dna_items::{BIG, TplItem};
use fuun_base::{CommandList, Steps, read_dna};
use std::alloc::Global;
use std::marker::Brand;
use std::process::Abort;
use std::sync::ledger::{Blank, Ledger};
use std::test::Fail;
use strand::{FlatStrand, Strand};

const LIMIT: u64 = 1 << 26;

#[test]
fn runs_as_worked(rt: HostRuntime) -> Result<(), Fail> {
    make_runs::<Brand>(&rt, rt.alloc(), Blank::new(1))
}

#[test]
fn steps_as_worked(rt: HostRuntime) -> Result<(), Fail> {
    read_great_numbers::<Brand>(&rt, rt.alloc(), Blank::new(1))?;
    keep_the_limit::<Brand>(&rt, rt.alloc(), Blank::new(1))
}

fn make_runs<L: Ledger>(rt: &impl Abort, alloc: Global, blank: Blank) -> Result<(), Fail>
    requires name { blank.name ≡ L.name }
    requires parts { blank.parts ≡ L.parts }
    requires some { 0 < L.parts }
{
    let mut steps = Steps::<L>::new(blank);
    let finished = |attempts| RunEnd::Finished { attempts };
    for (letters, budget, end, want) in [
        (
            b"IIPIPICPIICICIIFICCIFPPIICCFPC".as_slice(),
            0,
            RunEnd::Budget,
            b"IIPIPICPIICICIIFICCIFPPIICCFPC".as_slice(),
        ),
        (
            b"IIPIPICPIICICIIFICCIFPPIICCFPC",
            1,
            RunEnd::Budget,
            b"PICFC",
        ),
        (b"IIPIPICPIICICIIFICCIFPPIICCFPC", 2, finished(2), b"PICFC"),
        (
            b"IIPIPICPIICICIIFICCIFCCCPPIICCFPC",
            1,
            RunEnd::Budget,
            b"PIICCFCFFPC",
        ),
        (b"IIPIPIICPIICIICCIICFCFC", 1, RunEnd::Budget, b"I"),
        (b"IFFFPIICCIICPCFCF", 1, RunEnd::Budget, b"ICF"),
        (b"IIPIPICPIICIICIIPPIICCF", 1, RunEnd::Budget, b"ICP"),
        (b"IIPIIPIPCPIICIPCPIICIICIFPPIICFP", 1, RunEnd::Budget, b"F"),
        (b"CIICIICCF", 1, RunEnd::Budget, b"CF"),
        (b"CIICIICCF", 5, finished(2), b"CF"),
        (b"IPCC", 1, finished(1), b"IPCC"),
    ] {
        make_run(rt, alloc, letters, budget, end, want, &mut steps)?;
    }
    Ok(())
}

fn make_run<L: Ledger>(
    rt: &impl Abort,
    alloc: Global,
    letters: &[u8],
    budget: u64,
    end: RunEnd,
    want: &[u8],
    steps: &mut Steps<L>,
) -> Result<(), Fail> {
    let mut machine = machine_on(alloc, letters, LIMIT, steps)?;
    let mut rna = CommandList::new(alloc);
    assert_eq!(rt; machine.run(budget.min(9), &mut rna, steps)?, end);
    assert!(rt; rna.is_empty());
    expect(rt, alloc, machine.dna(), want)
}

fn read_great_numbers<L: Ledger>(rt: &impl Abort, alloc: Global, blank: Blank) -> Result<(), Fail>
    requires name { blank.name ≡ L.name }
    requires parts { blank.parts ≡ L.parts }
    requires some { 0 < L.parts }
{
    let mut steps = Steps::<L>::new(blank);
    let great_group = TplItem::Group { n: BIG, level: 0 };
    let great_level = TplItem::Group { n: 0, level: BIG };
    for (front, back, outcome, item, want) in [
        (
            b"IP".as_slice(),
            b"IICIICCF".as_slice(),
            Outcome::NoMatch,
            None,
            b"CF".as_slice(),
        ),
        (
            b"IICIFP",
            b"IICCF",
            Outcome::Matched(0),
            Some(great_group),
            b"CF",
        ),
        (
            b"IIPIICIICIF",
            b"PIICCF",
            Outcome::Matched(0),
            Some(great_level),
            b"CF",
        ),
    ] {
        let letters = around_great_number(alloc, front, back)?;
        let mut machine = machine_on(alloc, letters.as_slice(), LIMIT, &mut steps)?;
        let report = make_step(alloc, &mut machine, &mut steps)?;
        assert_eq!(rt; report.outcome, outcome);
        assert_eq!(rt; report.template.get(0).copied(), item);
        expect(rt, alloc, machine.dna(), want)?;
    }
    let letters = around_great_number(alloc, b"IIPIPCPIICIICIF", b"PIICCF")?;
    let mut machine = machine_on(alloc, letters.as_slice(), LIMIT, &mut steps)?;
    let report = make_step(alloc, &mut machine, &mut steps)?;
    assert_eq!(rt; report.outcome, Outcome::TooLong);
    assert_eq!(rt; report.template.get(0).copied(), Some(great_level));
    expect(rt, alloc, machine.dna(), letters.as_slice())
}

fn keep_the_limit<L: Ledger>(rt: &impl Abort, alloc: Global, blank: Blank) -> Result<(), Fail>
    requires name { blank.name ≡ L.name }
    requires parts { blank.parts ≡ L.parts }
    requires some { 0 < L.parts }
{
    let mut steps = Steps::<L>::new(blank);
    let letters = b"IIPIPIIICPIICIICIFPPIFPPIFPPIFPPIFPPIFPPIFPPIICCCCCCCCC";
    for (limit, outcome, len) in [(56, Outcome::Matched(8), 56), (55, Outcome::TooLong, 55)] {
        let mut machine = machine_on(alloc, letters, limit, &mut steps)?;
        assert_eq!(rt; machine.limit(), limit);
        let report = make_step(alloc, &mut machine, &mut steps)?;
        assert_eq!(rt; report.outcome, outcome);
        assert_eq!(rt; report.pattern.len(), 3);
        assert_eq!(rt; report.template.len(), 7);
        assert_eq!(rt; machine.dna().len(), len);
    }
    let mut machine = machine_on(alloc, b"II", 2, &mut steps)?;
    let report = make_step(alloc, &mut machine, &mut steps)?;
    assert_eq!(rt; report.outcome, Outcome::Finished);
    assert!(rt; report.pattern.is_empty() && report.template.is_empty());
    expect(rt, alloc, machine.dna(), b"II")
}

fn make_step<L: Ledger>(
    alloc: Global,
    machine: &mut Machine<FlatStrand>,
    steps: &mut Steps<L>,
) -> Result<Report, Fail> {
    let mut rna = CommandList::new(alloc);
    Ok(machine.step(&mut rna, steps)?)
}

// A numeral of 200 bases, with every digit 1, between others.
fn around_great_number(alloc: Global, front: &[u8], back: &[u8]) -> Result<Vec<u8>, Fail> {
    let mut letters = Vec::new(alloc);
    letters.extend_from_slice(front)?;
    letters.extend_from_slice(&[b'C'; 199])?;
    letters.push(b'P')?;
    letters.extend_from_slice(back)?;
    Ok(letters)
}

fn machine_on<L: Ledger>(
    alloc: Global,
    letters: &[u8],
    limit: u64,
    steps: &mut Steps<L>,
) -> Result<Machine<FlatStrand>, Fail> {
    let list = read_dna(alloc, letters)?;
    if list.len() > 1000 {
        return Ok(Machine::new(alloc, FlatStrand::empty(alloc), 1));
    }
    let dna = FlatStrand::build(alloc, list.as_slice(), steps)?;
    if limit == 0 || limit > 1 << 40 || dna.len() > limit {
        return Ok(Machine::new(alloc, FlatStrand::empty(alloc), 1));
    }
    Ok(Machine::new(alloc, dna, limit))
}

fn expect(rt: &impl Abort, alloc: Global, strand: &FlatStrand, letters: &[u8]) -> Result<(), Fail> {
    let list = read_dna(alloc, letters)?;
    assert_eq!(rt; strand.as_slice(), list.as_slice());
    Ok(())
}
