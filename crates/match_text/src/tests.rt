ghost use Rattle.std.specs.Prelude.{◌≡◌, ◌<◌};

use crate::put_match;
use dna_items::{Balanced, PatItem, PatList};
use fuun_base::{Base, BaseList, Steps, read_dna};
use fuun_io::MemSink;
use std::alloc::Global;
use std::marker::Brand;
use std::mem;
use std::process::Abort;
use std::sync::ledger::{Blank, Ledger};
use std::test::Fail;
use strand::{FlatStrand, Strand};

#[test]
fn matches_are_told(rt: HostRuntime) -> Result<(), Fail> {
    told::<Brand>(&rt, rt.alloc(), Blank::new(1))
}

/// The DNA, the place, the pattern, and its text. In a pattern a digit is a skip, and small letters up to a comma are sought.
fn told<L: Ledger>(rt: &impl Abort, alloc: Global, blank: Blank) -> Result<(), Fail>
    requires name { blank.name ≡ L.name }
    requires parts { blank.parts ≡ L.parts }
    requires some { 0 < L.parts }
{
    let mut steps = Steps::<L>::new(blank);
    for (dna, place, pattern, want) in [
        (
            b"CFPC".as_slice(),
            0,
            b"(2)P".as_slice(),
            b"( 0 -> 0\n!2 0 -> 2\n) 2 -> 2\nP 2 -> 3\nmatches\n0 0 2\n".as_slice(),
        ),
        (b"PC", 0, b"PP", b"PP 0 fails at 1\nno match\n"),
        (b"P", 0, b"PP", b"PP 0 fails at 1\nno match\n"),
        (b"CFPC", 0, b"5", b"!5 0 fails\nno match\n"),
        (b"CFPC", 0, b"4", b"!4 0 -> 4\nmatches\n"),
        (b"CFPC", 0, b"", b"matches\n"),
        (b"CFPC", 2, b"P", b"P 0 -> 1\nmatches\n"),
        (b"ICICFP", 0, b"cf,P", b"<CF> 0 -> 5\nP 5 -> 6\nmatches\n"),
        (b"ICICFP", 0, b"ff,P", b"<FF> 0 fails\nno match\n"),
        (
            b"ICICFP",
            0,
            b"IC1CC",
            b"IC 0 -> 2\n!1 2 -> 3\nCC 3 fails at 4\nno match\n",
        ),
        (
            b"FCFPC",
            1,
            b"(1(1)P)",
            b"( 0 -> 0\n!1 0 -> 1\n( 1 -> 1\n!1 1 -> 2\n) 2 -> 2\nP 2 -> 3\n) 3 -> 3\nmatches\n0 1 2\n1 0 3\n",
        ),
    ] {
        let strand = flat(alloc, dna, &mut steps)?;
        expect(rt, alloc, &strand, place, pattern, want)?;
    }
    Ok(())
}

fn expect(
    rt: &impl Abort,
    alloc: Global,
    strand: &FlatStrand,
    place: u64,
    text: &[u8],
    want: &[u8],
) -> Result<(), Fail> {
    let items = pattern(alloc, text)?;
    assert!(rt; place <= strand.len());
    assert!(rt; items.is_balanced());
    let mut sink = MemSink::with_room(alloc, 256)?;
    put_match(alloc, strand, place, &items, &mut sink)?;
    assert_eq!(rt; sink.bytes(), want);
    Ok(())
}

fn pattern(alloc: Global, text: &[u8]) -> Result<PatList, Fail> {
    let mut items = PatList::new(alloc);
    let mut needle = BaseList::new(alloc);
    for sign in text {
        match *sign {
            b'(' => items.push(PatItem::GroupStart)?,
            b')' => items.push(PatItem::GroupStop)?,
            b'0'..=b'9' => items.push(PatItem::Skip(u64::from(*sign - b'0')))?,
            b',' => items.push(PatItem::Search(mem::replace(&mut needle, BaseList::new(alloc))))?,
            b'a'..=b'z' => needle.push(base(*sign - b'a' + b'A')?)?,
            _ => items.push(PatItem::Base(base(*sign)?))?,
        }
    }
    Ok(items)
}

fn base(letter: u8) -> Result<Base, Fail> {
    Ok(Base::from_letter(letter).ok_or("letter")?)
}

fn flat<L: Ledger>(
    alloc: Global,
    letters: &[u8],
    steps: &mut Steps<L>,
) -> Result<FlatStrand, Fail> {
    let list = read_dna(alloc, letters)?;
    if list.len() > 1000 {
        return Ok(FlatStrand::empty(alloc));
    }
    Ok(FlatStrand::build(alloc, list.as_slice(), steps)?)
}
