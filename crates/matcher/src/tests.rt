ghost use Rattle.std.specs.Prelude.{◌≡◌, ◌<◌};

use crate::{MatchEnd, match_at};
use dna_items::{BIG, Balanced, PatItem, PatList};
use fuun_base::{Base, BaseList, Steps, read_dna};
use std::alloc::Global;
use std::marker::Brand;
use std::mem;
use std::process::Abort;
use std::sync::ledger::{Blank, Ledger};
use std::test::Fail;
use strand::{FlatStrand, Strand};

#[test]
fn patterns_match(rt: HostRuntime) -> Result<(), Fail> {
    short_patterns::<Brand>(&rt, rt.alloc(), Blank::new(1))?;
    long_patterns::<Brand>(&rt, rt.alloc(), Blank::new(1))
}

/// The DNA, the place, the pattern, and the stop before the ends of each group: nothing where there is no match.
/// In a pattern a digit is a skip, 9 one of `BIG`, and small letters up to a comma are sought.
fn short_patterns<L: Ledger>(rt: &impl Abort, alloc: Global, blank: Blank) -> Result<(), Fail>
    requires name { blank.name ≡ L.name }
    requires parts { blank.parts ≡ L.parts }
    requires some { 0 < L.parts }
{
    let mut steps = Steps::<L>::new(blank);
    for (dna, place, pattern, want) in [
        (b"CFPC".as_slice(), 0, b"CFP".as_slice(), [3].as_slice()),
        (b"CFPC", 0, b"CFC", &[]),
        (b"CFPC", 0, b"CFPCI", &[]),
        (b"CFPC", 4, b"", &[4]),
        (b"CF", 0, b"2", &[2]),
        (b"CF", 0, b"3", &[]),
        (b"CF", 1, b"9", &[]),
        (b"PCFCF", 0, b"cf,", &[3]),
        (b"PCFCF", 2, b"cf,", &[5]),
        (b"PCFCF", 0, b"cf,cf,", &[5]),
        (b"PCFCF", 4, b"cf,", &[]),
        (b"PCFCF", 0, b"ff,", &[]),
        (b"PCFCF", 5, b",", &[5]),
        (b"PCFCF", 1, b",CF", &[3]),
        (b"CFPC", 0, b"(2)P", &[3, 0, 2]),
        (b"ICCFPC", 2, b"(2)P", &[5, 2, 4]),
        (b"ICFPC", 0, b"(2)P", &[]),
        (b"CFPC", 0, b"(1(1)P)()", &[3, 1, 2, 0, 3, 3, 3]),
    ] {
        let strand = flat(alloc, dna, &mut steps)?;
        expect(rt, alloc, &strand, place, pattern, want)?;
    }
    Ok(())
}

/// Bases past a window, and groups past the inline places.
fn long_patterns<L: Ledger>(rt: &impl Abort, alloc: Global, blank: Blank) -> Result<(), Fail>
    requires name { blank.name ≡ L.name }
    requires parts { blank.parts ≡ L.parts }
    requires some { 0 < L.parts }
{
    let mut steps = Steps::<L>::new(blank);
    let same = [b'C'; 600];
    let mut other = same;
    other[599] = b'F';
    let strand = flat(alloc, &same, &mut steps)?;
    expect(rt, alloc, &strand, 0, &same, &[600])?;
    expect(rt, alloc, &strand, 1, &same, &[])?;
    expect(rt, alloc, &strand, 0, &other, &[])?;
    let mut nested = [b'('; 40];
    for sign in &mut nested[20..] {
        *sign = b')';
    }
    let want = [1; 41];
    expect(rt, alloc, &strand, 1, &nested, &want)
}

fn expect(
    rt: &impl Abort,
    alloc: Global,
    strand: &FlatStrand,
    place: u64,
    text: &[u8],
    want: &[u64],
) -> Result<(), Fail> {
    let items = pattern(alloc, text)?;
    assert!(rt; place <= strand.len());
    assert!(rt; items.is_balanced());
    let end = match_at(alloc, strand, place, &items)?;
    let mut numbers = Vec::new(alloc);
    if let MatchEnd::Matched { stop, groups } = end {
        numbers.push(stop)?;
        for (lo, hi) in groups.as_slice() {
            numbers.push(*lo)?;
            numbers.push(*hi)?;
        }
    }
    assert_eq!(rt; numbers.as_slice(), want);
    Ok(())
}

fn pattern(alloc: Global, text: &[u8]) -> Result<PatList, Fail> {
    let mut items = PatList::new(alloc);
    let mut needle = BaseList::new(alloc);
    for sign in text {
        match *sign {
            b'(' => items.push(PatItem::GroupStart)?,
            b')' => items.push(PatItem::GroupStop)?,
            b'9' => items.push(PatItem::Skip(BIG))?,
            b'0'..b'9' => items.push(PatItem::Skip(u64::from(*sign - b'0')))?,
            b',' => items.push(PatItem::Search(mem::replace(&mut needle, BaseList::new(alloc))))?,
            b'a'..=b'z' => needle.push(base(*sign - b'a' + b'A')?)?,
            _ => items.push(PatItem::Base(base(*sign)?))?,
        }
    }
    Ok(items)
}

fn base(letter: u8) -> Result<Base, Fail> {
    Ok(Base::from_letter(letter).ok_or("letter")?)
}

fn flat<L: Ledger>(
    alloc: Global,
    letters: &[u8],
    steps: &mut Steps<L>,
) -> Result<FlatStrand, Fail> {
    let list = read_dna(alloc, letters)?;
    if list.len() > 1000 {
        return Ok(FlatStrand::empty(alloc));
    }
    Ok(FlatStrand::build(alloc, list.as_slice(), steps)?)
}
