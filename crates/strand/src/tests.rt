ghost use Rattle.std.specs.Prelude.{◌≡◌, ◌<◌};

use crate::{FlatStrand, Strand};
use fuun_base::{Base, Steps, Tally, read_dna};
use std::alloc::Global;
use std::marker::Brand;
use std::process::Abort;
use std::sync::ledger::{Blank, Ledger};
use std::test::Fail;

#[test]
fn strands_stand_for_lists(rt: HostRuntime) -> Result<(), Fail> {
    cut_and_join::<Brand>(&rt, rt.alloc(), Blank::new(1))?;
    share_the_worked_dna::<Brand>(&rt, rt.alloc(), Blank::new(1))?;
    quote_ranges::<Brand>(&rt, rt.alloc(), Blank::new(1))?;
    find_needles::<Brand>(&rt, rt.alloc(), Blank::new(1))
}

fn cut_and_join<L: Ledger>(rt: &impl Abort, alloc: Global, blank: Blank) -> Result<(), Fail>
    requires name { blank.name ≡ L.name }
    requires parts { blank.parts ≡ L.parts }
    requires some { 0 < L.parts }
{
    let mut steps = Steps::<L>::new(blank);
    let whole = flat(alloc, b"ICFPPI", &mut steps)?;
    assert_eq!(rt; whole.len(), 6);
    let part = whole.sub(1, 4, &mut steps)?;
    expect(rt, alloc, &part, b"CFP")?;
    assert_eq!(rt; part.len(), 3);
    let joined = FlatStrand::join(&part, &whole, &mut steps)?;
    expect(rt, alloc, &joined, b"CFPICFPPI")?;
    let onward = FlatStrand::join_from(&part, &whole, 4, &mut steps)?;
    expect(rt, alloc, &onward, b"CFPPI")?;
    expect(rt, alloc, &FlatStrand::empty(alloc), b"")?;
    let want = Tally {
        i: 1,
        c: 0,
        f: 0,
        p: 2,
    };
    assert_eq!(rt; whole.tally(3, 6), want);
    let mut buf = [Base::I; 4];
    assert_eq!(rt; whole.copy_out(3, &mut buf), 3);
    assert_eq!(rt; buf, [Base::P, Base::P, Base::I, Base::I]);
    Ok(())
}

fn share_the_worked_dna<L: Ledger>(rt: &impl Abort, alloc: Global, blank: Blank) -> Result<(), Fail>
    requires name { blank.name ≡ L.name }
    requires parts { blank.parts ≡ L.parts }
    requires some { 0 < L.parts }
{
    let mut steps = Steps::<L>::new(blank);
    let whole = flat(alloc, b"IIPIPICPIICICIIFICCIFPPIICCFPC", &mut steps)?;
    expect(
        rt,
        alloc,
        &whole.share()?,
        b"IIPIPICPIICICIIFICCIFPPIICCFPC",
    )
}

fn quote_ranges<L: Ledger>(rt: &impl Abort, alloc: Global, blank: Blank) -> Result<(), Fail>
    requires name { blank.name ≡ L.name }
    requires parts { blank.parts ≡ L.parts }
    requires some { 0 < L.parts }
{
    let mut steps = Steps::<L>::new(blank);
    let whole = flat(alloc, b"IFCFP", &mut steps)?;
    assert_eq!(rt; whole.len(), 5);
    expect(rt, alloc, &quoted(&whole, 1, 4, 0, &mut steps)?, b"FCF")?;
    expect(rt, alloc, &quoted(&whole, 0, 5, 1, &mut steps)?, b"CPFPIC")?;
    expect(
        rt,
        alloc,
        &quoted(&whole, 1, 3, 7, &mut steps)?,
        b"CFFPICCF",
    )?;
    expect(rt, alloc, &quoted(&whole, 2, 2, u64::MAX, &mut steps)?, b"")?;
    Ok(())
}

fn quoted<L: Ledger>(
    whole: &FlatStrand,
    lo: u64,
    hi: u64,
    level: u64,
    steps: &mut Steps<L>,
) -> Result<FlatStrand, Fail> {
    if lo > hi || hi > whole.len() {
        return Ok(whole.share()?);
    }
    let tally = whole.tally(lo, hi);
    match tally.quoted_len(level, 1 << 40) {
        None => Ok(whole.share()?),
        Some(_) => Ok(whole.quoted(lo, hi, level, steps)?),
    }
}

fn find_needles<L: Ledger>(rt: &impl Abort, alloc: Global, blank: Blank) -> Result<(), Fail>
    requires name { blank.name ≡ L.name }
    requires parts { blank.parts ≡ L.parts }
    requires some { 0 < L.parts }
{
    let mut steps = Steps::<L>::new(blank);
    let whole = flat(alloc, b"IIICIICIIIP", &mut steps)?;
    assert_eq!(rt; whole.len(), 11);
    for (needle, lo, want) in [
        (b"IIICIIC".as_slice(), 0, Some(0)),
        (b"IICI", 0, Some(1)),
        (b"IICI", 2, Some(4)),
        (b"IIIP", 0, Some(7)),
        (b"IIII", 0, None),
        (b"P", 11, None),
        (b"", 11, Some(11)),
        (b"IIICIICIIIPP", 0, None),
    ] {
        let list = read_dna(alloc, needle)?;
        if lo <= 11 {
            assert_eq!(rt; whole.find(list.as_slice(), lo)?, want);
        }
    }
    Ok(())
}

fn flat<L: Ledger>(
    alloc: Global,
    letters: &[u8],
    steps: &mut Steps<L>,
) -> Result<FlatStrand, Fail> {
    let list = read_dna(alloc, letters)?;
    if list.len() > 1000 {
        return Ok(FlatStrand::empty(alloc));
    }
    Ok(FlatStrand::build(alloc, list.as_slice(), steps)?)
}

fn expect(rt: &impl Abort, alloc: Global, strand: &FlatStrand, letters: &[u8]) -> Result<(), Fail> {
    let list = read_dna(alloc, letters)?;
    assert_eq!(rt; strand.as_slice(), list.as_slice());
    Ok(())
}
