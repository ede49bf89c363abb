ghost use Rattle.std.specs.Prelude.{◌≡◌, ◌<◌};

use crate::RopeStrand;
use fuun_base::{Base, NoMemory, Steps, Tally};
use std::alloc::Global;
use std::marker::Brand;
use std::process::Abort;
use std::sync::ledger::{Blank, Ledger};
use std::test::Fail;
use strand::{Strand, requoted};

/// The bases of a strand.
fn bases_of<S: Strand>(alloc: Global, strand: &S) -> Result<Vec<Base>, NoMemory> {
    let mut bases = Vec::new(alloc);
    bases.resize(strand.len() as usize, Base::I)?;
    strand.copy_out(0, bases.as_mut_slice());
    Ok(bases)
}

/// The range of a strand, quoted; with a bad range or a long result all of it as it is.
fn quoted<L: Ledger>(
    whole: &RopeStrand,
    lo: u64,
    hi: u64,
    level: u64,
    steps: &mut Steps<L>,
) -> Result<RopeStrand, NoMemory> {
    if lo > hi || hi > whole.len() {
        return whole.share();
    }
    let tally = whole.tally(lo, hi);
    match tally.quoted_len(level, 1 << 40) {
        None => whole.share(),
        Some(_) => whole.quoted(lo, hi, level, steps),
    }
}

fn cycle(alloc: Global, size: usize) -> Result<Vec<Base>, NoMemory> {
    let mut bases = Vec::new(alloc);
    for place in 0..size {
        bases.push([Base::I, Base::C, Base::F, Base::P, Base::P][place % 5])?;
    }
    Ok(bases)
}

/// Whether a range of a strand is read, cut, counted and found as in the list that it stands for.
fn has_range<S: Strand, L: Ledger>(
    alloc: Global,
    whole: &S,
    list: &[Base],
    lo: usize,
    hi: usize,
    steps: &mut Steps<L>,
) -> Result<bool, NoMemory> {
    if list.len() > 3000 || lo > hi || hi > list.len() || whole.len() != list.len() as u64 {
        return Ok(false);
    }
    let want = &list[lo..hi];
    let part = whole.sub(lo as u64, hi as u64, steps)?;
    let rest = whole.find(&list[lo..], lo as u64)?;
    Ok(
        bases_of(alloc, &part)?.as_slice() == want
            && whole.tally(lo as u64, hi as u64) == Tally::of(want)
            && rest == Some(lo as u64),
    )
}

/// Whether the two parts at a place, joined again, are the list, and so is the first joined to the strand from there on.
fn joins<S: Strand, L: Ledger>(
    alloc: Global,
    whole: &S,
    list: &[Base],
    place: u64,
    steps: &mut Steps<L>,
) -> Result<bool, NoMemory> {
    if place > whole.len() || whole.len() > 3000 {
        return Ok(false);
    }
    let front = whole.sub(0, place, steps)?;
    let back = whole.sub(place, whole.len(), steps)?;
    if front.len() + back.len() > 3000 {
        return Ok(false);
    }
    let joined = S::join(&front, &back, steps)?;
    let onward = S::join_from(&front, whole, place, steps)?;
    Ok(bases_of(alloc, &joined)?.as_slice() == list && bases_of(alloc, &onward)?.as_slice() == list)
}

/// Whether ranges of a rope of a list are those of the list.
fn has_ranges<L: Ledger>(
    alloc: Global,
    list: &[Base],
    steps: &mut Steps<L>,
) -> Result<bool, NoMemory> {
    if list.len() > 3000 {
        return Ok(false);
    }
    let whole = RopeStrand::build(alloc, list, steps)?.share()?;
    for (lo, hi) in [(0, 0), (0, 3000), (1, 512), (500, 1024), (511, 2999)] {
        if !has_range(alloc, &whole, list, lo, hi, steps)? {
            return Ok(false);
        }
    }
    for place in [0, 1234, 2900, 3000] {
        if !joins(alloc, &whole, list, place, steps)? {
            return Ok(false);
        }
    }
    Ok(true)
}

/// Whether a part of a rope of a list, quoted so often, is that of the list.
fn quotes<L: Ledger>(
    alloc: Global,
    list: &[Base],
    level: u64,
    steps: &mut Steps<L>,
) -> Result<bool, NoMemory> {
    if list.len() != 3000 {
        return Ok(false);
    }
    let whole = RopeStrand::build(alloc, list, steps)?;
    let part = quoted(&whole, 100, 1100, level, steps)?;
    let want = requoted(alloc, Vec::from_slice(alloc, &list[100..1100])?, level)?;
    Ok(bases_of(alloc, &part)? == want)
}

#[test]
fn stands_for_lists(rt: HostRuntime) -> Result<(), Fail> {
    lists::<Brand, _>(&rt, rt.alloc(), Blank::new(1))
}

fn lists<L: Ledger, R: Abort>(rt: &R, alloc: Global, blank: Blank) -> Result<(), Fail>
    requires name { blank.name ≡ L.name }
    requires parts { blank.parts ≡ L.parts }
    requires some { 0 < L.parts }
{
    let mut steps = Steps::<L>::new(blank);
    let list = cycle(alloc, 3000)?;
    assert!(rt; has_ranges(alloc, &list, &mut steps)?);
    for level in 0..4 {
        assert!(rt; quotes(alloc, &list, level, &mut steps)?);
    }
    Ok(())
}
