ghost use Rattle.std.specs.Prelude.{◌≡◌, ◌<◌, ◌≤◌, ◌^◌, All, IfOk};
ghost use Rattle.matcher.specs.Found.{LiesWithin};

use crate::{replace, replaced_len};
use dna_items::{BIG, TplItem, TplList};
use fuun_base::{Base, Steps, read_dna};
use matcher::GroupList;
use std::alloc::Global;
use std::marker::Brand;
use std::process::Abort;
use std::sync::ledger::{Blank, Ledger};
use std::test::Fail;
use strand::{FlatStrand, Strand};

const ANY: u64 = 1 << 40;

#[derive(Drop)]
struct Case<'a> {
    dna: &'a [u8],
    items: &'a [TplItem],
    groups: &'a [(u64, u64)],
    stop: u64,
    limit: u64,
}

#[test]
fn templates_are_put(rt: HostRuntime) -> Result<(), Fail> {
    put_items::<Brand>(&rt, rt.alloc(), Blank::new(1))?;
    share_groups::<Brand>(&rt, rt.alloc(), Blank::new(1))?;
    keep_limits::<Brand>(&rt, rt.alloc(), Blank::new(1))
}

fn put_items<L: Ledger>(rt: &impl Abort, alloc: Global, blank: Blank) -> Result<(), Fail>
    requires name { blank.name ≡ L.name }
    requires parts { blank.parts ≡ L.parts }
    requires some { 0 < L.parts }
{
    let mut steps = Steps::<L>::new(blank);
    let p = TplItem::Base(Base::P);
    let whole = TplItem::Group { n: 0, level: 0 };
    let high = TplItem::Group { n: 0, level: 7 };
    let once = TplItem::Group { n: 0, level: 1 };
    let missing = TplItem::Group { n: BIG, level: 0 };
    for (dna, items, stop, want) in [
        (
            b"CFPC".as_slice(),
            [p, p, whole].as_slice(),
            3,
            b"PPCFC".as_slice(),
        ),
        (b"CFPC", [p, high].as_slice(), 3, b"PICCFCFFPC"),
        (b"CFPC", [once, p, TplItem::Len(0)].as_slice(), 4, b"FPPICP"),
        (
            b"CFPC",
            [missing, TplItem::Len(1), p].as_slice(),
            2,
            b"PPPC",
        ),
        (b"CF", [].as_slice(), 0, b"CF"),
    ] {
        let case = Case {
            dna,
            items,
            groups: &[(0, 2)],
            stop,
            limit: ANY,
        };
        let list = read_dna(alloc, want)?;
        match rewritten(alloc, &case, &mut steps)? {
            None => assert!(rt; false),
            Some(dna) => assert_eq!(rt; dna.as_slice(), list.as_slice()),
        }
    }
    Ok(())
}

// Groups that are cut once and put again, in turn.
fn share_groups<L: Ledger>(rt: &impl Abort, alloc: Global, blank: Blank) -> Result<(), Fail>
    requires name { blank.name ≡ L.name }
    requires parts { blank.parts ≡ L.parts }
    requires some { 0 < L.parts }
{
    let mut steps = Steps::<L>::new(blank);
    let first = TplItem::Group { n: 0, level: 0 };
    let last = TplItem::Group { n: 1, level: 0 };
    let missing = TplItem::Group { n: BIG, level: 0 };
    let p = TplItem::Base(Base::P);
    let cs = [b'C'; 65];
    let fs = [b'F'; 66];
    let dna = all_of(alloc, &[&cs, &fs])?;
    let want = all_of(alloc, &[&fs, &cs, b"P", &fs, &fs, &cs, b"P"])?;
    let case = Case {
        dna: dna.as_slice(),
        items: &[last, first, p, last, missing, last, first, p],
        groups: &[(0, 65), (65, 131)],
        stop: 131,
        limit: ANY,
    };
    let list = read_dna(alloc, want.as_slice())?;
    match rewritten(alloc, &case, &mut steps)? {
        None => assert!(rt; false),
        Some(dna) => assert_eq!(rt; dna.as_slice(), list.as_slice()),
    }
    Ok(())
}

fn all_of(alloc: Global, parts: &[&[u8]]) -> Result<Vec<u8>, Fail> {
    let mut all = Vec::new(alloc);
    for part in parts {
        all.extend_from_slice(part)?;
    }
    Ok(all)
}

fn keep_limits<L: Ledger>(rt: &impl Abort, alloc: Global, blank: Blank) -> Result<(), Fail>
    requires name { blank.name ≡ L.name }
    requires parts { blank.parts ≡ L.parts }
    requires some { 0 < L.parts }
{
    let mut steps = Steps::<L>::new(blank);
    let seven = [TplItem::Group { n: 0, level: 0 }; 7];
    let big = [TplItem::Group { n: 0, level: BIG }];
    let high = [TplItem::Group { n: 0, level: 164 }];
    for (items, hi, stop, limit, want) in [
        (seven.as_slice(), 8, 8, 56, Some(56)),
        (seven.as_slice(), 8, 8, 55, None),
        (seven.as_slice(), 8, 8, 54, None),
        (seven.as_slice(), 8, 0, 64, Some(64)),
        (seven.as_slice(), 8, 0, 63, None),
        (big.as_slice(), 0, 0, ANY, Some(8)),
        (big.as_slice(), 1, 0, ANY, None),
        (high.as_slice(), 1, 0, ANY, None),
    ] {
        let case = Case {
            dna: b"CCCCCCCC",
            items,
            groups: &[(0, hi)],
            stop,
            limit,
        };
        let dna = rewritten(alloc, &case, &mut steps)?;
        assert_eq!(rt; dna.map(|dna| dna.len()), want);
    }
    Ok(())
}

// The DNA after the replacement: None where it is too long, or the case is not one.
fn rewritten<L: Ledger>(
    alloc: Global,
    case: &Case,
    steps: &mut Steps<L>,
) -> Result<Option<FlatStrand>, Fail> {
    let list = read_dna(alloc, case.dna)?;
    let mut tpl = TplList::new(alloc);
    for item in case.items {
        tpl.push(*item)?;
    }
    if list.len() > 1000 || case.limit > ANY || case.stop > list.len() as u64 {
        return Ok(None);
    }
    let dna = FlatStrand::build(alloc, list.as_slice(), steps)?;
    let groups = groups_within(alloc, case.groups, dna.len())?;
    match replaced_len(&dna, &tpl, &groups, case.stop, case.limit) {
        None => Ok(None),
        Some(_) => Ok(Some(replace(alloc, &dna, &tpl, &groups, case.stop, steps)?)),
    }
}

fn groups_within(alloc: Global, ranges: &[(u64, u64)], len: u64) -> Result<GroupList, Fail>
    ensures { IfOk result (λ groups. All (LiesWithin len) groups) }
{
    let mut groups = GroupList::new(alloc);
    for range in ranges {
        if range.0 <= range.1 && range.1 <= len {
            groups.push(*range)?;
        }
    }
    Ok(groups)
}
