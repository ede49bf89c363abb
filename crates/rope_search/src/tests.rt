ghost use Rattle.std.specs.Prelude.{◌≡◌, ◌<◌, ◌≤◌, [], ◌∷◌, length, IfOk, Some, None};
ghost use Rattle.rope_search.specs.Worked.{row_of};

use super::*;
use fuun_base::{Base, NoMemory, Steps};
use rope_core::Rope;
use std::alloc::Global;
use std::marker::Brand;
use std::process::Abort;
use std::sync::ledger::{Blank, Ledger};
use std::test::Fail;

/// Where a needle stands in a rope from a place on.
fn place_of(alloc: Global, rope: &Rope, needle: &[Base], lo: u64) -> Result<Option<u64>, NoMemory>
    requires { lo ≤ length rope.now.bases }
{
    Ok(KmpTable::new(alloc, needle)?.find_in(rope, lo))
}

/// I 512 times, C, F, and I 511 times: a rope of it has leaves of 512, 512 and 1 bases.
fn worked_row() -> [Base; 1025]
    ensures { result ≡ row_of 512 511 }
{
    let mut row = [Base::I; 1025];
    row[512] = Base::C;
    row[513] = Base::F;
    row
}

/// Where ICFI is found in I 512 times, C, F and I 511 times, from 0 and from 512, and the empty needle from 5.
fn places_in_row<L: Ledger>(
    alloc: Global,
    row: &[Base],
    steps: &mut Steps<L>,
) -> Result<[Option<u64>; 3], NoMemory>
    requires { row.now ≡ row_of 512 511 }
    ensures { IfOk result (λ places. places ≡ Some 511 ∷ None ∷ Some 5 ∷ []) }
{
    let rope = Rope::build(alloc, row, steps)?;
    let table = KmpTable::new(alloc, &[Base::I, Base::C, Base::F, Base::I])?;
    let none = KmpTable::new(alloc, &[])?;
    Ok([
        table.find_in(&rope, 0),
        table.find_in(&rope, 512),
        none.find_in(&rope, 5),
    ])
}

/// The same rope once more.
fn shared_row<L: Ledger>(
    alloc: Global,
    row: &[Base],
    steps: &mut Steps<L>,
) -> Result<Rope, NoMemory>
    requires { length row.now ≡ 1025 }
    ensures { IfOk result (λ rope. rope.bases ≡ row.now) }
{
    Rope::build(alloc, row, steps)?.share()
}

#[test]
fn finds_over_leaves(rt: HostRuntime) -> Result<(), Fail> {
    over_leaves::<Brand, _>(&rt, rt.alloc(), Blank::new(1))
}

fn over_leaves<L: Ledger, R: Abort>(rt: &R, alloc: Global, blank: Blank) -> Result<(), Fail>
    requires name { blank.name ≡ L.name }
    requires parts { blank.parts ≡ L.parts }
    requires some { 0 < L.parts }
{
    let mut steps = Steps::<L>::new(blank);
    let bases = worked_row();
    assert_eq!(rt;
        places_in_row(alloc, &bases, &mut steps)?,
        [Some(511), None, Some(5)]
    );
    let rope = shared_row(alloc, &bases, &mut steps)?;
    let icfi = [Base::I, Base::C, Base::F, Base::I];
    for (needle, lo, want) in [
        (icfi.as_slice(), 511, Some(511)),
        (&[], 1025, Some(1025)),
        (&bases, 0, Some(0)),
        (&bases[1..], 0, Some(1)),
        (&bases[500..520], 0, Some(500)),
        (&bases[505..], 100, Some(505)),
        (&bases[505..], 506, None),
        (&[Base::P], 0, None),
    ] {
        if lo <= rope.len() {
            assert_eq!(rt; place_of(alloc, &rope, needle, lo)?, want);
        }
    }
    Ok(())
}
