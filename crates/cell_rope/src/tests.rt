ghost use Rattle.std.specs.Prelude.{◌≡◌, ◌<◌};

use crate::{CellRope, Stretch};
use fuun_base::{Base, Steps, read_dna};
use std::alloc::Global;
use std::marker::Brand;
use std::process::Abort;
use std::sync::ledger::{Blank, Ledger};
use std::test::Fail;
use strand::Strand;
use sym_strand::{Cell, Seg};

fn text_of(alloc: Global, rope: &CellRope) -> Result<String, Fail> {
    let mut text = String::new(alloc);
    for seg in rope.segs()?.as_slice() {
        match seg {
            Seg::Known(bases) => {
                for base in bases.as_slice() {
                    text.push(char::from(base.letter()))?;
                }
            }
            Seg::Target { lo, hi } => text.push_str(format!(in alloc; "[{lo} {hi}]")?.as_str())?,
        }
    }
    Ok(text)
}

fn expect(rt: &impl Abort, alloc: Global, rope: &CellRope, text: &str) -> Result<(), Fail> {
    assert_eq!(rt; text_of(alloc, rope)?.as_str(), text);
    Ok(())
}

#[test]
fn parts_are_cut_and_joined(rt: HostRuntime) -> Result<(), Fail> {
    parts::<Brand, _>(&rt, rt.alloc(), Blank::new(1))
}

fn parts<L: Ledger, R: Abort>(rt: &R, alloc: Global, blank: Blank) -> Result<(), Fail>
    requires name { blank.name ≡ L.name }
    requires parts { blank.parts ≡ L.parts }
    requires some { 0 < L.parts }
{
    let mut steps = Steps::<L>::new(blank);
    let prefix = read_dna(alloc, b"ICFP")?;
    if prefix.len() != 4 {
        return Ok(());
    }
    let rope = CellRope::start(alloc, prefix.as_slice(), 1 << 40, &mut steps)?.share()?;
    expect(rt, alloc, &rope, "ICFP[0 1099511627776]")?;
    assert_eq!(rt; rope.len(), (1 << 40) + 4);
    assert_eq!(rt; rope.cell(3), Some(Cell::Known(Base::P)));
    assert_eq!(rt; rope.cell(10), Some(Cell::Target(6)));
    assert_eq!(rt; rope.cell((1 << 40) + 4), None);
    assert!(rt; !rope.all_known());
    assert_eq!(rt; rope.known_front(&mut steps)?.len(), 4);
    assert!(rt; rope.len() > 10 && is_target(rope.stretch(10), 6, 1 << 40));
    cut_and_join(rt, alloc, &rope, &mut steps)
}

fn cut_and_join<L: Ledger, R: Abort>(
    rt: &R,
    alloc: Global,
    rope: &CellRope,
    steps: &mut Steps<L>,
) -> Result<(), Fail> {
    for (lo, hi, more, text) in [
        (0, 4, 0, "ICFPIC"),
        (2, 6, 2, "FP[0 2]FP"),
        (4, 6, 6, "[0 4]"),
        (4, 6, 7, "[0 2][3 5]"),
        (9, 9, 0, "IC"),
        (3, 5, 4, "P[0 1][0 2]"),
        (3, 3, 4, "[0 2]"),
    ] {
        if hi > rope.len() || more + 2 > rope.len() || lo > hi {
            return Ok(());
        }
        let part = rope.sub(lo, hi, steps)?;
        let other = rope.sub(more, more + 2, steps)?;
        if part.len() > 1000 || other.len() > 1000 {
            return Ok(());
        }
        expect(rt, alloc, &CellRope::join(&part, &other, steps)?, text)?;
    }
    Ok(())
}

fn is_target(stretch: Stretch<'_>, from: u64, before: u64) -> bool {
    match stretch {
        Stretch::Known(_, _) => false,
        Stretch::Target(lo, hi) => lo == from && hi == before,
    }
}
