ghost use Rattle.std.specs.Prelude.{◌≡◌, ◌+◌, ◌*◌, ◌^◌, ◌<◌, ◌≤◌, length, IfOk};

use super::*;
use fuun_base::{Base, NoMemory, Steps};
use rope_node::{Node, View};
use std::alloc::Global;
use std::marker::Brand;
use std::process::Abort;
use std::sync::ledger::{Blank, Ledger};
use std::test::Fail;

/// How many bases a rope of 513 bases has, and its height.
#[tactic(auto, using(crate::proofs::RopeRoots::higher_than_leaf))]
fn size_of_513<L: Ledger>(
    alloc: Global,
    bases: &[Base],
    steps: &mut Steps<L>,
) -> Result<(u64, u32), NoMemory>
    requires { length bases.now ≡ 513 }
    ensures nodes { steps.new ≤ steps.old + 4 }
    ensures size { IfOk result (λ size. size.0 ≡ 513) }
    ensures high { IfOk result (λ size. 1 ≤ size.1) }
{
    let rope = Rope::build(alloc, bases, steps)?;
    Ok((rope.len(), rope.height()))
}

/// All bases of a rope of 2^20 bases but the first and the last.
fn inside<L: Ledger>(rope: &Rope, steps: &mut Steps<L>) -> Result<Rope, NoMemory>
    requires { length rope.now.bases ≡ 2 ^ 20 }
    ensures { steps.new ≤ steps.old + 64 * (rope.now.height + 1) }
{
    rope.sub(1, 1_048_575, steps)
}

fn push_bases(node: &Node, out: &mut Vec<Base>) -> Result<(), NoMemory> {
    match node.view() {
        View::Leaf(bases) => out.extend_from_slice(bases)?,
        View::Pair(left, right) => {
            push_bases(left, out)?;
            push_bases(right, out)?;
        }
    }
    Ok(())
}

fn has_bases(alloc: Global, rope: &Rope, want: &[Base]) -> Result<bool, NoMemory> {
    let mut bases = Vec::new(alloc);
    if let Some(node) = rope.root() {
        push_bases(node, &mut bases)?;
    }
    Ok(
        bases.as_slice() == want
            && rope.len() == want.len() as u64
            && rope.is_empty() == want.is_empty(),
    )
}

fn cycle(alloc: Global, size: usize) -> Result<Vec<Base>, NoMemory> {
    let mut bases = Vec::new(alloc);
    for place in 0..size {
        bases.push([Base::I, Base::C, Base::F, Base::P, Base::P][place % 5])?;
    }
    Ok(bases)
}

/// Whether what is left of a rope joins on to the bases before it, and half of it to the rope put twice.
fn joins_from<L: Ledger>(
    alloc: Global,
    rope: &Rope,
    bases: &[Base],
    steps: &mut Steps<L>,
) -> Result<bool, NoMemory>
    requires { length rope.now.bases ≡ 2000 }
{
    for place in [0, 1234, 2000] {
        let (front, _back) = rope.split(place, steps)?;
        let whole = Rope::join_from(&front, rope, place, steps)?;
        if !has_bases(alloc, &whole, bases)? {
            return Ok(false);
        }
    }
    let twice = Rope::join(rope, rope, steps)?;
    let longer = Rope::join_from(&twice, rope, 1000, steps)?;
    has_bases(alloc, &longer, &cycle(alloc, 5000)?)
}

#[test]
fn builds_and_cuts(rt: HostRuntime) -> Result<(), Fail> {
    sizes::<Brand, _>(&rt, rt.alloc(), Blank::new(1))
}

fn sizes<L: Ledger, R: Abort>(rt: &R, alloc: Global, blank: Blank) -> Result<(), Fail>
    requires name { blank.name ≡ L.name }
    requires parts { blank.parts ≡ L.parts }
    requires some { 0 < L.parts }
{
    let mut steps = Steps::<L>::new(blank);
    let few = cycle(alloc, 513)?;
    assert_eq!(rt; few.len(), 513);
    assert_eq!(rt; size_of_513(alloc, &few, &mut steps)?, (513, 1));
    let bases = cycle(alloc, 1_048_576)?;
    assert_eq!(rt; bases.len(), 1_048_576);
    let rope = Rope::build(alloc, &bases, &mut steps)?;
    let part = inside(&rope, &mut steps)?;
    assert!(rt; has_bases(alloc, &part, &bases[1..1_048_575])?);
    Ok(())
}

#[test]
fn shares_splits_and_joins(rt: HostRuntime) -> Result<(), Fail> {
    pieces::<Brand, _>(&rt, rt.alloc(), Blank::new(1))
}

fn pieces<L: Ledger, R: Abort>(rt: &R, alloc: Global, blank: Blank) -> Result<(), Fail>
    requires name { blank.name ≡ L.name }
    requires parts { blank.parts ≡ L.parts }
    requires some { 0 < L.parts }
{
    let mut steps = Steps::<L>::new(blank);
    let bases = cycle(alloc, 2000)?;
    assert_eq!(rt; bases.len(), 2000);
    let rope = Rope::build(alloc, &bases, &mut steps)?;
    assert!(rt; has_bases(alloc, &rope.share()?, &bases)?);
    assert!(rt; has_bases(alloc, &Rope::empty(alloc), &[])?);
    assert!(rt; joins_from(alloc, &rope, &bases, &mut steps)?);
    for place in [0, 1, 511, 512, 1234, 1999, 2000] {
        let (front, back) = rope.split(place, &mut steps)?;
        assert!(rt;
            has_bases(alloc, &front, &bases[..place as usize])?,
            "before {place}"
        );
        assert!(rt;
            has_bases(alloc, &back, &bases[place as usize..])?,
            "from {place}"
        );
        assert!(rt;
            has_bases(alloc, &Rope::join(&front, &back, &mut steps)?, &bases)?,
            "at {place}"
        );
    }
    Ok(())
}
