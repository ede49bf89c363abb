ghost use Rattle.std.specs.Prelude.{◌≡◌, ◌+◌, ◌-◌, ◌*◌, ◌^◌, ◌<◌, ◌≤◌, max, ◌++◌, drop, length, IfOk};
ghost use Rattle.fuun_base.specs.Ticks.{Ticks};
ghost use Rattle.rope_node.specs.Tree.{IsTree};

use crate::cut::back;
use crate::join::{LEAF_MOST, join, one_leaf};
use fuun_base::{Base, NoMemory, Steps};
use rope_node::{Node, View};
use std::alloc::Global;
use std::sync::ledger::Ledger;

/// The greatest height of a first node that is carried down to the cut.
const CARRIED_MOST: u32 = 2;

/// The bases of `a` and then those of `b` from a place on, 1 or more of them.
pub(crate) fn join_from<L: Ledger>(
    alloc: Global,
    a: &Node,
    b: &Node,
    place: u64,
    steps: &mut Steps<L>,
) -> Result<Node, NoMemory>
    requires within { place < length b.now.bases }
    requires small { length b.now.bases ≤ 2 ^ 41 }
    requires most { length a.now.bases + (length b.now.bases - place) ≤ 2 ^ 41 }
    ensures bases { IfOk result (λ node. node.bases ≡ a.now.bases ++ drop place b.now.bases) }
    ensures tree { IfOk result (λ node. IsTree node) }
    ensures ticks { Ticks steps.old steps.new (18 * b.now.height + 3 * max a.now.height b.now.height + 13) }
{
    if a.height() <= CARRIED_MOST {
        return carried(alloc, a, b, place, steps);
    }
    let rest = back(alloc, b, place, steps)?;
    join(alloc, a, &rest, steps)
}

/// The bases of a low `a` and then those of `b` from a place on: `a` is joined at the cut, on the one way down and up.
#[tactic(auto, using(crate::proofs::Cuts::cuts))]
fn carried<L: Ledger>(
    alloc: Global,
    a: &Node,
    b: &Node,
    place: u64,
    steps: &mut Steps<L>,
) -> Result<Node, NoMemory>
    requires low { a.now.height ≤ 2 }
    requires within { place < length b.now.bases }
    requires most { length a.now.bases + (length b.now.bases - place) ≤ 2 ^ 41 }
    ensures bases { IfOk result (λ node. node.bases ≡ a.now.bases ++ drop place b.now.bases) }
    ensures tree { IfOk result (λ node. IsTree node) }
    ensures height { IfOk result (λ node. node.height ≤ b.now.height + 3) }
    ensures ticks { Ticks steps.old steps.new (18 * b.now.height + 13) }
    ensures credit { IfOk result (λ node. steps.new ≤ steps.old + 3 * node.height + 15 * b.now.height + 4) }
{
    if place == 0 {
        return join(alloc, a, b, steps);
    }
    match b.view() {
        View::Leaf(bases) => join_bases(alloc, a, &bases[place as usize..], steps),
        View::Pair(left, right) => {
            if place >= left.len() {
                return carried(alloc, a, right, place - left.len(), steps);
            }
            let first = carried(alloc, a, left, place, steps)?;
            join(alloc, &first, right, steps)
        }
    }
}

/// The bases of a low `a` and then these: one leaf where it has room for all.
fn join_bases<L: Ledger>(
    alloc: Global,
    a: &Node,
    bases: &[Base],
    steps: &mut Steps<L>,
) -> Result<Node, NoMemory>
    requires low { a.now.height ≤ 2 }
    requires some { 1 ≤ length bases.now }
    requires few { length bases.now ≤ 512 }
    requires most { length a.now.bases + length bases.now ≤ 2 ^ 41 }
    ensures bases { IfOk result (λ node. node.bases ≡ a.now.bases ++ bases.now) }
    ensures tree { IfOk result (λ node. IsTree node) }
    ensures height { IfOk result (λ node. node.height ≤ 3) }
    ensures ticks { Ticks steps.old steps.new 10 }
    ensures credit { IfOk result (λ node. steps.new ≤ steps.old + 3 * node.height + 4) }
{
    if let View::Leaf(first) = a.view()
        && first.len() + bases.len() <= LEAF_MOST
    {
        return one_leaf(alloc, first, bases, steps);
    }
    let rest = Node::leaf(alloc, bases, steps)?;
    join(alloc, a, &rest, steps)
}
