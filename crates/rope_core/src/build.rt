ghost use Rattle.std.specs.Prelude.{◌≡◌, ◌+◌, ◌*◌, ◌^◌, ◌<◌, ◌≤◌, length, IfOk};
ghost use Rattle.rope_node.specs.Tree.{IsTree};
ghost use Rattle.rope_core.specs.Join.{leaves_for};

use crate::join::LEAF_MOST;
use fuun_base::{Base, NoMemory, Steps};
use rope_node::Node;
use std::alloc::Global;
use std::sync::ledger::Ledger;

/// The node of these bases over full leaves, of which the last alone may be shorter.
pub(crate) fn build<L: Ledger>(
    alloc: Global,
    bases: &[Base],
    steps: &mut Steps<L>,
) -> Result<Node, NoMemory>
    requires some { 1 ≤ length bases.now }
    requires most { length bases.now ≤ 2 ^ 41 }
    ensures bases { IfOk result (λ node. node.bases ≡ bases.now) }
    ensures tree { IfOk result (λ node. IsTree node) }
    ensures high { IfOk result (λ node. leaves_for (length bases.now) ≤ 2 ^ node.height) }
    ensures low { IfOk result (λ node. 2 ^ node.height < 2 * leaves_for (length bases.now)) }
    ensures rises { steps.old ≤ steps.new }
    ensures ticks { steps.new + 1 ≤ steps.old + 2 * leaves_for (length bases.now) }
{
    if bases.len() <= LEAF_MOST {
        return Node::leaf(alloc, bases, steps);
    }
    let leaves = bases.len().div_ceil(LEAF_MOST);
    let (first, last) = bases.split_at(leaves / 2 * LEAF_MOST);
    let left = build(alloc, first, steps)?;
    let right = build(alloc, last, steps)?;
    Node::pair(alloc, &left, &right, steps)
}

/// The node of these bases over full leaves, as `build` makes it, but with a short path to the
/// front: the first third of the leaves stand on the left, and so on along the left side.
pub(crate) fn build_light<L: Ledger>(
    alloc: Global,
    bases: &[Base],
    steps: &mut Steps<L>,
) -> Result<Node, NoMemory>
    requires some { 1 ≤ length bases.now }
    requires most { length bases.now ≤ 2 ^ 41 }
    ensures bases { IfOk result (λ node. node.bases ≡ bases.now) }
    ensures tree { IfOk result (λ node. IsTree node) }
    ensures high { IfOk result (λ node. leaves_for (length bases.now) ≤ 2 ^ node.height) }
    ensures low { IfOk result (λ node. 3 * 2 ^ node.height ≤ 8 * leaves_for (length bases.now)) }
    ensures rises { steps.old ≤ steps.new }
    ensures ticks { steps.new + 1 ≤ steps.old + 2 * leaves_for (length bases.now) }
{
    if bases.len() <= LEAF_MOST {
        return Node::leaf(alloc, bases, steps);
    }
    let leaves = bases.len().div_ceil(LEAF_MOST);
    let (first, last) = bases.split_at(leaves.div_ceil(3) * LEAF_MOST);
    let left = build_light(alloc, first, steps)?;
    let right = build(alloc, last, steps)?;
    Node::pair(alloc, &left, &right, steps)
}
