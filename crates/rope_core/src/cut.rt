ghost use Rattle.std.specs.Prelude.{◌≡◌, ◌+◌, ◌-◌, ◌*◌, ◌^◌, ◌<◌, ◌≤◌, take, drop, length, slice_range, IfOk};
ghost use Rattle.fuun_base.specs.Ticks.{Ticks};
ghost use Rattle.rope_node.specs.Tree.{IsTree};

use crate::join::join;
use fuun_base::{NoMemory, Steps};
use rope_node::{Node, View};
use std::alloc::Global;
use std::sync::ledger::Ledger;

/// The first bases of a node, 1 or more of them.
#[tactic(auto, using(crate::proofs::Cuts::cuts))]
pub(crate) fn front<L: Ledger>(
    alloc: Global,
    node: &Node,
    place: u64,
    steps: &mut Steps<L>,
) -> Result<Node, NoMemory>
    requires some { 1 ≤ place }
    requires within { place ≤ length node.now.bases }
    ensures bases { IfOk result (λ part. part.bases ≡ take place node.now.bases) }
    ensures tree { IfOk result (λ part. IsTree part) }
    ensures height { IfOk result (λ part. part.height ≤ node.now.height) }
    ensures ticks { Ticks steps.old steps.new (9 * node.now.height + 1) }
    ensures credit { IfOk result (λ part. steps.new ≤ steps.old + 3 * part.height + 6 * node.now.height + 1) }
{
    if place == node.len() {
        return node.share();
    }
    match node.view() {
        View::Leaf(bases) => Node::leaf(alloc, &bases[..place as usize], steps),
        View::Pair(left, right) => {
            if place <= left.len() {
                return front(alloc, left, place, steps);
            }
            let part = front(alloc, right, place - left.len(), steps)?;
            join(alloc, left, &part, steps)
        }
    }
}

/// The bases of a node from a place on, 1 or more of them.
#[tactic(auto, using(crate::proofs::Cuts::cuts))]
pub(crate) fn back<L: Ledger>(
    alloc: Global,
    node: &Node,
    place: u64,
    steps: &mut Steps<L>,
) -> Result<Node, NoMemory>
    requires within { place < length node.now.bases }
    requires most { length node.now.bases ≤ 2 ^ 41 }
    ensures bases { IfOk result (λ part. part.bases ≡ drop place node.now.bases) }
    ensures tree { IfOk result (λ part. IsTree part) }
    ensures height { IfOk result (λ part. part.height ≤ node.now.height) }
    ensures ticks { Ticks steps.old steps.new (9 * node.now.height + 1) }
    ensures credit { IfOk result (λ part. steps.new ≤ steps.old + 3 * part.height + 6 * node.now.height + 1) }
{
    if place == 0 {
        return node.share();
    }
    match node.view() {
        View::Leaf(bases) => Node::leaf(alloc, &bases[place as usize..], steps),
        View::Pair(left, right) => {
            if place >= left.len() {
                return back(alloc, right, place - left.len(), steps);
            }
            let part = back(alloc, left, place, steps)?;
            join(alloc, &part, right, steps)
        }
    }
}

/// The bases of a node in a range of places, 1 or more of them.
#[tactic(auto, using(crate::proofs::Cuts::cuts))]
pub(crate) fn middle<L: Ledger>(
    alloc: Global,
    node: &Node,
    lo: u64,
    hi: u64,
    steps: &mut Steps<L>,
) -> Result<Node, NoMemory>
    requires some { lo < hi }
    requires within { hi ≤ length node.now.bases }
    ensures bases { IfOk result (λ part. part.bases ≡ slice_range node.now.bases lo hi) }
    ensures tree { IfOk result (λ part. IsTree part) }
    ensures ticks { Ticks steps.old steps.new (24 * node.now.height + 1) }
{
    if lo == 0 {
        return front(alloc, node, hi, steps);
    }
    if hi == node.len() {
        return back(alloc, node, lo, steps);
    }
    match node.view() {
        View::Leaf(bases) => Node::leaf(alloc, &bases[lo as usize..hi as usize], steps),
        View::Pair(left, right) => {
            let seam = left.len();
            if hi <= seam {
                return middle(alloc, left, lo, hi, steps);
            }
            if lo >= seam {
                return middle(alloc, right, lo - seam, hi - seam, steps);
            }
            let first = back(alloc, left, lo, steps)?;
            let last = front(alloc, right, hi - seam, steps)?;
            join(alloc, &first, &last, steps)
        }
    }
}
