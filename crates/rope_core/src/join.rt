ghost use Rattle.std.specs.Prelude.{◌≡◌, ◌+◌, ◌*◌, ◌^◌, ◌<◌, ◌≤◌, max, ◌++◌, length, IsTrue, IsFalse, IfOk};
ghost use Rattle.fuun_base.specs.Ticks.{Ticks};
ghost use Rattle.rope_node.specs.Tree.{IsNear, IsTree};
ghost use Rattle.rope_core.specs.Join.{apart, IsJoinedHeight};

use fuun_base::{Base, NoMemory, Steps};
use rope_node::{Node, View};
use std::alloc::Global;
use std::sync::ledger::Ledger;

pub(crate) const LEAF_MOST: usize = 512;

/// The node of the bases of `a` and then of `b`. It goes down the higher side, and turns on the way back.
pub(crate) fn join<L: Ledger>(
    alloc: Global,
    a: &Node,
    b: &Node,
    steps: &mut Steps<L>,
) -> Result<Node, NoMemory>
    requires { length a.now.bases + length b.now.bases ≤ 2 ^ 41 }
    ensures bases { IfOk result (λ node. node.bases ≡ a.now.bases ++ b.now.bases) }
    ensures tree { IfOk result (λ node. IsTree node) }
    ensures height { IfOk result (λ node. IsJoinedHeight a.now.height b.now.height node.height) }
    ensures ticks { Ticks steps.old steps.new (3 * apart a.now.height b.now.height + 3) }
{
    if goes_down_right(a, b) {
        let View::Pair(left, right) = a.view() else {
            unreachable!()
        };
        let right = join(alloc, right, b, steps)?;
        return settle_right(alloc, left, &right, steps);
    }
    if goes_down_left(a, b) {
        let View::Pair(left, right) = b.view() else {
            unreachable!()
        };
        let left = join(alloc, a, left, steps)?;
        return settle_left(alloc, &left, right, steps);
    }
    meet(alloc, a, b, steps)
}

/// Whether `b` is joined to the right side of `a`: `a` is too high to be its neighbour, or ends with a leaf that takes it in.
fn goes_down_right(a: &Node, b: &Node) -> bool
    ensures lower { IsTrue result → b.now.height + 1 ≤ a.now.height }
    ensures not_lowest { IsTrue result → 0 < b.now.height → b.now.height + 2 ≤ a.now.height }
    ensures near { IsFalse result → a.now.height ≤ b.now.height + 1 }
{
    if a.height() > b.height() + 1 {
        return true;
    }
    match a.view() {
        View::Pair(_, last) => is_leaf_with(last, b),
        View::Leaf(_) => false,
    }
}

/// Whether `a` is joined to the left side of `b`.
fn goes_down_left(a: &Node, b: &Node) -> bool
    ensures lower { IsTrue result → a.now.height + 1 ≤ b.now.height }
    ensures not_lowest { IsTrue result → 0 < a.now.height → a.now.height + 2 ≤ b.now.height }
    ensures near { IsFalse result → b.now.height ≤ a.now.height + 1 }
{
    if b.height() > a.height() + 1 {
        return true;
    }
    match b.view() {
        View::Pair(first, _) => is_leaf_with(first, a),
        View::Leaf(_) => false,
    }
}

/// Whether both are leaves whose bases fit one leaf.
fn is_leaf_with(a: &Node, b: &Node) -> bool
    ensures left { IsTrue result → a.now.height ≡ 0 }
    ensures right { IsTrue result → b.now.height ≡ 0 }
{
    b.height() == 0 && a.height() == 0 && a.len() + b.len() <= LEAF_MOST as u64
}

/// Joins two nodes of nearly one height: one leaf where they are leaves that fit, else their pair.
fn meet<L: Ledger>(
    alloc: Global,
    a: &Node,
    b: &Node,
    steps: &mut Steps<L>,
) -> Result<Node, NoMemory>
    requires near { IsNear a.now.height b.now.height }
    requires most { length a.now.bases + length b.now.bases ≤ 2 ^ 41 }
    ensures bases { IfOk result (λ node. node.bases ≡ a.now.bases ++ b.now.bases) }
    ensures tree { IfOk result (λ node. IsTree node) }
    ensures height { IfOk result (λ node. IsJoinedHeight a.now.height b.now.height node.height) }
    ensures ticks { Ticks steps.old steps.new 1 }
{
    if let View::Leaf(first) = a.view()
        && let View::Leaf(last) = b.view()
        && first.len() + last.len() <= LEAF_MOST
    {
        return one_leaf(alloc, first, last, steps);
    }
    Node::pair(alloc, a, b, steps)
}

/// The leaf of two leaves' bases, put together on the stack.
pub(crate) fn one_leaf<L: Ledger>(
    alloc: Global,
    first: &[Base],
    last: &[Base],
    steps: &mut Steps<L>,
) -> Result<Node, NoMemory>
    requires some { 1 ≤ length first.now }
    requires most { length first.now + length last.now ≤ 512 }
    ensures bases { IfOk result (λ node. node.bases ≡ first.now ++ last.now) }
    ensures tree { IfOk result (λ node. IsTree node) }
    ensures height { IfOk result (λ node. node.height ≡ 0) }
    ensures ticks { Ticks steps.old steps.new 1 }
{
    let len = first.len() + last.len();
    let mut bases = [Base::I; LEAF_MOST];
    put_both(first, last, &mut bases[..len]);
    Node::leaf(alloc, &bases[..len], steps)
}

/// Fills a buffer with two lists, one after the other.
fn put_both(first: &[Base], last: &[Base], buf: &mut [Base])
    requires { length buf.old ≡ length first.now + length last.now }
    ensures { buf.new ≡ first.now ++ last.now }
{
    let seam = first.len();
    buf[..seam].copy_from_slice(first);
    buf[seam..].copy_from_slice(last);
}

/// The node of two sides of which the right one may be two higher.
fn settle_right<L: Ledger>(
    alloc: Global,
    left: &Node,
    right: &Node,
    steps: &mut Steps<L>,
) -> Result<Node, NoMemory>
    requires lower { left.now.height ≤ right.now.height + 1 }
    requires higher { right.now.height ≤ left.now.height + 2 }
    requires most { length left.now.bases + length right.now.bases ≤ 2 ^ 41 }
    ensures bases { IfOk result (λ node. node.bases ≡ left.now.bases ++ right.now.bases) }
    ensures tree { IfOk result (λ node. IsTree node) }
    ensures paired { IfOk result (λ node. right.now.height ≤ left.now.height + 1 → node.height ≡ max left.now.height right.now.height + 1) }
    ensures turned { IfOk result (λ node. IsJoinedHeight left.now.height right.now.height node.height) }
    ensures ticks { Ticks steps.old steps.new 3 }
{
    if right.height() <= left.height() + 1 {
        return Node::pair(alloc, left, right, steps);
    }
    let View::Pair(middle, last) = right.view() else {
        unreachable!()
    };
    if middle.height() <= last.height() {
        let first = Node::pair(alloc, left, middle, steps)?;
        return Node::pair(alloc, &first, last, steps);
    }
    let View::Pair(second, third) = middle.view() else {
        unreachable!()
    };
    two_pairs(alloc, left, second, third, last, steps)
}

/// The node of two sides of which the left one may be two higher.
fn settle_left<L: Ledger>(
    alloc: Global,
    left: &Node,
    right: &Node,
    steps: &mut Steps<L>,
) -> Result<Node, NoMemory>
    requires lower { right.now.height ≤ left.now.height + 1 }
    requires higher { left.now.height ≤ right.now.height + 2 }
    requires most { length left.now.bases + length right.now.bases ≤ 2 ^ 41 }
    ensures bases { IfOk result (λ node. node.bases ≡ left.now.bases ++ right.now.bases) }
    ensures tree { IfOk result (λ node. IsTree node) }
    ensures paired { IfOk result (λ node. left.now.height ≤ right.now.height + 1 → node.height ≡ max left.now.height right.now.height + 1) }
    ensures turned { IfOk result (λ node. IsJoinedHeight left.now.height right.now.height node.height) }
    ensures ticks { Ticks steps.old steps.new 3 }
{
    if left.height() <= right.height() + 1 {
        return Node::pair(alloc, left, right, steps);
    }
    let View::Pair(first, middle) = left.view() else {
        unreachable!()
    };
    if middle.height() <= first.height() {
        let last = Node::pair(alloc, middle, right, steps)?;
        return Node::pair(alloc, first, &last, steps);
    }
    let View::Pair(second, third) = middle.view() else {
        unreachable!()
    };
    two_pairs(alloc, first, second, third, right, steps)
}

/// The pair of two pairs.
fn two_pairs<L: Ledger>(
    alloc: Global,
    first: &Node,
    second: &Node,
    third: &Node,
    last: &Node,
    steps: &mut Steps<L>,
) -> Result<Node, NoMemory>
    requires left { IsNear first.now.height second.now.height }
    requires right { IsNear third.now.height last.now.height }
    requires near { IsNear (max first.now.height second.now.height) (max third.now.height last.now.height) }
    requires most { length first.now.bases + length second.now.bases + length third.now.bases + length last.now.bases ≤ 2 ^ 41 }
    ensures bases { IfOk result (λ node. node.bases ≡ (first.now.bases ++ second.now.bases) ++ (third.now.bases ++ last.now.bases)) }
    ensures tree { IfOk result (λ node. IsTree node) }
    ensures height { IfOk result (λ node. node.height ≡ max (max first.now.height second.now.height) (max third.now.height last.now.height) + 2) }
    ensures ticks { Ticks steps.old steps.new 3 }
{
    let left = Node::pair(alloc, first, second, steps)?;
    let right = Node::pair(alloc, third, last, steps)?;
    Node::pair(alloc, &left, &right, steps)
}
