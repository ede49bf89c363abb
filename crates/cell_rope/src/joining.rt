ghost use Rattle.std.specs.Prelude.{◌≡◌, ◌+◌, ◌^◌, ◌≤◌, ◌++◌, length, IfOk, MatchOption};

use crate::node::{Node, View};
use crate::settling::settle;
use fuun_base::{NoMemory, Steps};
use rope_strand::RopeStrand;
use std::alloc::Global;
use std::sync::ledger::Ledger;
use strand::Strand;

/// Joins two nodes. The two leaves that meet become one where one can stand for both.
pub(crate) fn join<L: Ledger>(
    alloc: Global,
    a: &Node,
    b: &Node,
    steps: &mut Steps<L>,
) -> Result<Node, NoMemory>
    requires { length a.now.cells + length b.now.cells ≤ 2 ^ 41 }
    ensures { IfOk result (λ node. node.cells ≡ a.now.cells ++ b.now.cells) }
{
    let (first, rest) = parted(alloc, b)?;
    let front = push(alloc, a, &first, steps)?;
    match rest {
        None => Ok(front),
        Some(rest) => link(alloc, &front, &rest),
    }
}

/// Joins two nodes whose leaves stay as they are. It goes down the higher side, and turns on the way back.
pub(crate) fn link(alloc: Global, a: &Node, b: &Node) -> Result<Node, NoMemory>
    requires { length a.now.cells + length b.now.cells ≤ 2 ^ 41 }
    ensures { IfOk result (λ node. node.cells ≡ a.now.cells ++ b.now.cells) }
{
    if a.height() > b.height().saturating_add(1)
        && let View::Pair(left, right) = a.view()
    {
        let last = link(alloc, right, b)?;
        return settle(alloc, left, &last);
    }
    if b.height() > a.height().saturating_add(1)
        && let View::Pair(left, right) = b.view()
    {
        let first = link(alloc, a, left)?;
        return settle(alloc, &first, right);
    }
    Node::pair(alloc, a, b)
}

/// The first leaf of a node, and what stands behind it.
fn parted(alloc: Global, node: &Node) -> Result<(Node, Option<Node>), NoMemory>
    ensures { IfOk result (λ parts. MatchOption parts.1
        (node.now.cells ≡ parts.0.cells)
        (λ rest. node.now.cells ≡ parts.0.cells ++ rest.cells)) }
{
    let View::Pair(left, right) = node.view() else {
        return Ok((node.share()?, None));
    };
    let _len = node.len();
    let (first, rest) = parted(alloc, left)?;
    match rest {
        None => Ok((first, Some(right.share()?))),
        Some(rest) => Ok((first, Some(settle(alloc, &rest, right)?))),
    }
}

/// Puts a leaf behind a node.
fn push<L: Ledger>(
    alloc: Global,
    node: &Node,
    leaf: &Node,
    steps: &mut Steps<L>,
) -> Result<Node, NoMemory>
    requires { length node.now.cells + length leaf.now.cells ≤ 2 ^ 41 }
    ensures { IfOk result (λ made. made.cells ≡ node.now.cells ++ leaf.now.cells) }
{
    let View::Pair(left, right) = node.view() else {
        return meet(alloc, node, leaf, steps);
    };
    let last = push(alloc, right, leaf, steps)?;
    settle(alloc, left, &last)
}

/// One leaf for two where it can stand for both, else their pair.
#[tactic(auto, using(crate::proofs::Pieces::met))]
fn meet<L: Ledger>(
    alloc: Global,
    a: &Node,
    b: &Node,
    steps: &mut Steps<L>,
) -> Result<Node, NoMemory>
    requires { length a.now.cells + length b.now.cells ≤ 2 ^ 41 }
    ensures { IfOk result (λ node. node.cells ≡ a.now.cells ++ b.now.cells) }
{
    match (a.view(), b.view()) {
        (View::Known(front), View::Known(back)) => {
            Node::known(alloc, RopeStrand::join(front, back, steps)?)
        }
        (View::Target(lo, seam), View::Target(from, hi)) if seam == from => {
            Node::target(alloc, lo, hi)
        }
        _ => Node::pair(alloc, a, b),
    }
}
