ghost use Rattle.std.specs.Prelude.{◌≡◌, ◌+◌, ◌^◌, ◌≤◌, ◌++◌, length, IfOk};

use crate::node::{Node, View};
use fuun_base::NoMemory;
use std::alloc::Global;

/// The node of two sides, turned where one of them is two higher.
pub(crate) fn settle(alloc: Global, left: &Node, right: &Node) -> Result<Node, NoMemory>
    requires { length left.now.cells + length right.now.cells ≤ 2 ^ 41 }
    ensures { IfOk result (λ node. node.cells ≡ left.now.cells ++ right.now.cells) }
{
    if right.height() > left.height().saturating_add(1) {
        return settle_right(alloc, left, right);
    }
    if left.height() > right.height().saturating_add(1) {
        return settle_left(alloc, left, right);
    }
    Node::pair(alloc, left, right)
}

/// The node of two sides of which the right one is two higher.
fn settle_right(alloc: Global, left: &Node, right: &Node) -> Result<Node, NoMemory>
    requires { length left.now.cells + length right.now.cells ≤ 2 ^ 41 }
    ensures { IfOk result (λ node. node.cells ≡ left.now.cells ++ right.now.cells) }
{
    let View::Pair(middle, last) = right.view() else {
        return Node::pair(alloc, left, right);
    };
    if middle.height() <= last.height() {
        let first = Node::pair(alloc, left, middle)?;
        return Node::pair(alloc, &first, last);
    }
    let View::Pair(second, third) = middle.view() else {
        return Node::pair(alloc, left, right);
    };
    two_pairs(alloc, left, second, third, last)
}

/// The node of two sides of which the left one is two higher.
fn settle_left(alloc: Global, left: &Node, right: &Node) -> Result<Node, NoMemory>
    requires { length left.now.cells + length right.now.cells ≤ 2 ^ 41 }
    ensures { IfOk result (λ node. node.cells ≡ left.now.cells ++ right.now.cells) }
{
    let View::Pair(first, middle) = left.view() else {
        return Node::pair(alloc, left, right);
    };
    if middle.height() <= first.height() {
        let last = Node::pair(alloc, middle, right)?;
        return Node::pair(alloc, first, &last);
    }
    let View::Pair(second, third) = middle.view() else {
        return Node::pair(alloc, left, right);
    };
    two_pairs(alloc, first, second, third, right)
}

/// The pair of two pairs.
fn two_pairs(
    alloc: Global,
    first: &Node,
    second: &Node,
    third: &Node,
    last: &Node,
) -> Result<Node, NoMemory>
    requires { length first.now.cells + length second.now.cells + length third.now.cells + length last.now.cells ≤ 2 ^ 41 }
    ensures { IfOk result (λ node. node.cells ≡ (first.now.cells ++ second.now.cells) ++ (third.now.cells ++ last.now.cells)) }
{
    let left = Node::pair(alloc, first, second)?;
    let right = Node::pair(alloc, third, last)?;
    Node::pair(alloc, &left, &right)
}
