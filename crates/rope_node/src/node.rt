ghost use Rattle.std.specs.Prelude.{◌≡◌, ◌+◌, ◌*◌, ◌^◌, ◌≤◌, length, IfOk, OnOk, OnErr};
ghost use Rattle.fuun_base.specs.Tally.{tally_of, tally_total};
ghost use Rattle.rope_node.specs.Tree.{leaf_of, pair_of, IsNear, IsTree};

use fuun_base::{Base, NoMemory, Steps, Tally};
use std::alloc::Global;
use std::marker::Model;
use std::rc::Rc;
use std::sync::ledger::Ledger;

/// A tree over leaves of bases. Its copies share what it keeps.
#[cycle(node)]
#[derive(Drop)]
pub struct Node {
    body: Rc<Body>,
}

#[cycle(node)]
#[derive(Drop)]
enum Body {
    Leaf(Vec<Base>, Tally),
    // Left, right, length, height.
    Pair(Node, Node, u64, u32, Tally),
}

/// A node one level down: a leaf's bases, or the two sides of a pair.
#[derive(Clone, Copy)]
pub enum View<'a> {
    Leaf(&'a [Base]),
    Pair(&'a Node, &'a Node),
}

impl Model for Node {
    ghost use Rattle.rope_node.specs.Tree.{Tree};

    ghost Value = { Tree };

    ghost use Rattle.rope_node.specs.Body.{tree_of, IsKept};

    ghost view = { λ a. tree_of a.body.value };

    ghost invariant = { λ a. IsKept a.body.value };

    ghost size = { λ d. d.height };

    ghost use Rattle.std.proofs.Common.{arith};

    ghost size_decreases = { λ a h. Prim.grind arith };
}

impl Node {
    ghost use Rattle.rope_node.specs.Body.{tree_of, IsKept};
    ghost use Rattle.rope_node.specs.View.{Shows};

    /// The leaf of 1 to 512 bases. It is one step.
    pub fn leaf<L: Ledger>(
        alloc: Global,
        bases: &[Base],
        steps: &mut Steps<L>,
    ) -> Result<Node, NoMemory>
        requires some { 1 ≤ length bases.now }
        requires most { length bases.now ≤ 512 }
        ensures leaf { IfOk result (λ node. node ≡ leaf_of bases.now) }
        ensures tree { IfOk result (λ node. IsTree node) }
        ensures made { OnOk result (steps.new ≡ steps.old + 1) }
        ensures not_made { OnErr result (steps.new ≡ steps.old) }
    {
        let body = Body::Leaf(Vec::from_slice(alloc, bases)?, Tally::of(bases));
        Node::made(alloc, body, steps)
    }

    /// The node whose sides are `left` and `right`, both shared. It is one step.
    pub fn pair<L: Ledger>(
        alloc: Global,
        left: &Node,
        right: &Node,
        steps: &mut Steps<L>,
    ) -> Result<Node, NoMemory>
        requires near { IsNear left.now.height right.now.height }
        requires most { length left.now.bases + length right.now.bases ≤ 2 ^ 41 }
        ensures pair { IfOk result (λ node. node ≡ pair_of left.now right.now) }
        ensures tree { IfOk result (λ node. IsTree node) }
        ensures made { OnOk result (steps.new ≡ steps.old + 1) }
        ensures not_made { OnErr result (steps.new ≡ steps.old) }
    {
        let len = left.len() + right.len();
        let height = left.height().max(right.height()) + 1;
        let tally = left.tally().plus(right.tally());
        let body = Body::Pair(left.share()?, right.share()?, len, height, tally);
        Node::made(alloc, body, steps)
    }

    fn made<L: Ledger>(alloc: Global, body: Body, steps: &mut Steps<L>) -> Result<Node, NoMemory>
        requires { IsKept body }
        ensures seen { IfOk result (λ node. node ≡ tree_of body) }
        ensures tree { IfOk result (λ node. IsTree node) }
        ensures made { OnOk result (steps.new ≡ steps.old + 1) }
        ensures not_made { OnErr result (steps.new ≡ steps.old) }
    {
        let node = Node {
            body: Rc::new(alloc, body)?,
        };
        steps.tick();
        Ok(node)
    }

    /// The same node once more. It is no step.
    pub fn share(&self) -> Result<Node, NoMemory>
        ensures same { IfOk result (λ node. node ≡ self.now) }
        ensures tree { IfOk result (λ node. IsTree node) }
    {
        Ok(Node {
            body: self.body.clone()?,
        })
    }

    /// Its bases where it is a leaf, else its two sides.
    pub fn view(&self) -> View<'_>
        ensures { Shows result self.now }
    {
        match &*self.body {
            Body::Leaf(bases, _) => View::Leaf(bases.as_slice()),
            Body::Pair(left, right, _, _, _) => View::Pair(left, right),
        }
    }

    /// How many bases it has, 1 to 2^41.
    pub fn len(&self) -> u64
        ensures length { result ≡ length self.now.bases }
        ensures tree { IsTree self.now }
        ensures leaves { (1 ≤ self.now.leaves) × (self.now.leaves ≤ length self.now.bases) }
        ensures most { length self.now.bases ≤ 2 ^ 41 }
        ensures balance { 2 ^ self.now.height ≤ self.now.leaves * self.now.leaves }
    {
        match &*self.body {
            Body::Leaf(bases, _) => bases.len() as u64,
            Body::Pair(_, _, len, _, _) => *len,
        }
    }

    /// Its height, 0 for a leaf, at most 82.
    pub fn height(&self) -> u32
        ensures height { result ≡ self.now.height }
        ensures most { result ≤ 82 }
    {
        match &*self.body {
            Body::Leaf(_, _) => 0,
            Body::Pair(_, _, _, height, _) => *height,
        }
    }

    /// How many of each base it has.
    pub fn tally(&self) -> Tally
        ensures tally { result ≡ tally_of self.now.bases }
        ensures total { tally_total result ≡ length self.now.bases }
    {
        match &*self.body {
            Body::Leaf(_, tally) => *tally,
            Body::Pair(_, _, _, _, tally) => *tally,
        }
    }
}
