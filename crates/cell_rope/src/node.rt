ghost use Rattle.std.specs.Prelude.{◌≡◌, ◌+◌, ◌-◌, ◌^◌, ◌≤◌, ◌++◌, length, IfOk};
ghost use Rattle.sym_strand.specs.Cells.{all_known};
ghost use Rattle.cell_rope.specs.Tree.{known_leaf, target_leaf, pair_of};

use fuun_base::NoMemory;
use rope_strand::RopeStrand;
use std::alloc::Global;
use std::marker::Model;
use std::rc::Rc;
use strand::Strand;

/// A tree over stretches of cells. Its copies share what it keeps.
#[cycle(node)]
#[derive(Drop)]
pub(crate) struct Node {
    body: Rc<Body>,
}

#[cycle(node)]
#[derive(Drop)]
enum Body {
    Known(RopeStrand),
    // From the first place of the target on, and before the second.
    Target(u64, u64),
    // Left, right, length, height, and whether all is known.
    Pair(Node, Node, u64, u32, bool),
}

/// A node one level down: what a leaf holds, or the two sides of a pair.
#[derive(Clone, Copy)]
pub(crate) enum View<'a> {
    Known(&'a RopeStrand),
    Target(u64, u64),
    Pair(&'a Node, &'a Node),
}

impl Model for Node {
    ghost use Rattle.cell_rope.specs.Tree.{Tree};

    ghost Value = { Tree };

    ghost use Rattle.cell_rope.specs.Body.{tree_of, IsKept};

    ghost view = { λ a. tree_of a.body.value };

    ghost invariant = { λ a. IsKept a.body.value };

    ghost size = { λ d. d.levels };

    ghost use Rattle.std.proofs.Common.{arith};

    ghost size_decreases = { λ a h. Prim.grind arith };
}

impl Node {
    ghost use Rattle.cell_rope.specs.Body.{tree_of, IsKept};
    ghost use Rattle.cell_rope.specs.View.{Shows};

    /// The leaf of bases.
    #[tactic(auto, using(crate::proofs::Pieces::pieces))]
    pub(crate) fn known(alloc: Global, strand: RopeStrand) -> Result<Node, NoMemory>
        ensures { IfOk result (λ node. node ≡ known_leaf strand.bases) }
    {
        let _len = strand.len();
        Node::made(alloc, Body::Known(strand))
    }

    /// The leaf of a range of the target.
    pub(crate) fn target(alloc: Global, lo: u64, hi: u64) -> Result<Node, NoMemory>
        requires order { lo ≤ hi }
        requires most { hi - lo ≤ 2 ^ 41 }
        ensures { IfOk result (λ node. node ≡ target_leaf lo hi) }
    {
        Node::made(alloc, Body::Target(lo, hi))
    }

    /// The node whose sides are `left` and `right`, both shared.
    pub(crate) fn pair(alloc: Global, left: &Node, right: &Node) -> Result<Node, NoMemory>
        requires { length left.now.cells + length right.now.cells ≤ 2 ^ 41 }
        ensures { IfOk result (λ node. node ≡ pair_of left.now right.now) }
    {
        let len = left.len() + right.len();
        let height = left.height().max(right.height()).saturating_add(1);
        let known = both_known(left, right);
        let body = Body::Pair(left.share()?, right.share()?, len, height, known);
        Node::made(alloc, body)
    }

    fn made(alloc: Global, body: Body) -> Result<Node, NoMemory>
        requires { IsKept body }
        ensures { IfOk result (λ node. node ≡ tree_of body) }
    {
        Ok(Node {
            body: Rc::new(alloc, body)?,
        })
    }

    /// The same node once more.
    pub(crate) fn share(&self) -> Result<Node, NoMemory>
        ensures { IfOk result (λ node. node ≡ self.now) }
    {
        Ok(Node {
            body: self.body.clone()?,
        })
    }

    /// What it holds where it is a leaf, else its two sides.
    pub(crate) fn view(&self) -> View<'_>
        ensures { Shows result self.now }
    {
        match &*self.body {
            Body::Known(strand) => View::Known(strand),
            Body::Target(lo, hi) => View::Target(*lo, *hi),
            Body::Pair(left, right, _, _, _) => View::Pair(left, right),
        }
    }

    /// How many cells it has.
    #[tactic(auto, using(crate::proofs::Pieces::pieces))]
    pub(crate) fn len(&self) -> u64
        ensures length { result ≡ length self.now.cells }
        ensures most { length self.now.cells ≤ 2 ^ 41 }
    {
        match &*self.body {
            Body::Known(strand) => strand.len(),
            Body::Target(lo, hi) => hi - lo,
            Body::Pair(_, _, len, _, _) => *len,
        }
    }

    /// Its height, by which it is balanced: 0 for a leaf.
    pub(crate) fn height(&self) -> u32 {
        match &*self.body {
            Body::Known(_) | Body::Target(_, _) => 0,
            Body::Pair(_, _, _, height, _) => *height,
        }
    }

    /// Whether it has no place of the target.
    #[tactic(auto, using(crate::proofs::Pieces::pieces))]
    pub(crate) fn all_known(&self) -> bool
        ensures { result ≡ all_known self.now.cells }
    {
        match &*self.body {
            Body::Known(_) => true,
            Body::Target(lo, hi) => lo == hi,
            Body::Pair(_, _, _, _, known) => *known,
        }
    }
}

#[tactic(auto, using(crate::proofs::Pieces::pieces))]
fn both_known(left: &Node, right: &Node) -> bool
    ensures { result ≡ all_known (left.now.cells ++ right.now.cells) }
{
    if left.all_known() {
        right.all_known()
    } else {
        false
    }
}
