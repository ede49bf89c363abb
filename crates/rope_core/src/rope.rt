ghost use Rattle.std.specs.Prelude.{◌≡◌, ◌≢◌, ◌↔◌, ◌+◌, ◌-◌, ◌*◌, ◌/◌, ◌^◌, ◌<◌, ◌≤◌, max, [], ◌++◌, take, drop, length, slice_range, IfOk, IfNone, IfSome, IsNone, IsTrue};
ghost use Rattle.fuun_base.specs.Ticks.{Ticks};
ghost use Rattle.fuun_base.specs.Quote.{bits};
ghost use Rattle.rope_node.specs.Tree.{IsTree};
ghost use Rattle.rope_core.specs.Join.{apart};
ghost use Rattle.rope_core.specs.Rope.{no_tree, IsRope};

use crate::build::build_light;
use crate::cut::{back, front, middle};
use crate::join::join;
use crate::join_from::join_from;
use fuun_base::{Base, NoMemory, Steps};
use rope_node::Node;
use std::alloc::Global;
use std::marker::Model;
use std::sync::ledger::Ledger;

/// A list of at most 2^41 bases: empty, or a balanced tree of shared nodes.
#[derive(Drop)]
pub struct Rope {
    alloc: Global,
    root: Option<Node>,
}

impl Model for Rope {
    ghost use Rattle.rope_node.specs.Tree.{Tree};

    ghost Value = { Tree };

    ghost use Rattle.rope_core.specs.Rope.{rope_of, IsRoot};

    ghost view = { λ a. rope_of a.root };

    ghost invariant = { λ a. IsRoot a.root };
}

impl Rope {
    /// The rope of no bases.
    pub fn empty(alloc: Global) -> Rope
        ensures seen { result ≡ no_tree }
        ensures rope { IsRope result }
    {
        Rope { alloc, root: None }
    }

    fn of(alloc: Global, node: Node) -> Rope
        requires tree { IsTree node }
        requires most { length node.bases ≤ 2 ^ 41 }
        ensures seen { result ≡ node }
        ensures rope { IsRope result }
    {
        Rope {
            alloc,
            root: Some(node),
        }
    }

    /// The same rope once more. It is no step.
    pub fn share(&self) -> Result<Rope, NoMemory>
        ensures same { IfOk result (λ rope. rope ≡ self.now) }
        ensures rope { IfOk result (λ rope. IsRope rope) }
    {
        match &self.root {
            None => Ok(Rope::empty(self.alloc)),
            Some(node) => Ok(Rope::of(self.alloc, node.share()?)),
        }
    }

    /// The root: None exactly where the rope is empty.
    pub fn root(&self) -> Option<&Node>
        ensures empty { IsNone result ↔ (self.now.bases ≡ []) }
        ensures none { IfNone result (self.now ≡ no_tree) }
        ensures root { IfSome result (λ node. node.now ≡ self.now) }
        ensures most { length self.now.bases ≤ 2 ^ 41 }
    {
        self.root.as_ref()
    }

    /// How many bases it has, at most 2^41.
    pub fn len(&self) -> u64
        ensures length { result ≡ length self.now.bases }
        ensures most { length self.now.bases ≤ 2 ^ 41 }
        ensures rope { IsRope self.now }
        ensures leaves { self.now.leaves ≤ length self.now.bases }
        ensures balance { self.now.bases ≢ [] → 2 ^ self.now.height ≤ self.now.leaves * self.now.leaves }
        ensures low { self.now.height ≤ 2 * bits (length self.now.bases) }
    {
        match &self.root {
            None => 0,
            Some(node) => node.len(),
        }
    }

    pub fn is_empty(&self) -> bool
        ensures { IsTrue result ↔ (self.now.bases ≡ []) }
    {
        self.len() == 0
    }

    /// The height of its tree, at most 82, and 0 where it is empty.
    pub fn height(&self) -> u32
        ensures height { result ≡ self.now.height }
        ensures most { result ≤ 82 }
    {
        match &self.root {
            None => 0,
            Some(node) => node.height(),
        }
    }

    /// The bases of `a` and then of `b`.
    pub fn join<L: Ledger>(a: &Rope, b: &Rope, steps: &mut Steps<L>) -> Result<Rope, NoMemory>
        requires { length a.now.bases + length b.now.bases ≤ 2 ^ 41 }
        ensures rope { IfOk result (λ rope. IsRope rope) }
        ensures bases { IfOk result (λ rope. rope.bases ≡ a.now.bases ++ b.now.bases) }
        ensures ticks { Ticks steps.old steps.new (3 * apart a.now.height b.now.height + 3) }
    {
        match &a.root {
            None => b.share(),
            Some(first) => match &b.root {
                None => a.share(),
                Some(last) => Ok(Rope::of(a.alloc, join(a.alloc, first, last, steps)?)),
            },
        }
    }

    /// The bases of `a` and then those of `b` from a place on. Nothing of `b` is made that the result does not keep.
    pub fn join_from<L: Ledger>(
        a: &Rope,
        b: &Rope,
        place: u64,
        steps: &mut Steps<L>,
    ) -> Result<Rope, NoMemory>
        requires within { place ≤ length b.now.bases }
        requires most { length a.now.bases + (length b.now.bases - place) ≤ 2 ^ 41 }
        ensures rope { IfOk result (λ rope. IsRope rope) }
        ensures bases { IfOk result (λ rope. rope.bases ≡ a.now.bases ++ drop place b.now.bases) }
        ensures ticks { Ticks steps.old steps.new (64 * (b.now.height + 1) + 3 * max a.now.height b.now.height + 3) }
    {
        let Some(first) = &a.root else {
            return b.back(place, steps);
        };
        match &b.root {
            Some(last) if place < last.len() => Ok(Rope::of(
                a.alloc,
                join_from(a.alloc, first, last, place, steps)?,
            )),
            _ => a.share(),
        }
    }

    /// The bases before a place and those from it on.
    pub fn split<L: Ledger>(
        &self,
        place: u64,
        steps: &mut Steps<L>,
    ) -> Result<(Rope, Rope), NoMemory>
        requires { place ≤ length self.now.bases }
        ensures ropes { IfOk result (λ parts. IsRope parts.0 × IsRope parts.1) }
        ensures front { IfOk result (λ parts. parts.0.bases ≡ take place self.now.bases) }
        ensures back { IfOk result (λ parts. parts.1.bases ≡ drop place self.now.bases) }
        ensures ticks { Ticks steps.old steps.new (32 * (self.now.height + 1)) }
    {
        Ok((self.front(place, steps)?, self.back(place, steps)?))
    }

    fn front<L: Ledger>(&self, place: u64, steps: &mut Steps<L>) -> Result<Rope, NoMemory>
        requires { place ≤ length self.now.bases }
        ensures rope { IfOk result (λ rope. IsRope rope) }
        ensures bases { IfOk result (λ rope. rope.bases ≡ take place self.now.bases) }
        ensures ticks { Ticks steps.old steps.new (9 * self.now.height + 1) }
    {
        match &self.root {
            Some(node) if place > 0 => Ok(Rope::of(
                self.alloc,
                front(self.alloc, node, place, steps)?,
            )),
            _ => Ok(Rope::empty(self.alloc)),
        }
    }

    fn back<L: Ledger>(&self, place: u64, steps: &mut Steps<L>) -> Result<Rope, NoMemory>
        requires { place ≤ length self.now.bases }
        ensures rope { IfOk result (λ rope. IsRope rope) }
        ensures bases { IfOk result (λ rope. rope.bases ≡ drop place self.now.bases) }
        ensures ticks { Ticks steps.old steps.new (9 * self.now.height + 1) }
    {
        match &self.root {
            Some(node) if place < node.len() => Ok(Rope::of(
                self.alloc,
                back(self.alloc, node, place, steps)?,
            )),
            _ => Ok(Rope::empty(self.alloc)),
        }
    }

    /// The bases at the places from `lo` on and before `hi`.
    pub fn sub<L: Ledger>(&self, lo: u64, hi: u64, steps: &mut Steps<L>) -> Result<Rope, NoMemory>
        requires order { lo ≤ hi }
        requires within { hi ≤ length self.now.bases }
        ensures rope { IfOk result (λ rope. IsRope rope) }
        ensures bases { IfOk result (λ rope. rope.bases ≡ slice_range self.now.bases lo hi) }
        ensures ticks { Ticks steps.old steps.new (64 * (self.now.height + 1)) }
    {
        match &self.root {
            Some(node) if lo < hi => Ok(Rope::of(
                self.alloc,
                middle(self.alloc, node, lo, hi, steps)?,
            )),
            _ => Ok(Rope::empty(self.alloc)),
        }
    }

    /// The rope of these bases, each copied once.
    pub fn build<L: Ledger>(
        alloc: Global,
        bases: &[Base],
        steps: &mut Steps<L>,
    ) -> Result<Rope, NoMemory>
        requires { length bases.now ≤ 2 ^ 41 }
        ensures rope { IfOk result (λ rope. IsRope rope) }
        ensures bases { IfOk result (λ rope. rope.bases ≡ bases.now) }
        ensures ticks { Ticks steps.old steps.new (2 * (length bases.now / 512 + 1)) }
    {
        if bases.is_empty() {
            return Ok(Rope::empty(alloc));
        }
        Ok(Rope::of(alloc, build_light(alloc, bases, steps)?))
    }
}
