ghost use Rattle.std.specs.Prelude.{◌≡◌, ℕ, ◌*◌, ◌^◌, ◌≤◌, length, slice_range, IfOk};
ghost use Rattle.fuun_base.specs.Quote.{quote, bits};
ghost use Rattle.rope_strand.specs.Height.{bound_rises};

use crate::copying::copy_from;
use crate::counting::tally_within;
use crate::quoting::quote_within;
use fuun_base::{Base, NoMemory, Steps, Tally};
use rope_core::Rope;
use rope_search::KmpTable;
use std::alloc::Global;
use std::marker::Model;
use std::sync::ledger::Ledger;
use strand::{Strand, requoted};

/// The most bases that a quoted range may have.
const QUOTED_MOST: u64 = 1 << 40;

/// A rope as a strand: it is seen as that rope.
#[derive(Drop)]
pub struct RopeStrand {
    alloc: Global,
    rope: Rope,
}

impl Model for RopeStrand {
    ghost use Rattle.rope_node.specs.Tree.{Tree};

    ghost Value = { Tree };

    ghost view = { λ strand. strand.rope };
}

impl RopeStrand {
    /// The strand of a rope, with the allocator for what is searched and quoted.
    pub fn new(alloc: Global, rope: Rope) -> RopeStrand
        ensures { result ≡ rope }
    {
        RopeStrand { alloc, rope }
    }

    pub fn rope(&self) -> &Rope
        ensures { result.now ≡ self.now }
    {
        &self.rope
    }

    /// The range from `lo` to `hi`, quoted once: measured first, so that the vector never grows.
    fn quoted_once(&self, lo: u64, hi: u64) -> Result<Vec<Base>, NoMemory>
        requires order { lo ≤ hi }
        requires within { hi ≤ length self.now.bases }
        requires small { length (quote (slice_range self.now.bases lo hi)) ≤ 2 ^ 40 }
        ensures { IfOk result (λ quoted. quoted.items ≡ quote (slice_range self.now.bases lo hi)) }
    {
        let Some(len) = self.tally(lo, hi).quoted_len(1, QUOTED_MOST) else {
            unreachable!()
        };
        let mut quoted = Vec::with_capacity(self.alloc, len as usize)?;
        if let Some(node) = self.rope.root() {
            quote_within(node, lo, hi, &mut quoted)?;
        }
        Ok(quoted)
    }
}

impl Strand for RopeStrand {
    ghost bases = { λ strand. strand.bases };

    ghost height = { λ strand. strand.height };

    ghost height_bound = { λ len. 2 * bits len };

    ghost bound_rises = { bound_rises };

    fn empty(alloc: Global) -> Self {
        RopeStrand::new(alloc, Rope::empty(alloc))
    }

    fn share(&self) -> Result<Self, NoMemory> {
        Ok(RopeStrand::new(self.alloc, self.rope.share()?))
    }

    fn len(&self) -> u64 {
        self.rope.len()
    }

    fn copy_out(&self, place: u64, buf: &mut [Base]) -> usize {
        match self.rope.root() {
            Some(node) if place < node.len() => copy_from(node, place, buf),
            _ => 0,
        }
    }

    fn find(&self, needle: &[Base], lo: u64) -> Result<Option<u64>, NoMemory> {
        Ok(KmpTable::new(self.alloc, needle)?.find_in(&self.rope, lo))
    }

    fn sub<L: Ledger>(&self, lo: u64, hi: u64, steps: &mut Steps<L>) -> Result<Self, NoMemory> {
        Ok(RopeStrand::new(self.alloc, self.rope.sub(lo, hi, steps)?))
    }

    fn join<L: Ledger>(a: &Self, b: &Self, steps: &mut Steps<L>) -> Result<Self, NoMemory> {
        let joined = Rope::join(&a.rope, &b.rope, steps)?;
        Ok(RopeStrand::new(a.alloc, joined))
    }

    fn join_from<L: Ledger>(
        a: &Self,
        b: &Self,
        place: u64,
        steps: &mut Steps<L>,
    ) -> Result<Self, NoMemory> {
        let joined = Rope::join_from(&a.rope, &b.rope, place, steps)?;
        Ok(RopeStrand::new(a.alloc, joined))
    }

    fn build<L: Ledger>(
        alloc: Global,
        items: &[Base],
        steps: &mut Steps<L>,
    ) -> Result<Self, NoMemory> {
        Ok(RopeStrand::new(alloc, Rope::build(alloc, items, steps)?))
    }

    fn tally(&self, lo: u64, hi: u64) -> Tally {
        match self.rope.root() {
            Some(node) => tally_within(node, lo, hi),
            None => Tally::of(&[]),
        }
    }

    fn quoted<L: Ledger>(
        &self,
        lo: u64,
        hi: u64,
        level: u64,
        steps: &mut Steps<L>,
    ) -> Result<Self, NoMemory> {
        if level == 0 {
            return self.sub(lo, hi, steps);
        }
        let once = self.quoted_once(lo, hi)?;
        let bases = requoted(self.alloc, once, level - 1)?;
        Self::build(self.alloc, bases.as_slice(), steps)
    }
}
