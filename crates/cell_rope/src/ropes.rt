ghost use Rattle.std.specs.Prelude.{◌≡◌, ◌+◌, ◌^◌, ◌<◌, ◌≤◌, ◌++◌, [], drop, length, map, slice_get, slice_range, IfOk};
ghost use Rattle.sym_strand.specs.Cells.{all_known, known_front, start_cells, places_from};
ghost use Rattle.sym_strand.specs.Segments.{StandFor};
ghost use Rattle.sym_strand.specs.declared.cells.Cell.TheVariants.{Known};
ghost use Rattle.cell_rope.specs.Stretches.{BeginsWith};

use crate::Stretch;
use crate::cells::cell_at;
use crate::cutting::cut;
use crate::fronts::known_front;
use crate::joining::join;
use crate::node::Node;
use crate::stretches::stretch_at;
use crate::writing::put_node;
use fuun_base::{Base, NoMemory, Steps};
use rope_strand::RopeStrand;
use std::alloc::Global;
use std::marker::Model;
use std::sync::ledger::Ledger;
use strand::Strand;
use sym_strand::{Cell, SegList, SymDna};

/// DNA of which a part is not known, seen as its cells: at most 2^41. It is never changed once it is made, so that parts
/// of it are shared.
#[derive(Drop)]
pub struct CellRope {
    alloc: Global,
    node: Node,
}

impl Model for CellRope {
    ghost use Rattle.std.specs.Prelude.{List};
    ghost use Rattle.sym_strand.specs.declared.cells.Cell.{Cell};

    ghost Value = { List Cell };

    ghost view = { λ rope. rope.node.cells };
}

impl CellRope {
    /// The bases of a prefix, and then a target of so many bases of which nothing is known.
    #[tactic(auto, using(crate::proofs::Pieces::pieces))]
    pub fn start<L: Ledger>(
        alloc: Global,
        prefix: &[Base],
        target: u64,
        steps: &mut Steps<L>,
    ) -> Result<CellRope, NoMemory>
        requires { length prefix.now + target ≤ 2 ^ 41 }
        ensures { IfOk result (λ rope. rope ≡ start_cells prefix.now target) }
    {
        let front = CellRope::of_known(alloc, RopeStrand::build(alloc, prefix, steps)?)?;
        let back = CellRope::of_target(alloc, target)?;
        CellRope::join(&front, &back, steps)
    }

    /// No cells.
    #[tactic(auto, unfolding(sym_strand::specs::Cells::places_from))]
    pub fn empty(alloc: Global) -> Result<CellRope, NoMemory>
        ensures { IfOk result (λ rope. rope ≡ []) }
    {
        CellRope::of_target(alloc, 0)
    }

    /// The bases of a strand.
    pub fn of_known(alloc: Global, strand: RopeStrand) -> Result<CellRope, NoMemory>
        ensures { IfOk result (λ rope. rope ≡ map Known strand.bases) }
    {
        Ok(CellRope {
            alloc,
            node: Node::known(alloc, strand)?,
        })
    }

    fn of_target(alloc: Global, len: u64) -> Result<CellRope, NoMemory>
        requires { len ≤ 2 ^ 41 }
        ensures { IfOk result (λ rope. rope ≡ places_from 0 len) }
    {
        Ok(CellRope {
            alloc,
            node: Node::target(alloc, 0, len)?,
        })
    }

    /// The same cells once more. Nothing is copied.
    pub fn share(&self) -> Result<CellRope, NoMemory>
        ensures { IfOk result (λ rope. rope ≡ self.now) }
    {
        Ok(CellRope {
            alloc: self.alloc,
            node: self.node.share()?,
        })
    }

    /// How many cells it has.
    pub fn len(&self) -> u64
        ensures length { result ≡ length self.now }
        ensures most { length self.now ≤ 2 ^ 41 }
    {
        self.node.len()
    }

    /// The cell at a place: None exactly at or past the length.
    pub fn cell(&self, place: u64) -> Option<Cell>
        ensures { result ≡ slice_get self.now place }
    {
        if place < self.len() {
            Some(cell_at(&self.node, place))
        } else {
            None
        }
    }

    /// Whether it has no place of the target.
    pub fn all_known(&self) -> bool
        ensures { result ≡ all_known self.now }
    {
        self.node.all_known()
    }

    /// The cells from a place on, as far as they are of one kind and lie together.
    pub fn stretch(&self, place: u64) -> Stretch<'_>
        requires { place < length self.now }
        ensures { BeginsWith (drop place self.now) result }
    {
        stretch_at(&self.node, place)
    }

    /// The bases before the first place of the target. They are shared.
    pub fn known_front<L: Ledger>(&self, steps: &mut Steps<L>) -> Result<RopeStrand, NoMemory>
        ensures { IfOk result (λ front. front.bases ≡ known_front self.now) }
    {
        known_front(self.alloc, &self.node, steps)
    }

    /// The cells of the range from `lo` to `hi`.
    pub fn sub<L: Ledger>(
        &self,
        lo: u64,
        hi: u64,
        steps: &mut Steps<L>,
    ) -> Result<CellRope, NoMemory>
        requires order { lo ≤ hi }
        requires within { hi ≤ length self.now }
        ensures { IfOk result (λ rope. rope ≡ slice_range self.now lo hi) }
    {
        Ok(CellRope {
            alloc: self.alloc,
            node: cut(self.alloc, &self.node, lo, hi, steps)?,
        })
    }

    /// The cells of `a` and then those of `b`.
    pub fn join<L: Ledger>(
        a: &CellRope,
        b: &CellRope,
        steps: &mut Steps<L>,
    ) -> Result<CellRope, NoMemory>
        requires { length a.now + length b.now ≤ 2 ^ 41 }
        ensures { IfOk result (λ rope. rope ≡ a.now ++ b.now) }
    {
        if a.len() == 0 {
            return b.share();
        }
        if b.len() == 0 {
            return a.share();
        }
        Ok(CellRope {
            alloc: a.alloc,
            node: join(a.alloc, &a.node, &b.node, steps)?,
        })
    }

    /// The fewest segments, none of them empty, that stand for the cells in order.
    #[tactic(auto, unfolding(sym_strand::specs::Cells::places_from))]
    pub fn segs(&self) -> Result<SegList, NoMemory>
        ensures { IfOk result (λ segs. StandFor segs self.now) }
    {
        let _len = self.node.len();
        let mut dna = SymDna::start(self.alloc, &[], 0)?;
        put_node(self.alloc, &self.node, &mut dna)?;
        Ok(dna.into_segs())
    }
}
