ghost use Rattle.std.specs.Prelude.{◌≡◌, ◌+◌, ◌^◌, ◌<◌, ◌≤◌, ◌++◌, [], length, map, slice_get, slice_range, IfOk, OnOk, OnErr};
ghost use Rattle.sym_strand.specs.Cells.{all_known, known_front, start_cells};
ghost use Rattle.sym_strand.specs.Segments.{cells_in, cells_of, StandFor};
ghost use Rattle.sym_strand.specs.declared.cells.Cell.TheVariants.{Known as KnownCell};

use crate::joining::join;
use crate::segments::known;
use crate::{Cell, Seg, SegList};
use fuun_base::{Base, BaseList, NoMemory};
use std::alloc::Global;
use std::marker::Model;

/// DNA of which a part is not known, seen as its cells: at most 2^41.
#[derive(Drop)]
pub struct SymDna {
    pub(crate) alloc: Global,
    pub(crate) segs: Vec<Seg>,
    pub(crate) len: u64,
}

impl Model for SymDna {
    ghost use Rattle.std.specs.Prelude.{List};
    ghost use Rattle.sym_strand.specs.declared.cells.Cell.{Cell};

    ghost Value = { List Cell };

    ghost use Rattle.sym_strand.specs.Segments.{cells_of};
    ghost use Rattle.sym_strand.specs.Kept.{IsKept};

    ghost view = { λ dna. cells_of dna.segs.items };

    ghost invariant = { λ dna. IsKept dna.segs.items dna.len };
}

impl SymDna {
    /// The bases of a prefix, and then a target of so many bases of which nothing is known.
    pub fn start(alloc: Global, prefix: &[Base], target: u64) -> Result<SymDna, NoMemory>
        requires { length prefix.now + target ≤ 2 ^ 41 }
        ensures { IfOk result (λ dna. dna ≡ start_cells prefix.now target) }
    {
        let mut dna = SymDna::of_known(alloc, prefix)?;
        dna.take(SymDna::of_target(alloc, 0, target)?)?;
        Ok(dna)
    }

    /// How many cells it has.
    pub fn len(&self) -> u64
        ensures length { result ≡ length self.now }
        ensures most { length self.now ≤ 2 ^ 41 }
    {
        self.len
    }

    /// The cell at a place: None exactly at or past the length.
    pub fn cell(&self, place: u64) -> Option<Cell>
        ensures { result ≡ slice_get self.now place }
    {
        let mut left = place;
        for seg in &self.segs {
            let len = seg.len();
            if left < len {
                return seg.cell(left);
            }
            left -= len;
        }
        None
    }

    /// Whether it has no place of the target.
    pub fn all_known(&self) -> bool
        ensures { result ≡ all_known self.now }
    {
        for seg in &self.segs {
            match seg {
                Seg::Known(_) => {}
                Seg::Target { .. } => return false,
            }
        }
        true
    }

    /// The bases before the first place of the target.
    pub fn known_front(&self) -> Result<BaseList, NoMemory>
        ensures { IfOk result (λ bases. bases ≡ known_front self.now) }
    {
        let Some(first) = self.segs.first() else {
            return Ok(BaseList::new(self.alloc));
        };
        match first {
            Seg::Known(bases) => {
                BaseList::from_vec(self.alloc, Vec::from_slice(self.alloc, bases.as_slice())?)
            }
            Seg::Target { .. } => Ok(BaseList::new(self.alloc)),
        }
    }

    /// Adds the cells of another DNA at the end.
    pub fn append(&mut self, other: &SymDna) -> Result<(), NoMemory>
        requires { length self.old + length other.now ≤ 2 ^ 41 }
        ensures added { OnOk result (self.new ≡ self.old ++ other.now) }
        ensures unchanged { OnErr result (self.new ≡ self.old) }
    {
        let more = other.copied()?;
        self.take(more)
    }

    /// Adds bases at the end.
    pub fn push_known(&mut self, bases: &[Base]) -> Result<(), NoMemory>
        requires { length self.old + length bases.now ≤ 2 ^ 41 }
        ensures added { OnOk result (self.new ≡ self.old ++ map KnownCell bases.now) }
        ensures unchanged { OnErr result (self.new ≡ self.old) }
    {
        let more = SymDna::of_known(self.alloc, bases)?;
        self.take(more)
    }

    /// Adds the cells of a segment at the end.
    pub fn push(&mut self, seg: Seg) -> Result<(), NoMemory>
        requires { length self.old + length (cells_in seg) ≤ 2 ^ 41 }
        ensures added { OnOk result (self.new ≡ self.old ++ cells_in seg) }
        ensures unchanged { OnErr result (self.new ≡ self.old) }
    {
        if seg.len() == 0 {
            return Ok(());
        }
        let more = SymDna::of_seg(self.alloc, seg)?;
        self.take(more)
    }

    /// The fewest segments, none of them empty, that stand for the cells in order.
    pub fn segs(&self) -> &[Seg]
        ensures { StandFor result.now self.now }
    {
        self.segs.as_slice()
    }

    /// Its segments: the fewest, none of them empty, that stand for the cells in order.
    pub fn into_segs(self) -> SegList
        ensures { StandFor result self }
    {
        SegList::from_vec(self.segs)
    }

    /// No cells.
    pub(crate) fn empty(alloc: Global) -> SymDna
        ensures { result ≡ [] }
    {
        SymDna {
            alloc,
            segs: Vec::new(alloc),
            len: 0,
        }
    }

    /// Bases alone.
    pub(crate) fn of_known(alloc: Global, bases: &[Base]) -> Result<SymDna, NoMemory>
        requires { length bases.now ≤ 2 ^ 41 }
        ensures { IfOk result (λ dna. dna ≡ cells_in (Seg.Known bases.now)) }
    {
        if bases.len() == 0 {
            return Ok(SymDna::empty(alloc));
        }
        SymDna::of_seg(alloc, known(alloc, bases)?)
    }

    /// A range of places of the target.
    pub(crate) fn of_target(alloc: Global, lo: u64, hi: u64) -> Result<SymDna, NoMemory>
        requires { length (cells_in (Seg.Target lo hi)) ≤ 2 ^ 41 }
        ensures { IfOk result (λ dna. dna ≡ cells_in (Seg.Target lo hi)) }
    {
        if hi <= lo {
            return Ok(SymDna::empty(alloc));
        }
        SymDna::of_seg(alloc, Seg::Target { lo, hi })
    }

    fn of_seg(alloc: Global, seg: Seg) -> Result<SymDna, NoMemory>
        requires some { 0 < length (cells_in seg) }
        requires most { length (cells_in seg) ≤ 2 ^ 41 }
        ensures { IfOk result (λ dna. dna ≡ cells_in seg) }
    {
        let len = seg.len();
        let mut segs = Vec::new(alloc);
        segs.push(seg)?;
        Ok(SymDna { alloc, segs, len })
    }

    /// Adds the cells of another DNA at the end. Its segments are moved.
    pub(crate) fn take(&mut self, other: SymDna) -> Result<(), NoMemory>
        requires { length self.old + length other ≤ 2 ^ 41 }
        ensures added { OnOk result (self.new ≡ self.old ++ other) }
        ensures unchanged { OnErr result (self.new ≡ self.old) }
    {
        let SymDna {
            alloc,
            segs: mut more,
            len,
        } = other;
        join(alloc, &mut self.segs, &mut more)?;
        self.len += len;
        Ok(())
    }

    fn copied(&self) -> Result<SymDna, NoMemory>
        ensures { IfOk result (λ dna. dna ≡ self.now) }
    {
        let mut segs = Vec::with_capacity(self.alloc, self.segs.len())?;
        for seg in &self.segs {
            segs.push(seg.copied(self.alloc)?)?;
        }
        Ok(SymDna {
            alloc: self.alloc,
            segs,
            len: self.len,
        })
    }
}
