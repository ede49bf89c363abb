ghost use Rattle.std.specs.Prelude.{◌≡◌, ◌^◌, ◌≤◌, length, slice_range, IfOk};
ghost use Rattle.sym_strand.specs.Segments.{cells_in};

use crate::{Seg, SymDna};
use fuun_base::{Base, NoMemory};
use std::alloc::Global;

impl SymDna {
    /// The cells of the range from `lo` to `hi`.
    pub fn sub(&self, lo: u64, hi: u64) -> Result<SymDna, NoMemory>
        requires order { lo ≤ hi }
        requires within { hi ≤ length self.now }
        ensures { IfOk result (λ dna. dna ≡ slice_range self.now lo hi) }
    {
        let mut part = SymDna::empty(self.alloc);
        let mut start = 0;
        for seg in &self.segs {
            let len = seg.len();
            let from = len.min(lo.saturating_sub(start));
            let to = len.min(hi.saturating_sub(start));
            part.take(cut(self.alloc, seg, from, to)?)?;
            start += len;
        }
        Ok(part)
    }
}

/// What a segment holds in the range from `from` to `to`.
fn cut(alloc: Global, seg: &Seg, from: u64, to: u64) -> Result<SymDna, NoMemory>
    requires order { from ≤ to }
    requires within { to ≤ length (cells_in seg.now) }
    requires most { to ≤ 2 ^ 41 }
    ensures { IfOk result (λ dna. dna ≡ slice_range (cells_in seg.now) from to) }
{
    match seg {
        Seg::Known(bases) => cut_bases(alloc, bases.as_slice(), from, to),
        Seg::Target { lo, hi } => cut_places(alloc, *lo, *hi, from, to),
    }
}

fn cut_bases(alloc: Global, bases: &[Base], from: u64, to: u64) -> Result<SymDna, NoMemory>
    requires order { from ≤ to }
    requires within { to ≤ length (cells_in (Seg.Known bases.now)) }
    requires most { to ≤ 2 ^ 41 }
    ensures { IfOk result (λ dna. dna ≡ slice_range (cells_in (Seg.Known bases.now)) from to) }
{
    SymDna::of_known(alloc, &bases[from as usize..to as usize])
}

fn cut_places(alloc: Global, lo: u64, hi: u64, from: u64, to: u64) -> Result<SymDna, NoMemory>
    requires order { from ≤ to }
    requires within { to ≤ length (cells_in (Seg.Target lo hi)) }
    requires most { to ≤ 2 ^ 41 }
    ensures { IfOk result (λ dna. dna ≡ slice_range (cells_in (Seg.Target lo hi)) from to) }
{
    SymDna::of_target(alloc, lo + from, lo + to)
}
