ghost use Rattle.std.specs.Prelude.{◌≡◌, ◌+◌, ◌<◌, ◌++◌, length, IfOk, MatchOption, OnOk, OnErr};
ghost use Rattle.sym_strand.specs.Segments.{cells_in, cells_of};
ghost use Rattle.sym_strand.specs.Runs.{IsTidy, IsSeam, IsJoint};

use crate::Seg;
use fuun_base::{Base, BaseList, NoMemory};
use std::alloc::Global;

/// Puts segments behind others. The two that meet become one where one can stand for both.
pub(crate) fn join(alloc: Global, segs: &mut Vec<Seg>, more: &mut Vec<Seg>) -> Result<(), NoMemory>
    requires tidy { IsTidy segs.old.items }
    requires more { IsTidy more.old.items }
    ensures cells { OnOk result (cells_of segs.new.items ≡ cells_of segs.old.items ++ cells_of more.old.items) }
    ensures tidy { IsTidy segs.new.items }
    ensures unchanged { OnErr result (segs.new.items ≡ segs.old.items) }
{
    match seam(alloc, segs.as_slice(), more.as_slice())? {
        None => {
            segs.append(more)?;
            Ok(())
        }
        Some(seam) => join_at(segs, more, seam),
    }
}

/// Puts segments behind others, with one in the place of the two that meet.
fn join_at(segs: &mut Vec<Seg>, more: &mut Vec<Seg>, seam: Seg) -> Result<(), NoMemory>
    requires tidy { IsTidy segs.old.items }
    requires seam { IsSeam segs.old.items more.old.items seam }
    ensures cells { OnOk result (cells_of segs.new.items ≡ cells_of segs.old.items ++ cells_of more.old.items) }
    ensures tidy { IsTidy segs.new.items }
    ensures unchanged { OnErr result (segs.new.items ≡ segs.old.items) }
{
    let len = segs.len();
    segs.append(more)?;
    segs[len] = seam;
    segs.remove(len - 1);
    Ok(())
}

/// One segment for the two that meet, where there is one.
fn seam(alloc: Global, segs: &[Seg], more: &[Seg]) -> Result<Option<Seg>, NoMemory>
    requires tidy { IsTidy segs.now }
    requires more { IsTidy more.now }
    ensures { IfOk result (λ seam. MatchOption seam (IsTidy (segs.now ++ more.now)) (IsSeam segs.now more.now)) }
{
    let Some(last) = segs.last() else {
        return Ok(None);
    };
    let Some(first) = more.first() else {
        return Ok(None);
    };
    joint(alloc, last, first)
}

/// One segment for two, where there is one.
fn joint(alloc: Global, last: &Seg, first: &Seg) -> Result<Option<Seg>, NoMemory>
    ensures { IfOk result (IsJoint last.now first.now) }
{
    match (last, first) {
        (Seg::Known(front), Seg::Known(back)) => {
            Ok(Some(both(alloc, front.as_slice(), back.as_slice())?))
        }
        (Seg::Target { lo, hi }, Seg::Target { lo: from, hi: to }) => {
            Ok(whole(*lo, *hi, *from, *to))
        }
        (Seg::Known(_), Seg::Target { .. }) => Ok(None),
        (Seg::Target { .. }, Seg::Known(_)) => Ok(None),
    }
}

fn both(alloc: Global, front: &[Base], back: &[Base]) -> Result<Seg, NoMemory>
    ensures { IfOk result (λ seg. seg ≡ Seg.Known (front.now ++ back.now)) }
{
    let mut bases = Vec::with_capacity(alloc, front.len() + back.len())?;
    bases.extend_from_slice(front)?;
    bases.extend_from_slice(back)?;
    Ok(Seg::Known(BaseList::from_vec(alloc, bases)?))
}

fn whole(lo: u64, hi: u64, from: u64, to: u64) -> Option<Seg>
    ensures { IsJoint (Seg.Target lo hi) (Seg.Target from to) result }
{
    if hi == from {
        Some(Seg::Target { lo, hi: to })
    } else {
        None
    }
}
