ghost use Rattle.std.specs.Prelude.{◌<◌, ◌≤◌, drop, length, map};
ghost use Rattle.sym_strand.specs.declared.cells.Cell.TheVariants.{Known};
ghost use Rattle.explainer.specs.Fitting.{FitsAlong};

use cell_rope::{CellRope, Stretch};
use fuun_base::Base;
use rope_strand::RopeStrand;
use strand::Strand;

/// How many bases are compared at once.
const AT_ONCE: usize = 64;

/// How cells fit the first bases of a list.
#[derive(Clone, Copy)]
pub(crate) enum Along {
    /// So many of them are the same.
    Same(usize),
    /// The one at this place of them differs.
    Other(usize),
    /// So many of them are places of the target.
    Holes(usize),
}

/// How the cells from a place on fit bases, as far as they are of one kind.
pub(crate) fn fit_along(dna: &CellRope, place: u64, bases: &[Base]) -> Along
    requires some { 0 < length bases.now }
    requires place { place < length dna.now }
    ensures { FitsAlong bases.now (drop place dna.now) result }
{
    match dna.stretch(place) {
        Stretch::Known(strand, from) => fit_strand(strand, from, bases),
        Stretch::Target(lo, hi) => Along::Holes((bases.len() as u64).min(hi - lo) as usize),
    }
}

/// How the bases of a strand from a place on fit others.
fn fit_strand(strand: &RopeStrand, from: u64, bases: &[Base]) -> Along
    requires some { 0 < length bases.now }
    requires from { from < length strand.now.bases }
    ensures { FitsAlong bases.now (map Known (drop from strand.now.bases)) result }
{
    let mut seen = [Base::I; AT_ONCE];
    let most = bases.len().min(AT_ONCE);
    fit_buffered(strand, from, &mut seen[..most], bases)
}

/// The same by a buffer that holds as many bases as are compared.
fn fit_buffered(strand: &RopeStrand, from: u64, seen: &mut [Base], bases: &[Base]) -> Along
    requires some { 0 < length seen.old }
    requires most { length seen.old ≤ length bases.now }
    requires from { from < length strand.now.bases }
    ensures { FitsAlong bases.now (map Known (drop from strand.now.bases)) result }
{
    let count = strand.copy_out(from, seen);
    fit_bases(&seen[..count], bases)
}

/// How bases fit the first of a list.
fn fit_bases(seen: &[Base], bases: &[Base]) -> Along
    requires some { 0 < length seen.now }
    requires most { length seen.now ≤ length bases.now }
    ensures { FitsAlong bases.now (map Known seen.now) result }
{
    for (at, base) in seen.iter().enumerate() {
        if *base != bases[at] {
            return Along::Other(at);
        }
    }
    Along::Same(seen.len())
}
