ghost use Rattle.std.specs.Prelude.{◌<◌, drop, length};
ghost use Rattle.cell_rope.specs.Stretches.{BeginsWith};

use crate::node::{Node, View};
use rope_strand::RopeStrand;

/// Cells of one kind.
#[derive(Clone, Copy)]
pub enum Stretch<'a> {
    /// The bases of a strand from a place of it on.
    Known(&'a RopeStrand, u64),
    /// The places of the target from the first on and before the second.
    Target(u64, u64),
}

/// The cells of a node from a place on, as far as its leaf goes.
#[tactic(auto, using(crate::proofs::Along::along))]
pub(crate) fn stretch_at(node: &Node, place: u64) -> Stretch<'_>
    requires { place < length node.now.cells }
    ensures { BeginsWith (drop place node.now.cells) result }
{
    match node.view() {
        View::Known(strand) => Stretch::Known(strand, place),
        View::Target(lo, hi) => Stretch::Target(lo + place, hi),
        View::Pair(left, right) => {
            let seam = left.len();
            if place >= seam {
                return stretch_at(right, place - seam);
            }
            stretch_at(left, place)
        }
    }
}
