ghost use Rattle.std.specs.Prelude.{◌≡◌, ◌<◌, Some, length, slice_get};

use crate::node::{Node, View};
use fuun_base::Base;
use rope_strand::RopeStrand;
use strand::Strand;
use sym_strand::Cell;

/// The cell of a node at a place.
#[tactic(auto, using(crate::proofs::CellsAt::cells_at))]
pub(crate) fn cell_at(node: &Node, place: u64) -> Cell
    requires { place < length node.now.cells }
    ensures { slice_get node.now.cells place ≡ Some result }
{
    match node.view() {
        View::Known(strand) => Cell::Known(base_at(strand, place)),
        View::Target(lo, _) => Cell::Target(lo + place),
        View::Pair(left, right) => {
            let seam = left.len();
            if place >= seam {
                return cell_at(right, place - seam);
            }
            cell_at(left, place)
        }
    }
}

#[tactic(auto, using(crate::proofs::CellsAt::cells_at))]
fn base_at(strand: &RopeStrand, place: u64) -> Base
    requires { place < length strand.now.bases }
    ensures { slice_get strand.now.bases place ≡ Some result }
{
    let mut base = [Base::I];
    strand.copy_out(place, &mut base);
    base[0]
}
