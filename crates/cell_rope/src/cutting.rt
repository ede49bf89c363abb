ghost use Rattle.std.specs.Prelude.{◌≡◌, ◌-◌, ◌≤◌, length, slice_range, IfOk};

use crate::joining::link;
use crate::node::{Node, View};
use fuun_base::{NoMemory, Steps};
use std::alloc::Global;
use std::sync::ledger::Ledger;
use strand::Strand;

/// The cells of a node in a range of places.
#[tactic(auto, using(crate::proofs::Pieces::cuts))]
pub(crate) fn cut<L: Ledger>(
    alloc: Global,
    node: &Node,
    lo: u64,
    hi: u64,
    steps: &mut Steps<L>,
) -> Result<Node, NoMemory>
    requires order { lo ≤ hi }
    requires within { hi ≤ length node.now.cells }
    ensures { IfOk result (λ part. part.cells ≡ slice_range node.now.cells lo hi) }
{
    let len = node.len();
    if lo == 0 && hi == len {
        return node.share();
    }
    match node.view() {
        View::Known(strand) => Node::known(alloc, strand.sub(lo, hi, steps)?),
        View::Target(from, _) => Node::target(alloc, from + lo, from + hi),
        View::Pair(left, right) => {
            let seam = left.len();
            if hi <= seam {
                return cut(alloc, left, lo, hi, steps);
            }
            if lo >= seam {
                return cut(alloc, right, lo - seam, hi - seam, steps);
            }
            let first = cut(alloc, left, lo, seam, steps)?;
            let last = cut(alloc, right, 0, hi - seam, steps)?;
            link(alloc, &first, &last)
        }
    }
}
