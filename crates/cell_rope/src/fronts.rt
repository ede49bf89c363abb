ghost use Rattle.std.specs.Prelude.{◌≡◌, IfOk};
ghost use Rattle.sym_strand.specs.Cells.{known_front};

use crate::node::{Node, View};
use fuun_base::{NoMemory, Steps};
use rope_strand::RopeStrand;
use std::alloc::Global;
use std::sync::ledger::Ledger;
use strand::Strand;

/// The bases of a node before its first place of the target.
#[tactic(auto, using(crate::proofs::FrontLemmas::fronts))]
pub(crate) fn known_front<L: Ledger>(
    alloc: Global,
    node: &Node,
    steps: &mut Steps<L>,
) -> Result<RopeStrand, NoMemory>
    ensures { IfOk result (λ front. front.bases ≡ known_front node.now.cells) }
{
    let _len = node.len();
    match node.view() {
        View::Known(strand) => strand.share(),
        View::Target(_, _) => Ok(RopeStrand::empty(alloc)),
        View::Pair(left, right) => {
            let front = known_front(alloc, left, steps)?;
            if !left.all_known() {
                return Ok(front);
            }
            let more = known_front(alloc, right, steps)?;
            RopeStrand::join(&front, &more, steps)
        }
    }
}
