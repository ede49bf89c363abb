ghost use Rattle.std.specs.Prelude.{◌≡◌, ◌-◌, ◌^◌, ◌≤◌, take, drop, length, slice_range};
ghost use Rattle.fuun_base.specs.Tally.{tally_of};

use fuun_base::Tally;
use rope_node::{Node, View};

/// How often each base stands in a range of a node. Whole sides are counted by what they keep.
#[tactic(auto, using(crate::proofs::Counted::counted))]
pub(crate) fn tally_within(node: &Node, lo: u64, hi: u64) -> Tally
    requires order { lo ≤ hi }
    requires within { hi ≤ length node.now.bases }
    requires most { length node.now.bases ≤ 2 ^ 41 }
    ensures { result ≡ tally_of (slice_range node.now.bases lo hi) }
{
    if lo == 0 {
        return tally_before(node, hi);
    }
    match node.view() {
        View::Leaf(bases) => Tally::of(&bases[lo as usize..hi as usize]),
        View::Pair(left, right) => {
            let seam = left.len();
            if hi <= seam {
                return tally_within(left, lo, hi);
            }
            if lo >= seam {
                return tally_within(right, lo - seam, hi - seam);
            }
            tally_from(left, lo).plus(tally_before(right, hi - seam))
        }
    }
}

/// How often each base stands before a place.
#[tactic(auto, using(crate::proofs::Counted::counted))]
fn tally_before(node: &Node, hi: u64) -> Tally
    requires within { hi ≤ length node.now.bases }
    requires most { length node.now.bases ≤ 2 ^ 41 }
    ensures { result ≡ tally_of (take hi node.now.bases) }
{
    if hi == node.len() {
        return node.tally();
    }
    match node.view() {
        View::Leaf(bases) => Tally::of(&bases[..hi as usize]),
        View::Pair(left, right) => {
            let seam = left.len();
            if hi <= seam {
                return tally_before(left, hi);
            }
            left.tally().plus(tally_before(right, hi - seam))
        }
    }
}

/// How often each base stands from a place on.
#[tactic(auto, using(crate::proofs::Counted::counted))]
fn tally_from(node: &Node, lo: u64) -> Tally
    requires within { lo ≤ length node.now.bases }
    requires most { length node.now.bases ≤ 2 ^ 41 }
    ensures { result ≡ tally_of (drop lo node.now.bases) }
{
    if lo == 0 {
        return node.tally();
    }
    match node.view() {
        View::Leaf(bases) => Tally::of(&bases[lo as usize..]),
        View::Pair(left, right) => {
            let seam = left.len();
            if lo >= seam {
                return tally_from(right, lo - seam);
            }
            tally_from(left, lo).plus(right.tally())
        }
    }
}
