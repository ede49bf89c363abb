ghost use Rattle.std.specs.Prelude.{◌≡◌, ◌-◌, ◌≤◌, ◌++◌, length, slice_range, OnOk};
ghost use Rattle.fuun_base.specs.Quote.{quote};

use fuun_base::{Base, NoMemory, quote_into};
use rope_node::{Node, View};

/// Appends the quote of a range of a node, leaf by leaf.
#[tactic(auto, using(crate::proofs::Quoted::quoted_parts))]
pub(crate) fn quote_within(
    node: &Node,
    lo: u64,
    hi: u64,
    out: &mut Vec<Base>,
) -> Result<(), NoMemory>
    requires order { lo ≤ hi }
    requires within { hi ≤ length node.now.bases }
    ensures { OnOk result (out.new.items ≡ out.old.items ++ quote (slice_range node.now.bases lo hi)) }
{
    match node.view() {
        View::Leaf(bases) => quote_into(&bases[lo as usize..hi as usize], out),
        View::Pair(left, right) => {
            let seam = left.len();
            if hi <= seam {
                return quote_within(left, lo, hi, out);
            }
            if lo >= seam {
                return quote_within(right, lo - seam, hi - seam, out);
            }
            quote_within(left, lo, seam, out)?;
            quote_within(right, 0, hi - seam, out)
        }
    }
}
