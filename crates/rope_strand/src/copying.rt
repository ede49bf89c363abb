ghost use Rattle.std.specs.Prelude.{◌≡◌, ◌-◌, ◌≤◌, ◌++◌, take, drop, min, length};

use fuun_base::Base;
use rope_node::{Node, View};

/// Writes the bases of a node from a place on to the front of a buffer, as many as there are and fit, and answers their number.
pub(crate) fn copy_from(node: &Node, place: u64, buf: &mut [Base]) -> usize
    requires within { place ≤ length node.now.bases }
    ensures number { result ≡ min (length buf.old) (length node.now.bases - place) }
    ensures written { buf.new ≡ take result (drop place node.now.bases) ++ drop result buf.old }
{
    match node.view() {
        View::Leaf(bases) => copy_part(&bases[place as usize..], buf),
        View::Pair(left, right) => {
            let seam = left.len();
            if place >= seam {
                return copy_from(right, place - seam, buf);
            }
            if buf.len() as u64 <= seam - place {
                return copy_from(left, place, buf);
            }
            let first = copy_from(left, place, buf);
            first + copy_from(right, 0, &mut buf[first..])
        }
    }
}

fn copy_part(bases: &[Base], buf: &mut [Base]) -> usize
    ensures number { result ≡ min (length buf.old) (length bases.now) }
    ensures written { buf.new ≡ take result bases.now ++ drop result buf.old }
{
    let number = bases.len().min(buf.len());
    buf[..number].copy_from_slice(&bases[..number]);
    number
}
