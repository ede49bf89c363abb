ghost use Rattle.std.specs.Prelude.{◌≡◌, ℕ, ◌+◌, ◌<◌, ◌≤◌, length, slice_get, IfOk};
ghost use Rattle.explainer.specs.Repeats.{AreFronts, IsSame, IsOther};

use fuun_base::{Base, NoMemory};
use std::alloc::Global;

/// For each place of a list, how many bases from there on are the same as the list's first.
pub(crate) fn same_fronts(alloc: Global, list: &[Base]) -> Result<Vec<usize>, NoMemory>
    ensures { IfOk result (λ fronts. AreFronts list.now fronts.items) }
{
    let mut fronts: Vec<usize> = Vec::with_capacity(alloc, list.len())?;
    let mut start = 0;
    let mut end = 0;
    for at in 0..list.len() {
        let known = if at < end {
            fronts[at - start].min(end - at)
        } else {
            0
        };
        let same = lengthened(list, at, known);
        if at > 0 && at + same > end {
            start = at;
            end = at + same;
        }
        fronts.push(same)?;
    }
    Ok(fronts)
}

/// How many bases from a place on are the same as the first, of which so many are known to be.
fn lengthened(list: &[Base], at: usize, known: usize) -> usize
    requires within { at + known ≤ length list.now }
    requires same { IsSame list.now at known }
    ensures within { at + result ≤ length list.now }
    ensures same { IsSame list.now at result }
    ensures other { IsOther list.now at result }
{
    let mut same = known;
    while same < list.len() - at && list[at + same] == list[same] {
        same += 1;
    }
    same
}
