ghost use Rattle.std.specs.Prelude.{◌≡◌, ◌<◌, length, vec_len, IfOk};
ghost use Rattle.strand.specs.Shift.{IsShift, AreShifts};

use fuun_base::{Base, NoMemory};
use std::alloc::Global;

// For each number of bases of the needle, but for all of them, how far a search moves on that found so many.
pub(crate) fn shifts_of(alloc: Global, needle: &[Base]) -> Result<Vec<usize>, NoMemory>
    ensures len { IfOk result (λ shifts. vec_len shifts ≡ length needle.now) }
    ensures right { IfOk result (λ shifts. AreShifts needle.now shifts.items) }
{
    let mut shifts = Vec::with_capacity(alloc, needle.len())?;
    for _base in needle {
        let shift = next_shift(needle, shifts.as_slice());
        shifts.push_reserved(shift);
    }
    Ok(shifts)
}

fn next_shift(needle: &[Base], shifts: &[usize]) -> usize
    requires room { length shifts.now < length needle.now }
    requires right { AreShifts needle.now shifts.now }
    ensures { IsShift needle.now (length shifts.now) result }
{
    let len = shifts.len();
    if len == 0 {
        return 1;
    }
    let last = len - 1;
    let mut shift = shifts[last];
    while shift <= last {
        let kept = last - shift;
        if needle[kept] == needle[last] {
            return shift;
        }
        shift += shifts[kept];
    }
    shift
}
