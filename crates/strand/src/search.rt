ghost use Rattle.std.specs.Prelude.{◌≡◌, ◌≤◌, length, MatchOption};
ghost use Rattle.fuun_base.specs.Occurrence.{IsFirst, IsAbsent};
ghost use Rattle.strand.specs.Shift.{AreShifts};

use fuun_base::Base;

// The first place at or after `lo` where the needle stands, whose shifts these are.
pub(crate) fn first_place(
    hay: &[Base],
    needle: &[Base],
    shifts: &[usize],
    lo: usize,
) -> Option<usize>
    requires lo { lo ≤ length hay.now }
    requires table { length shifts.now ≡ length needle.now }
    requires right { AreShifts needle.now shifts.now }
    ensures { MatchOption result
        (IsAbsent needle.now hay.now lo)
        (λ place. IsFirst needle.now hay.now lo place) }
{
    let mut place = lo;
    let mut found = 0;
    while needle.len() <= hay.len() - place {
        if found == needle.len() {
            return Some(place);
        }
        if hay[place + found] == needle[found] {
            found += 1;
        } else {
            let shift = shifts[found];
            place += shift;
            found = found.saturating_sub(shift);
        }
    }
    None
}
