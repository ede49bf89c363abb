ghost use Rattle.std.specs.Prelude.{◌≤◌, length, IfOk};
ghost use Rattle.dna_items.specs.Balance.{IsBalanced};
ghost use Rattle.matcher.specs.Found.{Finds, FindsWithin};

use crate::GroupList;
use crate::marks::Marks;
use crate::passing::pass;
use dna_items::PatList;
use fuun_base::NoMemory;
use std::alloc::Global;
use strand::Strand;

/// How a match ended. Places are those of the strand.
#[derive(Debug, Drop)]
pub enum MatchEnd {
    /// The place behind what was matched, and the groups in the order in which they end.
    Matched { stop: u64, groups: GroupList },
    NoMatch,
}

/// Matches the items of a pattern on the bases from a place on.
/// No match exactly where the items have none there.
pub fn match_at<S: Strand>(
    alloc: Global,
    s: &S,
    place: u64,
    items: &PatList,
) -> Result<MatchEnd, NoMemory>
    requires place { place ≤ length (S.bases s.now) }
    requires balanced { IsBalanced items.now }
    ensures finds { IfOk result (λ end. Finds (S.bases s.now) place items.now end) }
    ensures within { IfOk result (λ end. FindsWithin (length (S.bases s.now)) end) }
{
    let items = items.as_slice();
    let mut marks = Marks::new(alloc);
    let mut at = place;
    let mut next = 0;
    while next < items.len() {
        let rest = &items[next..];
        let Some(passed) = pass(s, at, rest)? else {
            return Ok(MatchEnd::NoMatch);
        };
        marks.mark(&rest[0], at)?;
        at = passed.place;
        next += passed.count;
    }
    Ok(MatchEnd::Matched {
        stop: at,
        groups: GroupList::from_vec(marks.ended.into_vec()?),
    })
}
