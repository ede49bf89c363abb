ghost use Rattle.std.specs.Prelude.{IfOk};
ghost use Rattle.dna_items.specs.Balance.{IsBalanced};
ghost use Rattle.explainer.specs.Passing.{MatchesSo};

use crate::passing::{Passing, pass};
use cell_rope::CellRope;
use dna_items::PatItem;
use fuun_base::NoMemory;
use matcher::{GroupList, Marks};
use std::alloc::Global;

/// How the items of a pattern go through cells.
#[derive(Drop)]
pub(crate) enum CellMatch {
    /// The place behind what was matched, and the groups in the order in which they end.
    Matched { stop: u64, groups: GroupList },
    NoMatch,
    Depends,
}

/// Goes through the items, up to the first that fails or depends on the target.
pub(crate) fn match_cells(
    alloc: Global,
    dna: &CellRope,
    items: &[PatItem],
) -> Result<CellMatch, NoMemory>
    requires { IsBalanced items.now }
    ensures { IfOk result (MatchesSo dna.now items.now) }
{
    let mut marks = Marks::new(alloc);
    let mut at = 0;
    for item in items {
        match pass(alloc, dna, at, item)? {
            Passing::To(place) => {
                marks.mark(item, at)?;
                at = place;
            }
            Passing::Fails => return Ok(CellMatch::NoMatch),
            Passing::Depends => return Ok(CellMatch::Depends),
        }
    }
    Ok(CellMatch::Matched {
        stop: at,
        groups: GroupList::from_vec(marks.ended.into_vec()?),
    })
}
