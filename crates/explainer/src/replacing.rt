//! What a template puts in the place of what was matched.

ghost use Rattle.std.specs.Prelude.{◌≡◌, ◌≤◌, ◌^◌, false, drop, length, All, IfOk};
ghost use Rattle.matcher.specs.Found.{LiesWithin};
ghost use Rattle.explainer.specs.Making.{ReplacesWithin, PutsSo};
ghost use Rattle.explainer.specs.Replacement.{texts_of, depends_on_target};

use crate::attempt::Next;
use crate::fronts::Front;
use crate::texts::{Texts, depends};
use cell_rope::CellRope;
use dna_items::TplItem;
use fuun_base::{NoMemory, Steps};
use std::alloc::Global;
use std::sync::ledger::Ledger;

/// What comes of a match: whether the template depends on the target is judged before any length.
pub(crate) fn put<L: Ledger>(
    alloc: Global,
    dna: &CellRope,
    items: &[TplItem],
    groups: &[(u64, u64)],
    stop: u64,
    limit: u64,
    steps: &mut Steps<L>,
) -> Result<Next, NoMemory>
    requires stop { stop ≤ length dna.now }
    requires groups { All (LiesWithin (length dna.now)) groups.now }
    requires limit { limit ≤ 2 ^ 40 }
    requires within { length dna.now ≤ limit }
    ensures { IfOk result (PutsSo (texts_of dna.now groups.now) items.now (drop stop dna.now) limit) }
{
    let mut texts = Texts::new(alloc, dna, groups);
    if depends(&mut texts, items, steps)? {
        return Ok(Next::Depends);
    }
    let tail = dna.sub(stop, dna.len(), steps)?;
    match replace(alloc, &mut texts, items, &tail, limit, steps)? {
        None => Ok(Next::TooLong),
        Some(next) => Ok(Next::Cells(next)),
    }
}

fn replace<L: Ledger>(
    alloc: Global,
    texts: &mut Texts<'_>,
    items: &[TplItem],
    tail: &CellRope,
    limit: u64,
    steps: &mut Steps<L>,
) -> Result<Option<CellRope>, NoMemory>
    requires known { depends_on_target texts.old items.now ≡ false }
    requires limit { limit ≤ 2 ^ 40 }
    requires within { length tail.now ≤ limit }
    ensures { IfOk result (ReplacesWithin texts.old items.now tail.now limit) }
{
    let most = limit - tail.len();
    let mut front = Front::new(alloc)?;
    for item in items {
        let room = most - front.len();
        if !front.put(alloc, texts, *item, room, steps)? {
            return Ok(None);
        }
    }
    let next = front.finished(alloc, steps)?;
    Ok(Some(CellRope::join(&next, tail, steps)?))
}
