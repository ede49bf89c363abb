//! The places that items lead through.
ghost use Rattle.std.specs.Prelude.{◌≡◌, ◌+◌, ◌<◌, ◌≤◌, Some, drop, length, slice_get, IfOk};
ghost use Rattle.matcher.specs.Step.{Moves};
ghost use Rattle.match_text.specs.Told.{LeadSoFar};

use dna_items::PatItem;
use fuun_base::NoMemory;
use matcher::pass;
use std::alloc::Global;
use strand::Strand;

/// The places that items lead through from a place on, one an item, up to the first item that leads nowhere. They count from
/// that place.
pub(crate) fn places<T: Strand>(
    alloc: Global,
    dna: &T,
    from: u64,
    items: &[PatItem],
) -> Result<Vec<u64>, NoMemory>
    requires { from ≤ length (T.bases dna.now) }
    ensures { IfOk result (λ places. LeadSoFar (drop from (T.bases dna.now)) items.now places.items) }
{
    let mut places = Vec::new(alloc);
    let mut at = from;
    'items: while places.len() < items.len() {
        let Some(place) = place_behind(dna, at, items, places.len())? else {
            return Ok(places);
        };
        places.push(place - from)?;
        at = place;
    }
    Ok(places)
}

/// The place to which one of the items leads: None where it leads nowhere.
fn place_behind<T: Strand>(
    dna: &T,
    at: u64,
    items: &[PatItem],
    index: usize,
) -> Result<Option<u64>, NoMemory>
    requires within { at ≤ length (T.bases dna.now) }
    requires there { index < length items.now }
    ensures { IfOk result (λ place. (item : PatItem) → slice_get items.now index ≡ Some item → Moves (T.bases dna.now) item at place) }
{
    let Some(passed) = pass(dna, at, &items[index..index + 1])? else {
        return Ok(None);
    };
    Ok(Some(passed.place))
}
