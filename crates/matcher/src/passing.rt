ghost use Rattle.std.specs.Prelude.{◌≡◌, ◌↔◌, ◌+◌, ◌<◌, ◌≤◌, Some, length, take, map, slice_get, IsTrue, IfOk, MatchOption, option_map};
ghost use Rattle.fuun_base.specs.declared.letters.Base.{Base};
ghost use Rattle.fuun_base.specs.Occurrence.{Stands};
ghost use Rattle.matcher.specs.Step.{LeadNowhere, LeadsOver, Moves};

use dna_items::PatItem;
use fuun_base::{Base, NoMemory};
use strand::Strand;

/// How many bases are compared at once.
const WINDOW: usize = 256;

/// How many items were passed, and the place behind what they stand for.
#[derive(Clone, Copy)]
pub struct Passed {
    pub count: usize,
    pub place: u64,
}

/// Passes the first item, or the bases that the items begin with: None where they have no match from the place on.
pub fn pass<S: Strand>(s: &S, at: u64, items: &[PatItem]) -> Result<Option<Passed>, NoMemory>
    requires some { 0 < length items.now }
    requires within { at ≤ length (S.bases s.now) }
    ensures { IfOk result (λ passed. MatchOption passed
        (LeadNowhere (S.bases s.now) items.now at)
        (λ front. LeadsOver (S.bases s.now) items.now at front.count front.place)) }
{
    match &items[0] {
        PatItem::Base(_) => Ok(pass_bases(s, at, items)),
        PatItem::Skip(n) => Ok(one_item(skip(s, at, *n))),
        PatItem::Search(needle) => Ok(one_item(search(s, at, needle.as_slice())?)),
        PatItem::GroupStart | PatItem::GroupStop => Ok(one_item(Some(at))),
    }
}

/// One item that leads to a place.
fn one_item(place: Option<u64>) -> Option<Passed>
    ensures { MatchOption place (result ≡ None) (λ place. result ≡ Some (record { count = 1; place = place })) }
{
    let place = place?;
    Some(Passed { count: 1, place })
}

fn skip<S: Strand>(s: &S, at: u64, n: u64) -> Option<u64>
    requires { at ≤ length (S.bases s.now) }
    ensures { Moves (S.bases s.now) (PatItem.Skip n) at result }
{
    if n > s.len() - at { None } else { Some(at + n) }
}

fn search<S: Strand>(s: &S, at: u64, needle: &[Base]) -> Result<Option<u64>, NoMemory>
    requires { at ≤ length (S.bases s.now) }
    ensures { IfOk result (Moves (S.bases s.now) (PatItem.Search needle.now) at) }
{
    let size = needle.len() as u64;
    if size > s.len() - at {
        return Ok(None);
    }
    let Some(found) = s.find(needle, at)? else {
        return Ok(None);
    };
    Ok(Some(found + size))
}

/// Passes the bases that the items begin with, as many as a window has.
fn pass_bases<S: Strand>(s: &S, at: u64, items: &[PatItem]) -> Option<Passed>
    requires begins { (base : Base) × (slice_get items.now 0 ≡ Some (PatItem.Base base)) }
    requires within { at ≤ length (S.bases s.now) }
    ensures { MatchOption result
        (LeadNowhere (S.bases s.now) items.now at)
        (λ front. LeadsOver (S.bases s.now) items.now at front.count front.place) }
{
    let mut run = [Base::I; WINDOW];
    let count = literals(items, &mut run);
    let place = behind(s, at, &run[..count])?;
    Some(Passed { count, place })
}

/// Writes the bases that the items begin with to the front of a window, as many as fit, and answers their number.
fn literals(items: &[PatItem], run: &mut [Base; WINDOW]) -> usize
    ensures fits { result ≤ WINDOW }
    ensures within { result ≤ length items.now }
    ensures are { take result items.now ≡ map PatItem.Base (take result run.new) }
    ensures some { (base : Base) → slice_get items.now 0 ≡ Some (PatItem.Base base) → 0 < result }
{
    let mut count = 0;
    while count < WINDOW && count < items.len() {
        let PatItem::Base(base) = &items[count] else {
            return count;
        };
        run[count] = *base;
        count += 1;
    }
    count
}

/// The place behind a few bases where they stand at a place: None where they don't.
fn behind<S: Strand>(s: &S, at: u64, run: &[Base]) -> Option<u64>
    requires few { length run.now ≤ WINDOW }
    requires within { at ≤ length (S.bases s.now) }
    ensures { MatchOption result
        (Stands run.now (S.bases s.now) at → ⊥)
        (λ place. Stands run.now (S.bases s.now) at × (place ≡ at + length run.now)) }
{
    let size = run.len() as u64;
    if size > s.len() - at {
        return None;
    }
    let mut window = [Base::I; WINDOW];
    let window = &mut window[..run.len()];
    s.copy_out(at, window);
    if are_same(window, run) {
        Some(at + size)
    } else {
        None
    }
}

fn are_same(a: &[Base], b: &[Base]) -> bool
    ensures { IsTrue result ↔ (a.now ≡ b.now) }
{
    *a == *b
}
