ghost use Rattle.std.specs.Prelude.{◌≡◌, ◌+◌, ◌-◌, ◌<◌, ◌≤◌, ◌++◌, drop, length, take, slice_index_or, IfOk, IfSome};
ghost use Rattle.explainer.specs.Open.{GoesOn, GoesOnAlong, LiesFrom, DifferAt};

use crate::repeats::same_fronts;
use cell_rope::{CellRope, Stretch};
use fuun_base::{Base, NoMemory};
use rope_strand::RopeStrand;
use std::alloc::Global;
use strand::Strand;

/// How many bases are compared at each open place before a table is made.
const NEAR: usize = 64;

/// How many bases are compared in the time in which a table grows by one.
const TABLE_COST: u64 = 8;

/// The open places without those at which the needle differs from the stretch of a place.
pub(crate) fn without_differing(
    alloc: Global,
    dna: &CellRope,
    place: u64,
    needle: &[Base],
    begun: Vec<u64>,
) -> Result<Vec<u64>, NoMemory>
    requires { place < length dna.now }
    ensures { IfOk result (λ kept. GoesOn needle.now dna.now begun.items place kept.items place) }
{
    if begun.is_empty() {
        return Ok(begun);
    }
    match dna.stretch(place) {
        Stretch::Known(strand, from) => {
            let front = front_of(alloc, strand, from, needle.len())?;
            without_other(alloc, front.as_slice(), place, needle, begun)
        }
        Stretch::Target(_, _) => Ok(begun),
    }
}

/// The bases of a strand from a place on, at most so many.
fn front_of(
    alloc: Global,
    strand: &RopeStrand,
    from: u64,
    most: usize,
) -> Result<Vec<Base>, NoMemory>
    requires { from ≤ length strand.now.bases }
    ensures within { IfOk result (λ front. length front.items ≤ length (drop from strand.now.bases)) }
    ensures front { IfOk result (λ front. front.items ≡ take (length front.items) (drop from strand.now.bases)) }
{
    let count = (most as u64).min(strand.len() - from) as usize;
    let mut front = vec![in alloc; Base::I; count]?;
    strand.copy_out(from, front.as_mut_slice());
    Ok(front)
}

/// The open places without those at which the needle differs from bases that stand at a place.
fn without_other(
    alloc: Global,
    seen: &[Base],
    place: u64,
    needle: &[Base],
    begun: Vec<u64>,
) -> Result<Vec<u64>, NoMemory>
    ensures { IfOk result (λ kept. GoesOnAlong needle.now seen.now begun.items place kept.items place) }
{
    let most = seen.len().min(NEAR);
    let near = compared(alloc, &seen[..most], place, needle, begun.as_slice())?;
    if most == seen.len() {
        return Ok(near);
    }
    let span = match (near.first(), near.last()) {
        (Some(first), Some(last)) => last.saturating_sub(*first),
        _ => return Ok(near),
    };
    if near.len() as u64 / TABLE_COST <= span / seen.len() as u64 + 1 {
        compared(alloc, seen, place, needle, near.as_slice())
    } else {
        tabled(alloc, seen, place, needle, near.as_slice())
    }
}

/// The same, comparing at each open place.
fn compared(
    alloc: Global,
    seen: &[Base],
    place: u64,
    needle: &[Base],
    begun: &[u64],
) -> Result<Vec<u64>, NoMemory>
    ensures { IfOk result (λ kept. GoesOnAlong needle.now seen.now begun.now place kept.items place) }
{
    let mut kept = Vec::new(alloc);
    for begin in begun {
        match other_at(rest_from(needle, *begin, place), seen) {
            Some(_) => {}
            None => kept.push(*begin)?,
        }
    }
    Ok(kept)
}

/// The part of a needle from a place on, which begins at an earlier one.
fn rest_from(needle: &[Base], begin: u64, place: u64) -> &[Base]
    ensures { LiesFrom needle.now begin place result.now }
{
    if begin <= place && place - begin < needle.len() as u64 {
        &needle[(place - begin) as usize..]
    } else {
        &[]
    }
}

/// The first place at which two lists have different bases.
fn other_at(bases: &[Base], seen: &[Base]) -> Option<usize>
    ensures { IfSome result (DifferAt bases.now seen.now) }
{
    for at in 0..bases.len().min(seen.len()) {
        if bases[at] != seen[at] {
            return Some(at);
        }
    }
    None
}

/// The same by a table of where the needle is the same as the bases.
fn tabled(
    alloc: Global,
    seen: &[Base],
    place: u64,
    needle: &[Base],
    begun: &[u64],
) -> Result<Vec<u64>, NoMemory>
    ensures { IfOk result (λ kept. GoesOnAlong needle.now seen.now begun.now place kept.items place) }
{
    let (Some(first), Some(last)) = (begun.first(), begun.last()) else {
        return Ok(Vec::from_slice(alloc, begun)?);
    };
    let rest = rest_from(needle, *last, place);
    let most = (last.saturating_sub(*first)).saturating_add(seen.len() as u64);
    let count = most.min(rest.len() as u64) as usize;
    let row = row_of(alloc, seen, &rest[..count])?;
    let fronts = same_fronts(alloc, row.as_slice())?;
    let mut kept = Vec::new(alloc);
    for begin in begun {
        match known_other(fronts.as_slice(), seen.len(), *last, *begin) {
            Some(_) => {}
            None => kept.push(*begin)?,
        }
    }
    Ok(kept)
}

fn row_of(alloc: Global, seen: &[Base], rest: &[Base]) -> Result<Vec<Base>, NoMemory>
    ensures { IfOk result (λ row. row.items ≡ seen.now ++ rest.now) }
{
    let mut row = Vec::from_slice(alloc, seen)?;
    row.extend_from_slice(rest)?;
    Ok(row)
}

/// How far behind the seen bases' first the needle differs by the table, where it begins before the last open place.
fn known_other(fronts: &[usize], size: usize, last: u64, begin: u64) -> Option<usize>
    requires { size ≤ length fronts.now }
    ensures last { IfSome result (λ same. begin ≤ last) }
    ensures same { IfSome result (λ same. same ≡ slice_index_or fronts.now (size + (last - begin)) 0) }
    ensures inside { IfSome result (λ same. same < size) }
    ensures within { IfSome result (λ same. size + (last - begin) + same < length fronts.now) }
{
    if begin > last || last - begin >= (fronts.len() - size) as u64 {
        return None;
    }
    let at = size + (last - begin) as usize;
    let same = fronts[at];
    if same < size && same < fronts.len() - at {
        Some(same)
    } else {
        None
    }
}
