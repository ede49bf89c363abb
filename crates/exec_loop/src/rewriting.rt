ghost use Rattle.std.specs.Prelude.{◌≡◌, ◌+◌, ◌*◌, ◌≤◌, ◌^◌, length, drop, All, IfOk};
ghost use Rattle.std.specs.Option.{option_map};
ghost use Rattle.dna_items.specs.Balance.{IsBalanced};
ghost use Rattle.exec_loop.specs.Rewriting.{ComesTo, ItemsTick};
ghost use Rattle.fuun_base.specs.Ticks.{Ticks};
ghost use Rattle.matcher.specs.Found.{MatchesAt, LiesWithin};

use crate::Outcome;
use dna_reader::Pair;
use fuun_base::{NoMemory, Steps};
use matcher::{GroupList, MatchEnd, match_at};
use replacer::{replace, replaced_len};
use std::alloc::Global;
use std::sync::ledger::Ledger;
use strand::Strand;

/// How an attempt ended whose pair was read, and the next DNA where there is one.
#[derive(Drop)]
pub(crate) struct Rewriting<S: Strand> {
    pub(crate) outcome: Outcome,
    pub(crate) next: Option<S>,
}

/// Matches the pair on what the DNA holds behind it, and makes the next DNA.
pub(crate) fn rewrite<S: Strand, L: Ledger>(
    alloc: Global,
    dna: &S,
    limit: u64,
    pair: &Pair,
    steps: &mut Steps<L>,
) -> Result<Rewriting<S>, NoMemory>
    requires place { pair.now.next ≤ length (S.bases dna.now) }
    requires balanced { IsBalanced pair.now.pattern }
    requires limit { limit ≤ 2 ^ 40 }
    requires within { length (S.bases dna.now) ≤ limit }
    ensures comes { IfOk result (λ made. ComesTo (S.bases dna.now) pair.now.next limit pair.now.pattern pair.now.template made.outcome (option_map S.bases made.next)) }
    ensures ticks { ItemsTick (S.bases dna.now) pair.now.next limit pair.now.pattern pair.now.template (S.height_bound limit) steps.old steps.new }
{
    match match_at(alloc, dna, pair.next, &pair.pattern)? {
        MatchEnd::Matched { stop, groups } => put(alloc, dna, limit, pair, stop, &groups, steps),
        MatchEnd::NoMatch => leave(dna, pair.next, steps),
    }
}

/// The next DNA after a match, if it is within the limit.
fn put<S: Strand, L: Ledger>(
    alloc: Global,
    dna: &S,
    limit: u64,
    pair: &Pair,
    stop: u64,
    groups: &GroupList,
    steps: &mut Steps<L>,
) -> Result<Rewriting<S>, NoMemory>
    requires stop { stop ≤ length (S.bases dna.now) }
    requires groups { All (LiesWithin (length (S.bases dna.now))) groups.now }
    requires matches { MatchesAt (S.bases dna.now) pair.now.next pair.now.pattern stop groups.now }
    requires limit { limit ≤ 2 ^ 40 }
    requires within { length (S.bases dna.now) ≤ limit }
    ensures comes { IfOk result (λ made. ComesTo (S.bases dna.now) pair.now.next limit pair.now.pattern pair.now.template made.outcome (option_map S.bases made.next)) }
    ensures ticks { ItemsTick (S.bases dna.now) pair.now.next limit pair.now.pattern pair.now.template (S.height_bound limit) steps.old steps.new }
{
    let Some(_len) = replaced_len(dna, &pair.template, groups, stop, limit) else {
        return Ok(Rewriting {
            outcome: Outcome::TooLong,
            next: None,
        });
    };
    let next = replace(alloc, dna, &pair.template, groups, stop, steps)?;
    Ok(Rewriting {
        outcome: Outcome::Matched(stop - pair.next),
        next: Some(next),
    })
}

/// The next DNA where there is no match: what the readings left.
fn leave<S: Strand, L: Ledger>(
    dna: &S,
    place: u64,
    steps: &mut Steps<L>,
) -> Result<Rewriting<S>, NoMemory>
    requires { place ≤ length (S.bases dna.now) }
    ensures outcome { IfOk result (λ made. made.outcome ≡ Outcome.NoMatch) }
    ensures next { IfOk result (λ made. option_map S.bases made.next ≡ Some (drop place (S.bases dna.now))) }
    ensures ticks { Ticks steps.old steps.new (64 * (S.height_bound (length (S.bases dna.now)) + 1)) }
{
    let rest = dna.sub(place, dna.len(), steps)?;
    Ok(Rewriting {
        outcome: Outcome::NoMatch,
        next: Some(rest),
    })
}
