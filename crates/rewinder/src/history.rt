ghost use Rattle.std.specs.Prelude.{◌≡◌, ◌+◌, ◌^◌, ◌<◌, ◌≤◌, [], ◌∷◌, ◌++◌, None, Some, false, length, IfOk, IsTrue, MatchResult, OnErr, OnOk};
ghost use Rattle.exec_loop.specs.Weights.{TicksForAttempt};
ghost use Rattle.rewinder.specs.History.{Comes, EndsFor, FailsToReach, GoesOn, Grows, IsHistory, Keeps, Reaches, last_state, last_version, reached, rewinding, version};
ghost use Rattle.rewinder.specs.Versions.{most_attempts};
ghost use Rattle.rewinder.specs.Weights.{FailedTicks};

use crate::Stop;
use crate::trying::attempt_on;
use fuun_base::{NoMemory, Steps};
use std::alloc::Global;
use std::marker::Model;
use std::sync::ledger::Ledger;
use strand::Strand;

/// The most attempts that are made.
const MOST_ATTEMPTS: u64 = 1 << 24;

/// The version to which a step came, and why it stopped short.
#[derive(Clone, Copy, Drop)]
pub(crate) struct Place {
    pub(crate) number: u64,
    pub(crate) stop: Option<Stop>,
}

/// The versions of a DNA, from the one at the start on.
#[derive(Drop)]
pub(crate) struct Versions<S: Strand> {
    alloc: Global,
    limit: u64,
    kept: Vec<S>,
    stop: Option<Stop>,
}

impl<S: Strand> Model for Versions<S> {
    ghost use Rattle.std.specs.Prelude.{map};
    ghost use Rattle.rewinder.specs.History.{History, IsHistory};

    ghost Value = { History };

    ghost view = { λ v. record { limit = v.limit; kept = map S.bases v.kept.items; stop = v.stop } };

    ghost invariant = { λ v. IsHistory (record { limit = v.limit; kept = map S.bases v.kept.items; stop = v.stop }) };
}

impl<S: Strand> Versions<S> {
    pub(crate) fn new(alloc: Global, dna: S, limit: u64) -> Result<Versions<S>, NoMemory>
        requires some { 1 ≤ limit }
        requires most { limit ≤ 2 ^ 40 }
        requires within { length (S.bases dna) ≤ limit }
        ensures { IfOk result (λ versions. versions ≡ record { limit = limit; kept = S.bases dna ∷ []; stop = None }) }
    {
        let mut kept = Vec::new(alloc);
        kept.push(dna)?;
        Ok(Versions {
            alloc,
            limit,
            kept,
            stop: None,
        })
    }

    /// The number of the last version.
    pub(crate) fn reached(&self) -> u64
        ensures number { result + 1 ≡ length self.now.kept }
        ensures known { IsHistory self.now }
    {
        self.kept.len() as u64 - 1
    }

    /// The version of a number.
    pub(crate) fn get(&self, number: u64) -> &S
        requires { number < length self.now.kept }
        ensures { S.bases result.now ≡ version self.now number }
    {
        &self.kept[number as usize]
    }

    /// Goes so many attempts on from a version.
    pub(crate) fn go_on<L: Ledger>(
        &mut self,
        attempt: u64,
        count: u64,
        steps: &mut Steps<L>,
    ) -> Result<Place, NoMemory>
        requires { attempt < length self.old.kept }
        ensures keeps { Keeps self.old self.new }
        ensures known { IsHistory self.old × IsHistory self.new }
        ensures within { IfOk result (λ place. place.number < length self.new.kept) }
        ensures comes { IfOk result (λ place. Comes (S.height_bound self.old.limit) self.old self.new attempt count place.number place.stop steps.old steps.new) }
        ensures fails { OnErr result (FailedTicks (S.height_bound self.old.limit) (rewinding self.old attempt) (rewinding self.new attempt) (attempt + count) steps.old steps.new) }
        ensures quiet { attempt + count ≤ reached self.old → steps.new ≡ steps.old }
    {
        let _reached = self.reached();
        let number = attempt + count.min(MOST_ATTEMPTS - attempt);
        self.reach(number, steps)?;
        let place = number.min(self.reached());
        let stop = why(place - attempt, count, place, self.stop);
        Ok(Place {
            number: place,
            stop,
        })
    }

    /// Makes the versions up to that of a number, as far as attempts give them.
    fn reach<L: Ledger>(&mut self, number: u64, steps: &mut Steps<L>) -> Result<(), NoMemory>
        requires { number ≤ most_attempts }
        ensures keeps { Keeps self.old self.new }
        ensures known { IsHistory self.new }
        ensures reaches { OnOk result (Reaches (S.height_bound self.old.limit) self.old self.new number steps.old steps.new) }
        ensures fails { OnErr result (FailsToReach (S.height_bound self.old.limit) self.old self.new number steps.old steps.new) }
    {
        let _reached = self.reached();
        while self.lacks(number) {
            self.extend(steps)?;
        }
        Ok(())
    }

    /// Whether there is an attempt to make before the version of a number.
    fn lacks(&self, number: u64) -> bool
        ensures open { IsTrue result → self.now.stop ≡ None }
        ensures before { IsTrue result → reached self.now < number }
        ensures done { result ≡ false → self.now.stop ≡ None → number ≤ reached self.now }
    {
        self.stop.is_none() && self.reached() < number
    }

    /// Makes the attempt behind the last version.
    fn extend<L: Ledger>(&mut self, steps: &mut Steps<L>) -> Result<(), NoMemory>
        requires open { self.old.stop ≡ None }
        requires room { reached self.old < most_attempts }
        ensures grows { OnOk result (Grows self.old self.new) }
        ensures unchanged { OnErr result (self.new ≡ self.old) }
        ensures known { IsHistory self.new }
        ensures ticks { TicksForAttempt (S.height_bound self.old.limit) (last_state self.old) steps.old steps.new }
    {
        match self.tried(steps)? {
            Ok(next) => self.push(next),
            Err(stop) => {
                self.end(stop);
                Ok(())
            }
        }
    }

    /// The attempt behind the last version: the next DNA, or why there is none.
    fn tried<L: Ledger>(&self, steps: &mut Steps<L>) -> Result<Result<S, Stop>, NoMemory>
        ensures made { IfOk result (λ made. MatchResult made
            (λ next. GoesOn self.now.limit (last_version self.now) (S.bases next) × (length (S.bases next) ≤ self.now.limit))
            (EndsFor self.now.limit (last_version self.now))) }
        ensures known { IsHistory self.now }
        ensures ticks { TicksForAttempt (S.height_bound self.now.limit) (last_state self.now) steps.old steps.new }
    {
        attempt_on(self.alloc, self.last(), self.limit, steps)
    }

    fn last(&self) -> &S
        ensures last { S.bases result.now ≡ last_version self.now }
        ensures within { length (S.bases result.now) ≤ self.now.limit }
        ensures known { IsHistory self.now }
    {
        self.get(self.reached())
    }

    /// Keeps one version more.
    fn push(&mut self, next: S) -> Result<(), NoMemory>
        requires goes { GoesOn self.old.limit (last_version self.old) (S.bases next) }
        requires fits { length (S.bases next) ≤ self.old.limit }
        requires open { self.old.stop ≡ None }
        requires room { reached self.old < most_attempts }
        ensures added { OnOk result (self.new ≡ record { limit = self.old.limit; kept = self.old.kept ++ S.bases next ∷ []; stop = None }) }
        ensures unchanged { OnErr result (self.new ≡ self.old) }
        ensures known { IsHistory self.new }
    {
        self.kept.push(next)?;
        Ok(())
    }

    /// Keeps why there is no version more.
    fn end(&mut self, stop: Stop)
        requires { EndsFor self.old.limit (last_version self.old) stop }
        ensures ended { self.new ≡ record { limit = self.old.limit; kept = self.old.kept; stop = Some stop } }
        ensures known { IsHistory self.new }
    {
        self.stop = Some(stop);
    }
}

/// Why a step stops that makes so many attempts of those that were asked for.
fn why(made: u64, count: u64, place: u64, stop: Option<Stop>) -> Option<Stop>
    ensures full { count ≤ made → result ≡ None }
    ensures limited { made < count → most_attempts ≤ place → result ≡ Some Stop.Limit }
    ensures known { made < count → place < most_attempts → result ≡ stop }
{
    if made >= count {
        None
    } else if place >= MOST_ATTEMPTS {
        Some(Stop::Limit)
    } else {
        stop
    }
}
