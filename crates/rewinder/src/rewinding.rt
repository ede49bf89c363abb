ghost use Rattle.std.specs.Prelude.{◌≡◌, ◌≢◌, ◌+◌, ◌-◌, ◌^◌, ◌≤◌, length, max, IfOk, OnErr, OnOk};
ghost use Rattle.fuun_io.specs.Counts.{HasCause, Rose};
ghost use Rattle.fuun_io.specs.Written.{Puts};
ghost use Rattle.rewinder.specs.Places.{IsNearest, Moves};
ghost use Rattle.rewinder.specs.Rewinding.{AllCommanded, BrokeOff, Commanded, HasVersions, IsRefused, IsRewinding};
ghost use Rattle.rewinder.specs.Texts.{order_text};
ghost use Rattle.rewinder.specs.Weights.{IsKnown, OrderTicks, TicksByAnswer, TicksForScript};

use crate::history::Versions;
use crate::texts::{put_place, put_range};
use crate::{Order, OrderList, RewindError, Stop};
use fuun_base::{NoMemory, Steps};
use fuun_io::{Sink, WriteFault};
use rope_strand::RopeStrand;
use std::alloc::Global;
use std::marker::Model;
use std::sync::ledger::Ledger;
use strand::Strand;

/// A machine that goes forward and back. It keeps each version of the DNA that it has made, as a strand that shares
/// what it can with the others: the version after `k` attempts, for each `k` up to `reached`.
#[derive(Drop)]
pub struct StrandRewinder<S: Strand> {
    versions: Versions<S>,
    attempt: u64,
}

/// A rewinder over ropes.
pub type Rewinder = StrandRewinder<RopeStrand>;

impl<S: Strand> Model for StrandRewinder<S> {
    ghost use Rattle.std.specs.Prelude.{◌<◌, length};
    ghost use Rattle.rewinder.specs.History.{rewinding};
    ghost use Rattle.rewinder.specs.Rewinding.{Rewinding};

    ghost Value = { Rewinding };

    ghost view = { λ r. rewinding r.versions r.attempt };

    ghost invariant = { λ r. r.attempt < length r.versions.kept };
}

impl<S: Strand> StrandRewinder<S> {
    /// A rewinder before the first attempt, with a limit of 1 to 2^40 on the length of the DNA in bases.
    pub fn new(alloc: Global, dna: S, limit: u64) -> Result<Self, NoMemory>
        requires some { 1 ≤ limit }
        requires most { limit ≤ 2 ^ 40 }
        requires within { length (S.bases dna) ≤ limit }
        ensures made { IfOk result (λ made. made ≡ record { start = S.bases dna; limit = limit; attempt = 0; dna = S.bases dna; reached = 0 }) }
        ensures versions { IfOk result HasVersions }
    {
        Ok(StrandRewinder {
            versions: Versions::new(alloc, dna, limit)?,
            attempt: 0,
        })
    }

    /// How many attempts led to the DNA.
    pub fn attempt(&self) -> u64
        ensures attempt { result ≡ self.now.attempt }
        ensures known { IsRewinding self.now }
    {
        let _reached = self.versions.reached();
        self.attempt
    }

    /// The greatest attempt so far.
    #[tactic(auto, using(crate::proofs::HistoryLemmas::has_versions))]
    pub fn reached(&self) -> u64
        ensures reached { result ≡ self.now.reached }
        ensures known { IsRewinding self.now }
        ensures versions { HasVersions self.now }
    {
        self.versions.reached()
    }

    /// The DNA after the attempt in hand.
    pub fn dna(&self) -> &S
        ensures dna { S.bases result.now ≡ self.now.dna }
        ensures known { IsRewinding self.now }
    {
        let _reached = self.versions.reached();
        self.versions.get(self.attempt)
    }

    /// Obeys an order and writes its text. After NoMemory nothing is written, and the attempt in hand is as before; after
    /// WriteFault it is that to which the order led, and a front of the text is written.
    pub fn command<K: Sink, L: Ledger>(
        &mut self,
        order: &Order,
        sink: &mut K,
        steps: &mut Steps<L>,
    ) -> Result<(), RewindError>
        ensures commanded { Commanded self.old self.new order.now result (K.bytes sink.old) (K.bytes sink.new) }
        ensures start { self.new.start ≡ self.old.start }
        ensures limit { self.new.limit ≡ self.old.limit }
        ensures known { IsRewinding self.new }
        ensures versions { HasVersions self.new }
        ensures fault { result ≡ Err RewindError.WriteFault → Rose (K.faults sink.old) (K.faults sink.new) }
        ensures no_fault { result ≢ Err RewindError.WriteFault → K.faults sink.new ≡ K.faults sink.old }
        ensures ticks { OrderTicks (S.height_bound self.old.limit) self.old self.new order.now result steps.old steps.new }
        ensures quiet { IsKnown self.old order.now → steps.new ≡ steps.old }
    {
        let stop = self.go(order, steps)?;
        self.tell(order, stop, sink)?;
        Ok(())
    }

    /// Obeys orders one after the other, and writes the text of each as it is known. After an error the orders before the
    /// one that failed have been obeyed and their texts written, and that one stands as `command` leaves it.
    pub fn obey_all<K: Sink, L: Ledger>(
        &mut self,
        orders: &OrderList,
        sink: &mut K,
        steps: &mut Steps<L>,
    ) -> Result<(), RewindError>
        ensures commanded { AllCommanded self.old self.new orders.now result (K.bytes sink.old) (K.bytes sink.new) }
        ensures broke { OnErr result (BrokeOff self.old self.new orders.now result (K.bytes sink.old) (K.bytes sink.new)) }
        ensures start { self.new.start ≡ self.old.start }
        ensures limit { self.new.limit ≡ self.old.limit }
        ensures known { IsRewinding self.new }
        ensures versions { HasVersions self.new }
        ensures fault { result ≡ Err RewindError.WriteFault → Rose (K.faults sink.old) (K.faults sink.new) }
        ensures no_fault { result ≢ Err RewindError.WriteFault → K.faults sink.new ≡ K.faults sink.old }
        ensures ticks { TicksForScript (S.height_bound self.old.limit) self.old orders.now steps.old steps.new }
    {
        let _reached = self.reached();
        for order in orders.as_slice() {
            self.command(order, sink, steps)?;
        }
        Ok(())
    }

    /// Goes where an order leads, and tells why a step stops short.
    fn go<L: Ledger>(
        &mut self,
        order: &Order,
        steps: &mut Steps<L>,
    ) -> Result<Option<Stop>, RewindError>
        ensures memory { OnErr result (result ≡ Err RewindError.NoMemory) }
        ensures moves { IfOk result (λ stop. Moves self.old.limit self.old.start order.now self.old.attempt self.new.attempt stop) }
        ensures reached { OnOk result (self.new.reached ≡ max self.old.reached self.new.attempt) }
        ensures refused { OnErr result (IsRefused self.old self.new) }
        ensures start { self.new.start ≡ self.old.start }
        ensures limit { self.new.limit ≡ self.old.limit }
        ensures known { IsRewinding self.new }
        ensures versions { HasVersions self.new }
        ensures ticks { OrderTicks (S.height_bound self.old.limit) self.old self.new order.now result steps.old steps.new }
        ensures quiet { IsKnown self.old order.now → steps.new ≡ steps.old }
    {
        match order {
            Order::Step(count) => self.step(*count, steps),
            Order::Back(count) => {
                self.back(*count);
                Ok(None)
            }
            Order::Show { .. } | Order::Where => {
                let _reached = self.reached();
                Ok(None)
            }
        }
    }

    /// Goes so many attempts forward, and tells why it stops short.
    #[tactic(auto, using(crate::proofs::HistoryLemmas::has_versions))]
    fn step<L: Ledger>(
        &mut self,
        count: u64,
        steps: &mut Steps<L>,
    ) -> Result<Option<Stop>, RewindError>
        ensures memory { OnErr result (result ≡ Err RewindError.NoMemory) }
        ensures nearest { IfOk result (λ stop. IsNearest self.old.limit self.old.start (self.old.attempt + count) self.new.attempt stop) }
        ensures reached { OnOk result (self.new.reached ≡ max self.old.reached self.new.attempt) }
        ensures refused { OnErr result (IsRefused self.old self.new) }
        ensures start { self.new.start ≡ self.old.start }
        ensures limit { self.new.limit ≡ self.old.limit }
        ensures known { IsRewinding self.new }
        ensures versions { HasVersions self.new }
        ensures ticks { TicksByAnswer (S.height_bound self.old.limit) self.old self.new (self.old.attempt + count) result steps.old steps.new }
        ensures quiet { self.old.attempt + count ≤ self.old.reached → steps.new ≡ steps.old }
    {
        let place = self.versions.go_on(self.attempt, count, steps)?;
        self.attempt = place.number;
        Ok(place.stop)
    }

    /// Goes so many attempts back, at most to the start.
    #[tactic(auto, using(crate::proofs::HistoryLemmas::has_versions))]
    fn back(&mut self, count: u64)
        ensures attempt { self.new.attempt ≡ self.old.attempt - count }
        ensures reached { self.new.reached ≡ max self.old.reached self.new.attempt }
        ensures start { self.new.start ≡ self.old.start }
        ensures limit { self.new.limit ≡ self.old.limit }
        ensures known { IsRewinding self.new }
        ensures versions { HasVersions self.new }
    {
        let _reached = self.versions.reached();
        self.attempt = self.attempt.saturating_sub(count);
    }

    /// Writes the text of an order that led to the attempt in hand.
    fn tell<K: Sink>(
        &self,
        order: &Order,
        stop: Option<Stop>,
        sink: &mut K,
    ) -> Result<(), WriteFault>
        ensures puts { Puts result (K.bytes sink.old) (K.bytes sink.new) (order_text order.now self.now.attempt self.now.dna stop) }
        ensures cause { HasCause (K.faults sink.old) (K.faults sink.new) result }
    {
        match order {
            Order::Show { lo, hi } => put_range(self.dna(), *lo, *hi, sink),
            Order::Step(_) | Order::Back(_) | Order::Where => {
                put_place(self.attempt, self.dna().len(), stop, sink)
            }
        }
    }
}
