ghost use Rattle.std.specs.Prelude.{◌≡◌, ◌≤◌, ◌^◌, length};
ghost use Rattle.exec_loop.specs.State.{IsLimited};

use std::alloc::Global;
use std::marker::Model;
use strand::Strand;

/// The machine between two attempts, seen as its DNA and its limit.
#[derive(Drop)]
pub struct Machine<S: Strand> {
    pub(crate) alloc: Global,
    pub(crate) dna: S,
    pub(crate) limit: u64,
}

impl<S: Strand> Model for Machine<S> {
    ghost use Rattle.std.specs.Prelude.{◌^◌, ◌≤◌, length};
    ghost use Rattle.exec_loop.specs.State.{State, IsLimited};

    ghost Value = { State };

    ghost view = { λ m. record { dna = S.bases m.dna; limit = m.limit } };

    ghost invariant = { λ m. IsLimited (record { dna = S.bases m.dna; limit = m.limit }) };
}

impl<S: Strand> Machine<S> {
    /// The machine on a DNA within a limit of 1 to 2^40 bases.
    pub fn new(alloc: Global, dna: S, limit: u64) -> Machine<S>
        requires some { 1 ≤ limit }
        requires most { limit ≤ 2 ^ 40 }
        requires within { length (S.bases dna) ≤ limit }
        ensures dna { result.dna ≡ S.bases dna }
        ensures limit { result.limit ≡ limit }
    {
        Machine { alloc, dna, limit }
    }

    /// The DNA as it is.
    pub fn dna(&self) -> &S
        ensures dna { S.bases result.now ≡ self.now.dna }
        ensures limited { IsLimited self.now }
    {
        &self.dna
    }

    /// The greatest length in bases that a DNA may have.
    pub fn limit(&self) -> u64
        ensures limit { result ≡ self.now.limit }
        ensures limited { IsLimited self.now }
    {
        self.limit
    }
}
