ghost use Rattle.std.specs.Prelude.{◌≡◌, ℕ, ◌+◌, ◌-◌, ◌*◌, ◌/◌, ◌^◌, ◌<◌, ◌≤◌, ◌++◌, List, [], length, take, drop, min, max, slice_range, OnOk, IfOk, MatchOption};
ghost use Rattle.fuun_base.specs.declared.letters.Base.{Base};
ghost use Rattle.fuun_base.specs.Occurrence.{IsFirst, IsAbsent};
ghost use Rattle.fuun_base.specs.Quote.{protect};
ghost use Rattle.fuun_base.specs.Tally.{tally_of};
ghost use Rattle.fuun_base.specs.Ticks.{Ticks};

use fuun_base::{Base, NoMemory, Steps, Tally};
use std::alloc::Global;
use std::sync::ledger::Ledger;

/// A list of bases that is never changed once it is made, so that parts of it can be shared.
///
/// Places and lengths count bases. No strand in hand has more than 2^41 bases.
pub trait Strand: Sized + Drop {
    /// The bases, in order.
    ghost bases: { Self → List Base };

    /// How deep the strand is: what a cut of it may cost is told by this number.
    ghost height: { Self → ℕ };

    /// The greatest height of a strand of so many bases.
    ghost height_bound: { ℕ → ℕ };

    /// The strand of no bases.
    fn empty(alloc: Global) -> Self
        ensures bases { bases result ≡ [] }
        ensures height { height result ≤ height_bound 0 };

    /// The same strand once more. Nothing is copied.
    fn share(&self) -> Result<Self, NoMemory>
        ensures bases { IfOk result (λ strand. bases strand ≡ bases self.now) }
        ensures height { IfOk result (λ strand. height strand ≡ height self.now) }
        ensures kept { IfOk result (λ strand. (length (bases strand) ≤ 2 ^ 41) × (height strand ≤ height_bound (length (bases strand)))) };

    /// How many bases it has.
    fn len(&self) -> u64
        ensures length { result ≡ length (bases self.now) }
        ensures most { length (bases self.now) ≤ 2 ^ 41 }
        ensures height { height self.now ≤ height_bound (length (bases self.now)) };

    /// Writes the bases from a place on to the front of a buffer, as many as there are and fit, and answers their number.
    fn copy_out(&self, place: u64, buf: &mut [Base]) -> usize
        ensures number { result ≡ min (length buf.old) (length (bases self.now) - place) }
        ensures written { buf.new ≡ take result (drop place (bases self.now)) ++ drop result buf.old };

    /// The least place at or after `lo` at which the needle stands: None exactly where there is none.
    fn find(&self, needle: &[Base], lo: u64) -> Result<Option<u64>, NoMemory>
        requires { lo ≤ length (bases self.now) }
        ensures { IfOk result (λ found. MatchOption found
            (IsAbsent needle.now (bases self.now) lo)
            (λ place. IsFirst needle.now (bases self.now) lo place)) };

    /// The bases of the range from `lo` to `hi`.
    fn sub<L: Ledger>(&self, lo: u64, hi: u64, steps: &mut Steps<L>) -> Result<Self, NoMemory>
        requires order { lo ≤ hi }
        requires within { hi ≤ length (bases self.now) }
        ensures bases { IfOk result (λ strand. bases strand ≡ slice_range (bases self.now) lo hi) }
        ensures kept { IfOk result (λ strand. (length (bases strand) ≤ 2 ^ 41) × (height strand ≤ height_bound (length (bases strand)))) }
        ensures ticks { Ticks steps.old steps.new (64 * (height self.now + 1)) };

    /// The bases of the first strand and then those of the second.
    fn join<L: Ledger>(a: &Self, b: &Self, steps: &mut Steps<L>) -> Result<Self, NoMemory>
        requires { length (bases a.now) + length (bases b.now) ≤ 2 ^ 41 }
        ensures bases { IfOk result (λ strand. bases strand ≡ bases a.now ++ bases b.now) }
        ensures kept { IfOk result (λ strand. (length (bases strand) ≤ 2 ^ 41) × (height strand ≤ height_bound (length (bases strand)))) }
        ensures ticks { Ticks steps.old steps.new (3 * max (height a.now) (height b.now) + 3) };

    /// The bases of the first strand and then those of the second from a place on.
    fn join_from<L: Ledger>(
        a: &Self,
        b: &Self,
        place: u64,
        steps: &mut Steps<L>,
    ) -> Result<Self, NoMemory>
        requires within { place ≤ length (bases b.now) }
        requires most { length (bases a.now) + (length (bases b.now) - place) ≤ 2 ^ 41 }
        ensures bases { IfOk result (λ strand. bases strand ≡ bases a.now ++ drop place (bases b.now)) }
        ensures kept { IfOk result (λ strand. (length (bases strand) ≤ 2 ^ 41) × (height strand ≤ height_bound (length (bases strand)))) }
        ensures ticks { Ticks steps.old steps.new (64 * (height b.now + 1) + 3 * max (height a.now) (height b.now) + 3) };

    /// The strand of these bases, of which there are at most 2^41.
    fn build<L: Ledger>(
        alloc: Global,
        items: &[Base],
        steps: &mut Steps<L>,
    ) -> Result<Self, NoMemory>
        requires { length items.now ≤ 2 ^ 41 }
        ensures bases { IfOk result (λ strand. bases strand ≡ items.now) }
        ensures kept { IfOk result (λ strand. (length (bases strand) ≤ 2 ^ 41) × (height strand ≤ height_bound (length (bases strand)))) }
        ensures ticks { Ticks steps.old steps.new (2 * (length items.now / 512 + 1)) };

    /// How often each base stands in the range from `lo` to `hi`.
    fn tally(&self, lo: u64, hi: u64) -> Tally
        requires order { lo ≤ hi }
        requires within { hi ≤ length (bases self.now) }
        ensures { result ≡ tally_of (slice_range (bases self.now) lo hi) };

    /// The range from `lo` to `hi`, quoted `level` times; the result has at most 2^40 bases.
    fn quoted<L: Ledger>(
        &self,
        lo: u64,
        hi: u64,
        level: u64,
        steps: &mut Steps<L>,
    ) -> Result<Self, NoMemory>
        requires order { lo ≤ hi }
        requires within { hi ≤ length (bases self.now) }
        requires small { length (protect level (slice_range (bases self.now) lo hi)) ≤ 2 ^ 40 }
        ensures bases { IfOk result (λ strand. bases strand ≡ protect level (slice_range (bases self.now) lo hi)) }
        ensures kept { IfOk result (λ strand. (length (bases strand) ≤ 2 ^ 41) × (height strand ≤ height_bound (length (bases strand)))) }

        // At level 0 it is a cut, and above it the quoted bases are built anew.
        ensures cut_ticks { level ≡ 0 → Ticks steps.old steps.new (64 * (height self.now + 1)) }
        ensures quote_ticks { 0 < level →
            Ticks steps.old steps.new (4 * (length (protect level (slice_range (bases self.now) lo hi)) / 512 + 1)) };

    /// A greater length never has a lesser bound on the height.
    ghost bound_rises: { (m n : ℕ) → m ≤ n → height_bound m ≤ height_bound n };
}
