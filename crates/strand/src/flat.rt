ghost use Rattle.std.specs.Prelude.{◌≡◌, ℕ, ◌+◌, ◌-◌, ◌*◌, ◌/◌, ◌^◌, ◌<◌, ◌≤◌, ◌++◌, List, [], length, take, drop, min, max, slice_range, OnOk, IfOk, MatchOption};
ghost use Rattle.fuun_base.specs.Quote.{protect};
ghost use Rattle.fuun_base.specs.Ticks.{Ticks};

use crate::Strand;
use crate::quoting::protected;
use crate::search::first_place;
use crate::shifts::shifts_of;
use fuun_base::{Base, NoMemory, Steps, Tally};
use std::alloc::Global;
use std::marker::Model;
use std::rc::Rc;
use std::sync::ledger::Ledger;

/// A strand whose bases lie in one vector. It never counts a step, and its height is its length.
#[derive(Drop)]
pub struct FlatStrand {
    alloc: Global,
    shared: Option<Rc<Vec<Base>>>,
}

impl Model for FlatStrand {
    ghost use Rattle.std.specs.Prelude.{◌^◌, ◌≤◌, List, [], length};
    ghost use Rattle.std.specs.Option.{option_map_or};
    ghost use Rattle.fuun_base.specs.declared.letters.Base.{Base};

    ghost Value = { List Base };

    ghost view = { λ a. option_map_or (λ bases. bases.value.items) a.shared [] };

    ghost invariant = { λ a. length (option_map_or (λ bases. bases.value.items) a.shared []) ≤ 2 ^ 41 };
}

impl FlatStrand {
    /// The bases, as they lie.
    pub fn as_slice(&self) -> &[Base]
        ensures bases { result.now ≡ self.now }
        ensures most { length result.now ≤ 2 ^ 41 }
    {
        match &self.shared {
            None => &[],
            Some(bases) => bases.as_slice(),
        }
    }

    fn from_vec(alloc: Global, bases: Vec<Base>) -> Result<FlatStrand, NoMemory>
        requires { length bases.items ≤ 2 ^ 41 }
        ensures { IfOk result (λ strand. strand ≡ bases.items) }
    {
        Ok(FlatStrand {
            alloc,
            shared: Some(Rc::new(alloc, bases)?),
        })
    }

    fn from_slice(alloc: Global, bases: &[Base]) -> Result<FlatStrand, NoMemory>
        requires { length bases.now ≤ 2 ^ 41 }
        ensures { IfOk result (λ strand. strand ≡ bases.now) }
    {
        FlatStrand::from_vec(alloc, Vec::from_slice(alloc, bases)?)
    }
}

impl Strand for FlatStrand {
    ghost bases = { λ strand. strand };

    ghost height = { length };

    ghost height_bound = { λ len. len };

    ghost bound_rises = { λ m n least. least };

    fn empty(alloc: Global) -> Self {
        FlatStrand {
            alloc,
            shared: None,
        }
    }

    fn share(&self) -> Result<Self, NoMemory> {
        let shared = match &self.shared {
            None => None,
            Some(bases) => Some(bases.clone()?),
        };
        Ok(FlatStrand {
            alloc: self.alloc,
            shared,
        })
    }

    fn len(&self) -> u64 {
        self.as_slice().len() as u64
    }

    fn copy_out(&self, place: u64, buf: &mut [Base]) -> usize {
        let bases = self.as_slice();
        if bases.len() as u64 <= place {
            return 0;
        }
        let rest = &bases[place as usize..];
        let number = rest.len().min(buf.len());
        buf[..number].copy_from_slice(&rest[..number]);
        number
    }

    fn find(&self, needle: &[Base], lo: u64) -> Result<Option<u64>, NoMemory> {
        let shifts = shifts_of(self.alloc, needle)?;
        let found = first_place(self.as_slice(), needle, shifts.as_slice(), lo as usize);
        Ok(found.map(|place| place as u64))
    }

    fn sub<L: Ledger>(&self, lo: u64, hi: u64, steps: &mut Steps<L>) -> Result<Self, NoMemory>
        requires order { lo ≤ hi }
        requires within { hi ≤ length self.now }
        ensures bases { IfOk result (λ strand. strand ≡ slice_range self.now lo hi) }
        ensures kept { IfOk result (λ strand. (length strand ≤ 2 ^ 41) × (length strand ≤ length strand)) }
        ensures ticks { Ticks steps.old steps.new (64 * (length self.now + 1)) }
        ensures no_ticks { steps.new ≡ steps.old }
    {
        let _steps = steps;
        let range = &self.as_slice()[lo as usize..hi as usize];
        FlatStrand::from_slice(self.alloc, range)
    }

    fn join<L: Ledger>(a: &Self, b: &Self, steps: &mut Steps<L>) -> Result<Self, NoMemory>
        requires { length a.now + length b.now ≤ 2 ^ 41 }
        ensures bases { IfOk result (λ strand. strand ≡ a.now ++ b.now) }
        ensures kept { IfOk result (λ strand. (length strand ≤ 2 ^ 41) × (length strand ≤ length strand)) }
        ensures ticks { Ticks steps.old steps.new (3 * max (length a.now) (length b.now) + 3) }
        ensures no_ticks { steps.new ≡ steps.old }
    {
        let _steps = steps;
        let left = a.as_slice();
        let right = b.as_slice();
        if left.len() == 0 {
            return b.share();
        }
        if right.len() == 0 {
            return a.share();
        }
        let mut joined = Vec::with_capacity(a.alloc, left.len() + right.len())?;
        joined.extend_from_slice(left)?;
        joined.extend_from_slice(right)?;
        FlatStrand::from_vec(a.alloc, joined)
    }

    fn join_from<L: Ledger>(
        a: &Self,
        b: &Self,
        place: u64,
        steps: &mut Steps<L>,
    ) -> Result<Self, NoMemory>
        requires within { place ≤ length b.now }
        requires most { length a.now + (length b.now - place) ≤ 2 ^ 41 }
        ensures bases { IfOk result (λ strand. strand ≡ a.now ++ drop place b.now) }
        ensures kept { IfOk result (λ strand. (length strand ≤ 2 ^ 41) × (length strand ≤ length strand)) }
        ensures ticks { Ticks steps.old steps.new (64 * (length b.now + 1) + 3 * max (length a.now) (length b.now) + 3) }
        ensures no_ticks { steps.new ≡ steps.old }
    {
        let rest = b.sub(place, b.len(), steps)?;
        FlatStrand::join(a, &rest, steps)
    }

    fn build<L: Ledger>(
        alloc: Global,
        items: &[Base],
        steps: &mut Steps<L>,
    ) -> Result<Self, NoMemory>
        requires { length items.now ≤ 2 ^ 41 }
        ensures bases { IfOk result (λ strand. strand ≡ items.now) }
        ensures kept { IfOk result (λ strand. (length strand ≤ 2 ^ 41) × (length strand ≤ length strand)) }
        ensures ticks { Ticks steps.old steps.new (2 * (length items.now / 512 + 1)) }
        ensures no_ticks { steps.new ≡ steps.old }
    {
        let _steps = steps;
        FlatStrand::from_slice(alloc, items)
    }

    fn tally(&self, lo: u64, hi: u64) -> Tally {
        Tally::of(&self.as_slice()[lo as usize..hi as usize])
    }

    fn quoted<L: Ledger>(
        &self,
        lo: u64,
        hi: u64,
        level: u64,
        steps: &mut Steps<L>,
    ) -> Result<Self, NoMemory>
        requires order { lo ≤ hi }
        requires within { hi ≤ length self.now }
        requires small { length (protect level (slice_range self.now lo hi)) ≤ 2 ^ 40 }
        ensures bases { IfOk result (λ strand. strand ≡ protect level (slice_range self.now lo hi)) }
        ensures kept { IfOk result (λ strand. (length strand ≤ 2 ^ 41) × (length strand ≤ length strand)) }
        ensures cut_ticks { level ≡ 0 → Ticks steps.old steps.new (64 * (length self.now + 1)) }
        ensures quote_ticks { 0 < level →
            Ticks steps.old steps.new (4 * (length (protect level (slice_range self.now lo hi)) / 512 + 1)) }
        ensures no_ticks { steps.new ≡ steps.old }
    {
        let _steps = steps;
        let range = &self.as_slice()[lo as usize..hi as usize];
        let bases = protected(self.alloc, range, level)?;
        FlatStrand::from_vec(self.alloc, bases)
    }
}
