//! The lengths of the lines behind a line, with running totals.
ghost use Rattle.std.specs.Prelude.{◌≡◌, ◌+◌, ◌^◌, ◌≤◌, [], ◌∷◌, take, MatchOption, OnOk};
ghost use Rattle.source_items.specs.Values.{total};

use fuun_base::NoMemory;
use std::alloc::Global;
use std::marker::Model;

/// The lengths of lines, each held at 2^63, the nearest first.
#[derive(Drop)]
pub struct Behind {
    /// From the last line on.
    lengths: Vec<u64>,
    /// For each length the sum of it and of those before it.
    totals: Vec<u128>,
}

impl Model for Behind {
    ghost use Rattle.std.specs.Prelude.{ℕ, List};

    ghost Value = { List ℕ };

    ghost use Rattle.source_code.specs.Totals.{lengths_of, HasTotals};

    ghost view = { lengths_of };

    ghost invariant = { HasTotals };
}

impl Behind {
    /// No lines.
    pub(crate) fn new(alloc: Global) -> Behind
        ensures { result ≡ [] }
    {
        Behind {
            lengths: Vec::new(alloc),
            totals: Vec::new(alloc),
        }
    }

    /// Adds a line before all others.
    pub(crate) fn push(&mut self, len: u64) -> Result<(), NoMemory>
        requires { len ≤ 2 ^ 63 }
        ensures { OnOk result (self.new ≡ len ∷ self.old) }
    {
        let total = self.total() + u128::from(len);
        self.lengths.reserve(1)?;
        self.totals.reserve(1)?;
        self.lengths.push_reserved(len);
        self.totals.push_reserved(total);
        Ok(())
    }

    /// Takes off the nearest line.
    pub(crate) fn pop(&mut self) -> Option<u64>
        ensures { MatchOption result (self.old ≡ []) (λ len. self.old ≡ len ∷ self.new) }
    {
        self.totals.pop();
        self.lengths.pop()
    }

    /// How many bases the lines have.
    pub(crate) fn total(&self) -> u128
        ensures value { result ≡ total self.now }
        ensures most { result ≤ 2 ^ 127 }
    {
        match self.totals.last() {
            Some(total) => *total,
            None => 0,
        }
    }

    /// How many bases the nearest lines have.
    pub(crate) fn next(&self, count: u64) -> u128
        ensures { result ≡ total (take count self.now) }
    {
        self.total() - self.beyond(count)
    }

    // How many bases the lines behind the nearest ones have.
    fn beyond(&self, count: u64) -> u128
        ensures { result + total (take count self.now) ≡ total self.now }
    {
        let len = self.totals.len() as u64;
        if count >= len {
            return 0;
        }
        self.totals[(len - count) as usize - 1]
    }
}
