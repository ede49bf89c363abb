ghost use Rattle.std.specs.Prelude.{◌≡◌, ℕ, ◌+◌, refl};
ghost use Rattle.dna_reader.specs.Takers.{Counted, CountedFront, counted_stays, counted_goes_on, counted_starts, counted_goes_within, counted_widens, counted_counts_within};

use crate::{RnaTaker, TakeError};
use fuun_base::Command;
use std::marker::Model;

/// A taker that keeps nothing of the RNA but how many commands it had.
#[derive(Debug, Drop)]
pub struct Discard {
    count: u128,
}

impl Model for Discard {
    ghost Value = { ℕ };

    ghost view = { λ discard. discard.count };
}

impl Discard {
    pub fn new() -> Discard
        ensures { result ≡ 0 }
    {
        Discard { count: 0 }
    }

    /// How many commands were taken.
    pub fn count(&self) -> u128
        ensures { result ≡ self.now }
    {
        self.count
    }
}

impl RnaTaker for Discard {
    ghost faults = { λ _. 0 };

    ghost taken = { λ discard. discard };

    ghost follows = { Counted };

    ghost within = { CountedFront };

    fn take(&mut self, _command: &Command) -> Result<(), TakeError> {
        self.count += 1;
        Ok(())
    }

    ghost stays = { counted_stays };

    ghost goes_on = { counted_goes_on };

    ghost counts = { λ a b x counted. counted };

    ghost starts = { counted_starts };

    ghost goes_within = { counted_goes_within };

    ghost widens = { counted_widens };

    ghost counts_within = { counted_counts_within };
}
