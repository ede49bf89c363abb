use dna_items::{PatList, TplList};
use fuun_base::NoMemory;

/// How an attempt ended.
#[derive(Clone, Copy, Debug, PartialEq, Eq)]
pub enum Outcome {
    /// The pattern matched up to this place of what the readings left, and the DNA was rewritten.
    Matched(u64),
    /// The pattern did not match: the DNA is what the readings left.
    NoMatch,
    /// The rewritten DNA would be longer than the limit; the DNA is as before the attempt.
    TooLong,
    /// A reading ran out; the DNA is as before the attempt.
    Finished,
}

/// What an attempt read, and how it ended. With `Finished` both lists are empty.
#[derive(Debug, Drop)]
pub struct Report {
    pub pattern: PatList,
    pub template: TplList,
    pub outcome: Outcome,
}

/// Why an attempt was not made to its end.
#[derive(Clone, Copy, Debug, PartialEq, Eq)]
pub enum StepError {
    /// The taker of the RNA failed, and has counted a fault.
    TakerFailed,
    NoMemory,
}

impl From<NoMemory> for StepError {
    ghost use Rattle.std.specs.Prelude.{◌≡◌};
    ghost use Rattle.exec_loop.specs.declared.machine.StepError.TheVariants.{NoMemory as OutOfMemory};

    ghost from_gives = { λ _ e. e ≡ OutOfMemory };

    fn from(_: NoMemory) -> Self {
        StepError::NoMemory
    }
}

/// How a run ended; attempts are counted from the call of `run`, the one that ends it included in `attempts`.
#[derive(Clone, Copy, Debug, PartialEq, Eq)]
pub enum RunEnd {
    Finished { attempts: u64 },
    Budget,
    TooLong { attempt: u64 },
}
