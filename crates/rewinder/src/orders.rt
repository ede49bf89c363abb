use fuun_base::{List, NoMemory};
use fuun_io::WriteFault;

/// An order of a script.
#[derive(Clone, Copy, Debug, PartialEq, Eq)]
pub enum Order {
    /// So many attempts forward.
    Step(u64),
    /// So many attempts back.
    Back(u64),
    /// The bases from place `lo` to before place `hi`.
    Show { lo: u64, hi: u64 },
    /// The number of the attempt, and the length of the DNA.
    Where,
}

/// The orders of a script.
pub type OrderList = List<Order>;

/// Why a step stops before the attempt that was asked for.
#[derive(Clone, Copy, Debug, PartialEq, Eq)]
pub enum Stop {
    /// No more than 2^24 attempts are made.
    Limit,
    /// The next attempt finishes.
    Finish,
    /// The next attempt would make the DNA longer than its limit.
    TooLong,
}

/// Why bytes are no script.
#[derive(Clone, Copy, Debug, PartialEq, Eq)]
pub enum ScriptError {
    /// The first line, counted from 1, that gives no order.
    BadScript { line: u64 },
    NoMemory,
}

impl From<NoMemory> for ScriptError {
    ghost use Rattle.std.specs.Prelude.{◌≡◌};
    ghost use Rattle.rewinder.specs.declared.orders.ScriptError.TheVariants.{NoMemory as out_of_memory};

    ghost from_gives = { λ _ error. error ≡ out_of_memory };

    fn from(_: NoMemory) -> Self {
        ScriptError::NoMemory
    }
}

/// Why an order was not obeyed, or its text not written whole.
#[derive(Clone, Copy, Debug, PartialEq, Eq)]
pub enum RewindError {
    /// A write failed, and the sink has counted it.
    WriteFault,
    NoMemory,
}

impl From<WriteFault> for RewindError {
    ghost use Rattle.std.specs.Prelude.{◌≡◌};
    ghost use Rattle.rewinder.specs.declared.orders.RewindError.TheVariants.{WriteFault as write_fault};

    ghost from_gives = { λ _ error. error ≡ write_fault };

    fn from(_: WriteFault) -> Self {
        RewindError::WriteFault
    }
}

impl From<NoMemory> for RewindError {
    ghost use Rattle.std.specs.Prelude.{◌≡◌};
    ghost use Rattle.rewinder.specs.declared.orders.RewindError.TheVariants.{NoMemory as out_of_memory};

    ghost from_gives = { λ _ error. error ≡ out_of_memory };

    fn from(_: NoMemory) -> Self {
        RewindError::NoMemory
    }
}
