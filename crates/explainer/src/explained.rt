use fuun_base::{CommandList, NoMemory};
use sym_strand::SegList;

/// What a prefix does to every DNA of a length.
#[derive(Debug, Drop)]
pub struct Explained {
    /// Whether the machine finishes; else the budget of attempts is spent.
    pub finished: bool,
    /// How many attempts are made, the one that finishes included.
    pub attempts: u64,
    /// The RNA of the attempts.
    pub rna: CommandList,
    /// What stands for the machine's last DNA, with each target range taken from the DNA that it is run before.
    pub segs: SegList,
}

/// Why it is not told what a prefix does.
#[derive(Clone, Copy, Debug, PartialEq, Eq)]
pub enum ExplainError {
    /// What this attempt, counted from 0, does depends on the target.
    Depends { attempt: u64 },
    /// This attempt, counted from 0, is too long for every target.
    TooLong { attempt: u64 },
    NoMemory,
}

impl From<NoMemory> for ExplainError {
    ghost use Rattle.std.specs.Prelude.{◌≡◌};
    ghost use Rattle.explainer.specs.declared.explained.ExplainError.TheVariants.{NoMemory as OutOfMemory};

    ghost from_gives = { λ _ e. e ≡ OutOfMemory };

    fn from(_: NoMemory) -> Self {
        ExplainError::NoMemory
    }
}
