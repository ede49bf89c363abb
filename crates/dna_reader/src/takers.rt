// Who takes the commands of RNA that readings give.
ghost use Rattle.std.specs.Prelude.{◌≡◌, ℕ, ◌+◌, ◌^◌, ◌<◌, ◌≤◌, List, [], ◌∷◌, ◌++◌, length, refl, OnOk, OnErr};
ghost use Rattle.fuun_base.specs.declared.letters.Base.{Base};
ghost use Rattle.dna_reader.specs.Takers.{Appended, AppendedFront, appended_stays, appended_goes_on, appended_counts, appended_starts, appended_goes_within, appended_widens, appended_counts_within};
ghost use Rattle.fuun_io.specs.Counts.{Rose};

use fuun_base::{Command, CommandList, NoMemory};

/// Why a command was not taken.
#[derive(Clone, Copy, Debug, PartialEq, Eq)]
pub enum TakeError {
    /// The taker failed, and has counted a fault.
    Failed,
    NoMemory,
}

impl From<NoMemory> for TakeError {
    ghost use Rattle.dna_reader.specs.declared.takers.TakeError.TheVariants.{NoMemory as no_memory};
    ghost use Rattle.std.specs.Prelude.{◌≡◌};

    ghost from_gives = { λ _ error. error ≡ no_memory };

    fn from(_: NoMemory) -> Self {
        TakeError::NoMemory
    }
}

/// A taker of RNA.
pub trait RnaTaker {
    /// How many faults were counted so far.
    ghost faults: { Self → ℕ };

    /// How many commands were taken since it was made.
    ghost taken: { Self → ℕ };

    /// The second state is the first after that list of commands.
    ghost follows: { Self → List (List Base) → Self → Type 0 };

    /// The second state stands after some front of that list, maybe with a part of the next command.
    ghost within: { Self → List (List Base) → Self → Type 0 };

    /// Takes one command.
    fn take(&mut self, command: &Command) -> Result<(), TakeError>
        requires { taken self.old < 2 ^ 100 }
        ensures follows { OnOk result (follows self.old (command.now ∷ []) self.new) }
        ensures one_more { OnOk result (taken self.new ≡ taken self.old + 1) }
        ensures no_fault { OnOk result (faults self.new ≡ faults self.old) }
        ensures within { OnErr result (within self.old (command.now ∷ []) self.new) }
        ensures none_more { OnErr result (taken self.new ≡ taken self.old) }
        ensures failed { result ≡ Err TakeError.Failed → Rose (faults self.old) (faults self.new) }
        ensures memory { result ≡ Err TakeError.NoMemory → faults self.new ≡ faults self.old };

    /// Each state follows itself by no command.
    ghost stays: { (a : Self) → follows a [] a };

    /// What follows by a list and then by another follows by both.
    ghost goes_on: { (a b c : Self) (x y : List (List Base)) → follows a x b → follows b y c → follows a (x ++ y) c };

    /// Where a state follows by a list, as many commands were taken.
    ghost counts: { (a b : Self) (x : List (List Base)) → follows a x b → taken b ≡ taken a + length x };

    /// What follows by a front of a list stands within it.
    ghost starts: { (a b : Self) (x y : List (List Base)) → follows a x b → within a (x ++ y) b };

    /// What stands within a list that comes after another stands within both.
    ghost goes_within: { (a b c : Self) (x y : List (List Base)) → follows a x b → within b y c → within a (x ++ y) c };

    /// What stands within a list stands within each longer one.
    ghost widens: { (a b : Self) (x y : List (List Base)) → within a x b → within a (x ++ y) b };

    /// Within a list no more commands were taken than it has.
    ghost counts_within: { (a b : Self) (x : List (List Base)) → within a x b → (taken a ≤ taken b) × (taken b ≤ taken a + length x) };
}

/// A list takes each command by appending it.
impl RnaTaker for CommandList {
    ghost faults = { λ _. 0 };

    ghost taken = { λ list. length list };

    ghost follows = { Appended };

    ghost within = { AppendedFront };

    fn take(&mut self, command: &Command) -> Result<(), TakeError> {
        self.push(*command)?;
        Ok(())
    }

    ghost stays = { appended_stays };

    ghost goes_on = { appended_goes_on };

    ghost counts = { appended_counts };

    ghost starts = { appended_starts };

    ghost goes_within = { appended_goes_within };

    ghost widens = { appended_widens };

    ghost counts_within = { appended_counts_within };
}
