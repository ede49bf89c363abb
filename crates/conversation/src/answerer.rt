//! Who answers lines.
ghost use Rattle.std.specs.Prelude.{◌≡◌, ◌≢◌, ℕ, List, OnErr, OnOk};
ghost use Rattle.conversation.specs.Answering.{IsAnswered, IsBrokenOff};
ghost use Rattle.conversation.specs.declared.answerer.TalkError.TheVariants.{NoMemory as no_memory, ReadFault as read_fault};
ghost use Rattle.fuun_io.specs.Counts.{Rose};

use fuun_base::Steps;
use fuun_io::{Failed, Sink};
use std::alloc::AllocError;
use std::sync::ledger::Ledger;

/// Why a conversation ended before its last line was answered.
#[derive(Clone, Copy, Debug, PartialEq, Eq)]
pub enum TalkError {
    /// A read failed, and the folder has counted it.
    ReadFault,
    /// A write failed, and the sink has counted it.
    WriteFault,
    NoMemory,
}

impl From<Failed> for TalkError {
    ghost from_gives = { λ _ e. e ≡ read_fault };

    fn from(_: Failed) -> Self {
        TalkError::ReadFault
    }
}

impl From<AllocError> for TalkError {
    ghost from_gives = { λ _ e. e ≡ no_memory };

    fn from(_: AllocError) -> Self {
        TalkError::NoMemory
    }
}

/// Answers lines, one after the other, and may be led by each into another state.
pub trait Answerer {
    /// In the first state a line has this text as its answer, and leads into the second state.
    ghost says: { Self → List ℕ → Self → List ℕ → Type 0 };

    /// Answers a line, which is given without its line feed. After an error a front of the answer is written, or nothing. It
    /// reads no file, and counts its steps.
    fn answer<K: Sink, L: Ledger>(
        &mut self,
        line: &[u8],
        steps: &mut Steps<L>,
        sink: &mut K,
    ) -> Result<(), TalkError>
        ensures told { OnOk result (IsAnswered says self.old line.now self.new (K.bytes sink.old) (K.bytes sink.new)) }
        ensures broke { OnErr result (IsBrokenOff says self.old line.now (K.bytes sink.old) (K.bytes sink.new)) }
        ensures no_read { result ≢ Err TalkError.ReadFault }
        ensures fault { result ≡ Err TalkError.WriteFault → Rose (K.faults sink.old) (K.faults sink.new) }
        ensures no_fault { result ≢ Err TalkError.WriteFault → K.faults sink.new ≡ K.faults sink.old };
}
