//! The lines of a piece of a file, answered as they end.
ghost use Rattle.std.specs.Prelude.{◌≡◌, ◌≢◌, ◌==◌, [], ◌∷◌, ◌++◌, drop, position, OnErr, OnOk};
ghost use Rattle.conversation.specs.Answering.{AreAnswered, AreBrokenOff};
ghost use Rattle.conversation.specs.Cut.{NoFeed};
ghost use Rattle.conversation.specs.Talking.{Waits};
ghost use Rattle.fuun_base.specs.Lines.{lines};
ghost use Rattle.fuun_io.specs.Counts.{Rose};

use crate::{Answerer, TalkError};
use fuun_base::Steps;
use fuun_io::Sink;
use std::sync::ledger::Ledger;

/// Answers the lines that end in a piece. The first of them began with the bytes that wait; those behind the last line feed
/// wait afterwards.
pub(crate) fn answer_lines<A: Answerer, K: Sink, L: Ledger>(
    piece: &[u8],
    waiting: &mut Vec<u8>,
    answerer: &mut A,
    steps: &mut Steps<L>,
    sink: &mut K,
) -> Result<(), TalkError>
    requires unended { NoFeed waiting.old.items }
    ensures unended { OnOk result (NoFeed waiting.new.items) }
    ensures waits { OnOk result (Waits A.says answerer.old (waiting.old.items ++ piece.now) waiting.new.items answerer.new (K.bytes sink.old) (K.bytes sink.new)) }
    ensures broke { OnErr result (AreBrokenOff A.says answerer.old (lines (waiting.old.items ++ piece.now)) (K.bytes sink.old) (K.bytes sink.new)) }
    ensures no_read { result ≢ Err TalkError.ReadFault }
    ensures fault { result ≡ Err TalkError.WriteFault → Rose (K.faults sink.old) (K.faults sink.new) }
    ensures no_fault { result ≢ Err TalkError.WriteFault → K.faults sink.new ≡ K.faults sink.old }
{
    let mut rest = piece;
    while let Some(end) = line_feed(rest) {
        answer_line(&rest[..end], waiting, answerer, steps, sink)?;
        rest = rest_from(rest, end + 1);
    }
    waiting.extend_from_slice(rest)?;
    Ok(())
}

// Where the first line feed stands.
fn line_feed(bytes: &[u8]) -> Option<usize>
    ensures { result ≡ position (λ byte. byte == 10) bytes.now }
{
    bytes.iter().position(|byte| *byte == b'\n')
}

// What stands from a place on.
fn rest_from(bytes: &[u8], place: usize) -> &[u8]
    ensures { result.now ≡ drop place bytes.now }
{
    &bytes[bytes.len().min(place)..]
}

// Answers a line that began with the bytes that wait. None wait afterwards.
fn answer_line<A: Answerer, K: Sink, L: Ledger>(
    end: &[u8],
    waiting: &mut Vec<u8>,
    answerer: &mut A,
    steps: &mut Steps<L>,
    sink: &mut K,
) -> Result<(), TalkError>
    ensures cleared { OnOk result (waiting.new.items ≡ []) }
    ensures told { OnOk result (AreAnswered A.says answerer.old ((waiting.old.items ++ end.now) ∷ []) answerer.new (K.bytes sink.old) (K.bytes sink.new)) }
    ensures broke { OnErr result (AreBrokenOff A.says answerer.old ((waiting.old.items ++ end.now) ∷ []) (K.bytes sink.old) (K.bytes sink.new)) }
    ensures no_read { result ≢ Err TalkError.ReadFault }
    ensures fault { result ≡ Err TalkError.WriteFault → Rose (K.faults sink.old) (K.faults sink.new) }
    ensures no_fault { result ≢ Err TalkError.WriteFault → K.faults sink.new ≡ K.faults sink.old }
{
    waiting.extend_from_slice(end)?;
    answer_one(waiting, answerer, steps, sink)?;
    waiting.clear();
    Ok(())
}

// Answers one line.
fn answer_one<A: Answerer, K: Sink, L: Ledger>(
    line: &[u8],
    answerer: &mut A,
    steps: &mut Steps<L>,
    sink: &mut K,
) -> Result<(), TalkError>
    ensures told { OnOk result (AreAnswered A.says answerer.old (line.now ∷ []) answerer.new (K.bytes sink.old) (K.bytes sink.new)) }
    ensures broke { OnErr result (AreBrokenOff A.says answerer.old (line.now ∷ []) (K.bytes sink.old) (K.bytes sink.new)) }
    ensures no_read { result ≢ Err TalkError.ReadFault }
    ensures fault { result ≡ Err TalkError.WriteFault → Rose (K.faults sink.old) (K.faults sink.new) }
    ensures no_fault { result ≢ Err TalkError.WriteFault → K.faults sink.new ≡ K.faults sink.old }
{
    answerer.answer(line, steps, sink)
}

/// Answers the bytes that wait at the end of a file, if there are any, as its last line.
pub(crate) fn answer_last<A: Answerer, K: Sink, L: Ledger>(
    line: &[u8],
    answerer: &mut A,
    steps: &mut Steps<L>,
    sink: &mut K,
) -> Result<(), TalkError>
    requires unended { NoFeed line.now }
    ensures told { OnOk result (AreAnswered A.says answerer.old (lines line.now) answerer.new (K.bytes sink.old) (K.bytes sink.new)) }
    ensures broke { OnErr result (AreBrokenOff A.says answerer.old (lines line.now) (K.bytes sink.old) (K.bytes sink.new)) }
    ensures no_read { result ≢ Err TalkError.ReadFault }
    ensures fault { result ≡ Err TalkError.WriteFault → Rose (K.faults sink.old) (K.faults sink.new) }
    ensures no_fault { result ≢ Err TalkError.WriteFault → K.faults sink.new ≡ K.faults sink.old }
{
    if line.len() == 0 {
        return Ok(());
    }
    answer_one(line, answerer, steps, sink)
}
