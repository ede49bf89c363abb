// RNA as text, one command a line.
ghost use Rattle.std.specs.Prelude.{◌≡◌, ℕ, ◌+◌};
ghost use Rattle.fuun_io.specs.Counts.{HasCause};
ghost use Rattle.fuun_io.specs.Written.{Puts};
ghost use Rattle.dna_reader.specs.Lending.{sink_of, loan_of, count_of, writer_of};
ghost use Rattle.dna_reader.specs.RnaLines.{rna_line, LinesPut, LinesPutInPart, lines_stays, lines_goes_on, lines_starts, lines_goes_within, lines_widens, lines_counts_within};

use crate::{RnaTaker, TakeError};
use fuun_base::Command;
use fuun_io::{Sink, WriteFault, put_pieces};

impl From<WriteFault> for TakeError {
    ghost use Rattle.dna_reader.specs.declared.takers.TakeError.TheVariants.{Failed};
    ghost use Rattle.std.specs.Prelude.{◌≡◌};

    ghost from_gives = { λ _ error. error ≡ Failed };

    fn from(_: WriteFault) -> Self {
        TakeError::Failed
    }
}

/// Writes a command as a line: its letters and a line feed. It takes no memory.
pub fn put_line<K: Sink>(command: &Command, sink: &mut K) -> Result<(), WriteFault>
    ensures puts { Puts result (K.bytes sink.old) (K.bytes sink.new) (rna_line command.now) }
    ensures cause { HasCause (K.faults sink.old) (K.faults sink.new) result }
{
    let mut letters = [0; 7];
    let len = command.letters(&mut letters);
    put_pieces(sink, &[&letters[..len], b"\n"])
}

/// A taker that writes each command as a line to a sink that is lent to it. It takes no memory.
#[derive(Drop)]
pub struct RnaLines<'a, K: Sink> {
    sink: &'a mut K,
    count: u128,
}

impl<'a, K: Sink> RnaLines<'a, K> {
    pub fn new(sink: &'a mut K) -> RnaLines<'a, K>
        ensures same_sink { loan_of result ≡ sink.entry.ghost_name }
        ensures sink { sink_of result ≡ sink.old }
        ensures none { count_of result ≡ 0 }
    {
        RnaLines { sink, count: 0 }
    }
}

impl<K: Sink> RnaTaker for RnaLines<'_, K> {
    ghost faults = { λ lines. K.faults (sink_of lines) };

    ghost taken = { count_of };

    ghost follows = { λ a commands b. LinesPut (writer_of K.bytes a) commands (writer_of K.bytes b) };

    ghost within = { λ a commands b. LinesPutInPart (writer_of K.bytes a) commands (writer_of K.bytes b) };

    /// Writes a command as a line. After an error a front of the line is written.
    #[tactic(auto, using(crate::proofs::LineLemmas::line_cut_off))]
    fn take(&mut self, command: &Command) -> Result<(), TakeError> {
        put_line(command, self.sink)?;
        self.count += 1;
        Ok(())
    }

    ghost stays = { λ a. lines_stays (writer_of K.bytes a) };

    ghost goes_on = { λ a b c. lines_goes_on (writer_of K.bytes a) (writer_of K.bytes b) (writer_of K.bytes c) };

    ghost counts = { λ a b x put. put.counted };

    ghost starts = { λ a b. lines_starts (writer_of K.bytes a) (writer_of K.bytes b) };

    ghost goes_within = { λ a b c. lines_goes_within (writer_of K.bytes a) (writer_of K.bytes b) (writer_of K.bytes c) };

    ghost widens = { λ a b. lines_widens (writer_of K.bytes a) (writer_of K.bytes b) };

    ghost counts_within = { λ a b. lines_counts_within (writer_of K.bytes a) (writer_of K.bytes b) };
}
