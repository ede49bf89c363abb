ghost use Rattle.std.specs.Prelude.{flat_map};
ghost use Rattle.fuun_io.specs.Counts.{HasCause};
ghost use Rattle.fuun_io.specs.Written.{Puts};
ghost use Rattle.workload.specs.Summary.{line_text, summary_text};

use fuun_base::Tally;
use fuun_io::{Sink, WriteFault, put_pieces};
use itoa::Buffer;

/// What is told of a run.
#[derive(Clone, Copy, Debug, PartialEq, Eq)]
pub struct Summary {
    /// How many attempts were made.
    pub attempts: u64,
    /// How many of each base are left.
    pub tally: Tally,
    /// How many commands of RNA were made.
    pub rna: u64,
    /// The mark of the DNA that is left.
    pub mark: u32,
}

/// Writes eight lines, a word and a number each: `attempts`, `length` (the sum of the tally, in bases), `i`, `c`, `f`,
/// `p`, `rna` and `mark`. After an error a front of them is written.
pub fn put_summary<S: Sink>(summary: &Summary, sink: &mut S) -> Result<(), WriteFault>
    ensures puts { Puts result (S.bytes sink.old) (S.bytes sink.new) (summary_text summary.now) }
    ensures cause { HasCause (S.faults sink.old) (S.faults sink.new) result }
{
    let [i, c, f, p] = [
        u128::from(summary.tally.i),
        u128::from(summary.tally.c),
        u128::from(summary.tally.f),
        u128::from(summary.tally.p),
    ];
    let lines = [
        (b"attempts".as_slice(), u128::from(summary.attempts)),
        (b"length", i + c + f + p),
        (b"i", i),
        (b"c", c),
        (b"f", f),
        (b"p", p),
        (b"rna", u128::from(summary.rna)),
        (b"mark", u128::from(summary.mark)),
    ];
    put_lines(&lines, sink)
}

// Writes a line for each word and its number.
fn put_lines<S: Sink>(lines: &[(&[u8], u128)], sink: &mut S) -> Result<(), WriteFault>
    ensures puts { Puts result (S.bytes sink.old) (S.bytes sink.new) (flat_map (λ line. line_text line.0.now line.1) lines.now) }
    ensures cause { HasCause (S.faults sink.old) (S.faults sink.new) result }
{
    for (word, number) in lines {
        put_line(word, *number, sink)?;
    }
    Ok(())
}

fn put_line<S: Sink>(word: &[u8], number: u128, sink: &mut S) -> Result<(), WriteFault>
    ensures puts { Puts result (S.bytes sink.old) (S.bytes sink.new) (line_text word.now number) }
    ensures cause { HasCause (S.faults sink.old) (S.faults sink.new) result }
{
    let mut buffer = Buffer::new();
    let number = buffer.format(number).as_bytes();
    put_pieces(sink, &[word, b" ", number, b"\n"])
}
