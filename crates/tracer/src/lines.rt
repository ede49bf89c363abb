ghost use Rattle.std.specs.Prelude.{◌++◌, flat_map};
ghost use Rattle.fuun_io.specs.Counts.{HasCause};
ghost use Rattle.fuun_io.specs.Written.{Puts};
ghost use Rattle.listing.specs.Texts.{pair_text};
ghost use Rattle.tracer.specs.Lines.{head_text, outcome_text};

use exec_loop::{Outcome, Report};
use fuun_io::{Sink, WriteFault, put_all, put_pieces};
use itoa::Buffer;
use listing::{number, put_pair};

/// Writes the line of an attempt: its number, the length in bases before it, what it read, how it ended,
/// and the length behind it.
pub(crate) fn put_line<S: Sink>(
    attempt: u64,
    len: u64,
    report: &Report,
    next_len: u64,
    sink: &mut S,
) -> Result<(), WriteFault>
    ensures puts { Puts result (S.bytes sink.old) (S.bytes sink.new)
        (head_text attempt len ++ outcome_text report.now.pattern report.now.template report.now.outcome next_len) }
    ensures cause { HasCause (S.faults sink.old) (S.faults sink.new) result }
{
    put_head(attempt, len, sink)?;
    put_outcome(report, next_len, sink)
}

// Writes the number of an attempt and the length before it.
fn put_head<S: Sink>(attempt: u64, len: u64, sink: &mut S) -> Result<(), WriteFault>
    ensures puts { Puts result (S.bytes sink.old) (S.bytes sink.new) (head_text attempt len) }
    ensures cause { HasCause (S.faults sink.old) (S.faults sink.new) result }
{
    let mut number_buffer = Buffer::new();
    let mut len_buffer = Buffer::new();
    let attempt = number(attempt, &mut number_buffer);
    let len = number(len, &mut len_buffer);
    put_pieces(sink, &[attempt, b" ", len, b" "])
}

// Writes what an attempt read and how it ended.
fn put_outcome<S: Sink>(report: &Report, next_len: u64, sink: &mut S) -> Result<(), WriteFault>
    ensures puts { Puts result (S.bytes sink.old) (S.bytes sink.new)
        (outcome_text report.now.pattern report.now.template report.now.outcome next_len) }
    ensures cause { HasCause (S.faults sink.old) (S.faults sink.new) result }
{
    let mut buffer = Buffer::new();
    let next_len = number(next_len, &mut buffer);
    match report.outcome {
        Outcome::Matched(stop) => {
            let mut buffer = Buffer::new();
            let stop = number(stop, &mut buffer);
            put_items(report, &[b" | match ", stop, b" | ", next_len, b"\n"], sink)
        }
        Outcome::NoMatch => put_items(report, &[b" | no match", b" | ", next_len, b"\n"], sink),
        Outcome::TooLong => put_items(report, &[b" | too long", b"\n"], sink),
        Outcome::Finished => put_all(sink, b"finish\n"),
    }
}

// Writes the pattern and the template, and some pieces behind them.
fn put_items<S: Sink>(report: &Report, behind: &[&[u8]], sink: &mut S) -> Result<(), WriteFault>
    ensures puts { Puts result (S.bytes sink.old) (S.bytes sink.new)
        (pair_text report.now.pattern report.now.template ++ flat_map (λ piece. piece.now) behind.now) }
    ensures cause { HasCause (S.faults sink.old) (S.faults sink.new) result }
{
    put_pair(&report.pattern, &report.template, sink)?;
    put_pieces(sink, behind)
}
