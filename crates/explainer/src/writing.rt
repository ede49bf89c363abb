ghost use Rattle.std.specs.Prelude.{◌≡◌, ◌++◌, codes, map};
ghost use Rattle.fuun_base.specs.Letter.{letter_of};
ghost use Rattle.std.specs.List.{flat_map};
ghost use Rattle.fuun_io.specs.Counts.{HasCause};
ghost use Rattle.fuun_io.specs.Written.{Puts};
ghost use Rattle.explainer.specs.Lines.{end_word, end_line, rna_line, seg_line, explained_text};
ghost use Rattle.sym_strand.specs.declared.segments.Seg.TheVariants.{Known, Target};

use crate::Explained;
use fuun_base::{Base, Command};
use fuun_io::{Sink, WriteFault, put_all, put_pieces};
use itoa::Buffer;
use letters_out::put_bases;
use sym_strand::Seg;

/// Writes the line of the end, a line for each command of RNA, and a line for each segment. After an error a front of
/// the lines is written.
pub fn put_explained<S: Sink>(found: &Explained, sink: &mut S) -> Result<(), WriteFault>
    ensures puts { Puts result (S.bytes sink.old) (S.bytes sink.new) (explained_text found.now) }
    ensures cause { HasCause (S.faults sink.old) (S.faults sink.new) result }
{
    put_end(found.finished, found.attempts, sink)?;
    put_lines(found, sink)
}

fn put_lines<S: Sink>(found: &Explained, sink: &mut S) -> Result<(), WriteFault>
    ensures puts { Puts result (S.bytes sink.old) (S.bytes sink.new) (flat_map rna_line found.now.rna ++ flat_map seg_line found.now.segs) }
    ensures cause { HasCause (S.faults sink.old) (S.faults sink.new) result }
{
    put_rna(found.rna.as_slice(), sink)?;
    put_segs(found.segs.as_slice(), sink)
}

fn put_end<S: Sink>(finished: bool, attempts: u64, sink: &mut S) -> Result<(), WriteFault>
    ensures puts { Puts result (S.bytes sink.old) (S.bytes sink.new) (end_line finished attempts) }
    ensures cause { HasCause (S.faults sink.old) (S.faults sink.new) result }
{
    let mut buffer = Buffer::new();
    let attempts = buffer.format(attempts).as_bytes();
    put_pieces(sink, &[b"end ", end_bytes(finished), b" ", attempts, b"\n"])
}

fn end_bytes(finished: bool) -> &'static [u8]
    ensures { result.now ≡ end_word finished }
{
    if finished { b"finished" } else { b"budget" }
}

fn put_rna<S: Sink>(rna: &[Command], sink: &mut S) -> Result<(), WriteFault>
    ensures puts { Puts result (S.bytes sink.old) (S.bytes sink.new) (flat_map rna_line rna.now) }
    ensures cause { HasCause (S.faults sink.old) (S.faults sink.new) result }
{
    for command in rna {
        put_command(command, sink)?;
    }
    Ok(())
}

fn put_command<S: Sink>(command: &Command, sink: &mut S) -> Result<(), WriteFault>
    ensures puts { Puts result (S.bytes sink.old) (S.bytes sink.new) (rna_line command.now) }
    ensures cause { HasCause (S.faults sink.old) (S.faults sink.new) result }
{
    let mut letters = [0; 7];
    let len = command.letters(&mut letters);
    put_pieces(sink, &[b"rna ", &letters[..len], b"\n"])
}

fn put_segs<S: Sink>(segs: &[Seg], sink: &mut S) -> Result<(), WriteFault>
    ensures puts { Puts result (S.bytes sink.old) (S.bytes sink.new) (flat_map seg_line segs.now) }
    ensures cause { HasCause (S.faults sink.old) (S.faults sink.new) result }
{
    for seg in segs {
        put_seg(seg, sink)?;
    }
    Ok(())
}

fn put_seg<S: Sink>(seg: &Seg, sink: &mut S) -> Result<(), WriteFault>
    ensures puts { Puts result (S.bytes sink.old) (S.bytes sink.new) (seg_line seg.now) }
    ensures cause { HasCause (S.faults sink.old) (S.faults sink.new) result }
{
    match seg {
        Seg::Known(bases) => put_known(bases.as_slice(), sink),
        Seg::Target { lo, hi } => put_target(*lo, *hi, sink),
    }
}

fn put_target<S: Sink>(lo: u64, hi: u64, sink: &mut S) -> Result<(), WriteFault>
    ensures puts { Puts result (S.bytes sink.old) (S.bytes sink.new) (seg_line (Target lo hi)) }
    ensures cause { HasCause (S.faults sink.old) (S.faults sink.new) result }
{
    let mut low = Buffer::new();
    let mut high = Buffer::new();
    let lo = low.format(lo).as_bytes();
    let hi = high.format(hi).as_bytes();
    put_pieces(sink, &[b"target ", lo, b" ", hi, b"\n"])
}

fn put_known<S: Sink>(bases: &[Base], sink: &mut S) -> Result<(), WriteFault>
    ensures puts { Puts result (S.bytes sink.old) (S.bytes sink.new) (seg_line (Known bases.now)) }
    ensures cause { HasCause (S.faults sink.old) (S.faults sink.new) result }
{
    put_all(sink, b"known ")?;
    put_ended(bases, sink)
}

fn put_ended<S: Sink>(bases: &[Base], sink: &mut S) -> Result<(), WriteFault>
    ensures puts { Puts result (S.bytes sink.old) (S.bytes sink.new) (map letter_of bases.now ++ codes "\n") }
    ensures cause { HasCause (S.faults sink.old) (S.faults sink.new) result }
{
    put_bases(bases, sink)?;
    put_all(sink, b"\n")
}
