ghost use Rattle.std.specs.Prelude.{◌≡◌};
ghost use Rattle.fuun_io.specs.Counts.{HasCause};
ghost use Rattle.fuun_io.specs.Written.{Puts};
ghost use Rattle.rewinder.specs.Texts.{place_line, range_line, stop_text};

use crate::Stop;
use fuun_io::{Sink, WriteFault, put_all, put_pieces};
use itoa::Buffer;
use strand::Strand;

/// Writes the line of a place: the number of attempts, the length in bases, and why a step stopped there.
pub(crate) fn put_place<K: Sink>(
    place: u64,
    len: u64,
    stop: Option<Stop>,
    sink: &mut K,
) -> Result<(), WriteFault>
    ensures puts { Puts result (K.bytes sink.old) (K.bytes sink.new) (place_line place len stop) }
    ensures cause { HasCause (K.faults sink.old) (K.faults sink.new) result }
{
    let mut place_buffer = Buffer::new();
    let mut len_buffer = Buffer::new();
    let place = place_buffer.format(place).as_bytes();
    let len = len_buffer.format(len).as_bytes();
    put_pieces(sink, &[b"at ", place, b" ", len, stop_words(stop), b"\n"])
}

fn stop_words(stop: Option<Stop>) -> &'static [u8]
    ensures { result.now ≡ stop_text stop }
{
    match stop {
        None => b"",
        Some(Stop::Limit) => b" limit",
        Some(Stop::Finish) => b" finish",
        Some(Stop::TooLong) => b" too long",
    }
}

/// Writes the letters from one place of a DNA to another, as many as there are, and a line feed.
pub(crate) fn put_range<S: Strand, K: Sink>(
    dna: &S,
    lo: u64,
    hi: u64,
    sink: &mut K,
) -> Result<(), WriteFault>
    ensures puts { Puts result (K.bytes sink.old) (K.bytes sink.new) (range_line (S.bases dna.now) lo hi) }
    ensures cause { HasCause (K.faults sink.old) (K.faults sink.new) result }
{
    letters_out::put_range(dna, lo, hi.min(dna.len()), sink)?;
    put_all(sink, b"\n")
}
