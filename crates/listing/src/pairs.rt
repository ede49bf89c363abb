ghost use Rattle.std.specs.Prelude.{◌≡◌, ◌≢◌, ◌++◌, codes};
ghost use Rattle.fuun_io.specs.Counts.{Rose, HasCause};
ghost use Rattle.fuun_io.specs.Written.{Puts};
ghost use Rattle.listing.specs.Lists.{PutsListing, pair_line, last_line};
ghost use Rattle.listing.specs.Texts.{number_text, pair_text};

use crate::{number, put_pair};
use dna_items::{PatList, TplList};
use dna_reader::{Discard, ReadingError, read_pair};
use fuun_base::NoMemory;
use fuun_io::{Sink, WriteFault, put_all, put_pieces};
use itoa::Buffer;
use std::alloc::Global;
use strand::Strand;

/// Why lines were not all written.
#[derive(Clone, Copy, Debug, PartialEq, Eq)]
pub enum ListError {
    /// A write failed, and the sink has counted it.
    WriteFault,
    NoMemory,
}

impl From<WriteFault> for ListError {
    ghost use Rattle.listing.specs.declared.pairs.ListError.TheVariants.{WriteFault as write_fault};
    ghost use Rattle.std.specs.Prelude.{◌≡◌};

    ghost from_gives = { λ _ error. error ≡ write_fault };

    fn from(_: WriteFault) -> Self {
        ListError::WriteFault
    }
}

impl From<NoMemory> for ListError {
    ghost use Rattle.listing.specs.declared.pairs.ListError.TheVariants.{NoMemory as no_memory};
    ghost use Rattle.std.specs.Prelude.{◌≡◌};

    ghost from_gives = { λ _ error. error ≡ no_memory };

    fn from(_: NoMemory) -> Self {
        ListError::NoMemory
    }
}

/// Writes the lines of up to `count` pairs of a pattern and a template, read one behind the other from the
/// first base on. Nothing is matched, and RNA is passed over. After an error a front of the lines is written.
pub fn list_pairs<T: Strand, S: Sink>(
    alloc: Global,
    s: &T,
    count: u64,
    sink: &mut S,
) -> Result<(), ListError>
    ensures puts { PutsListing (T.bases s.now) count result (S.bytes sink.old) (S.bytes sink.new) }
    ensures fault { result ≡ Err ListError.WriteFault → Rose (S.faults sink.old) (S.faults sink.new) }
    ensures no_fault { result ≢ Err ListError.WriteFault → S.faults sink.new ≡ S.faults sink.old }
{
    let mut place = 0;
    for _pair in 0..count {
        let pair = match read_pair(alloc, s, place, &mut Discard::new()) {
            Ok(pair) => pair,
            Err(ReadingError::RanOut) => {
                put_last_line(place, sink)?;
                return Ok(());
            }
            Err(_) => return Err(ListError::NoMemory),
        };
        put_pair_line(place, &pair.pattern, &pair.template, sink)?;
        place = pair.next;
    }
    Ok(())
}

// Writes the line of a pair that starts at a place.
fn put_pair_line<S: Sink>(
    place: u64,
    pattern: &PatList,
    template: &TplList,
    sink: &mut S,
) -> Result<(), WriteFault>
    ensures puts { Puts result (S.bytes sink.old) (S.bytes sink.new) (pair_line place pattern.now template.now) }
    ensures cause { HasCause (S.faults sink.old) (S.faults sink.new) result }
{
    put_place(place, sink)?;
    put_ended_pair(pattern, template, sink)
}

// Writes a place and a space.
fn put_place<S: Sink>(place: u64, sink: &mut S) -> Result<(), WriteFault>
    ensures puts { Puts result (S.bytes sink.old) (S.bytes sink.new) (number_text place ++ codes " ") }
    ensures cause { HasCause (S.faults sink.old) (S.faults sink.new) result }
{
    put_pieces(sink, &[number(place, &mut Buffer::new()), b" "])
}

// Writes a pair and ends its line.
fn put_ended_pair<S: Sink>(
    pattern: &PatList,
    template: &TplList,
    sink: &mut S,
) -> Result<(), WriteFault>
    ensures puts { Puts result (S.bytes sink.old) (S.bytes sink.new) (pair_text pattern.now template.now ++ codes "\n") }
    ensures cause { HasCause (S.faults sink.old) (S.faults sink.new) result }
{
    put_pair(pattern, template, sink)?;
    put_all(sink, b"\n")
}

// Writes the line for a place where no pair starts.
fn put_last_line<S: Sink>(place: u64, sink: &mut S) -> Result<(), WriteFault>
    ensures puts { Puts result (S.bytes sink.old) (S.bytes sink.new) (last_line place) }
    ensures cause { HasCause (S.faults sink.old) (S.faults sink.new) result }
{
    put_pieces(sink, &[number(place, &mut Buffer::new()), b" finish\n"])
}
