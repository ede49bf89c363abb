//! The letters of a slice of bases.
ghost use Rattle.std.specs.Prelude.{◌≡◌, ◌-◌, ◌^◌, ◌≤◌, ◌++◌, length, take, drop, map, min};
ghost use Rattle.fuun_base.specs.Letter.{letter_of};
ghost use Rattle.fuun_io.specs.Counts.{HasCause};
ghost use Rattle.fuun_io.specs.Written.{Puts};

use fuun_base::Base;
use fuun_io::{Sink, WriteFault, put_all};

/// How many letters are put at a time, where there are no more.
pub(crate) const FEW: usize = 64;

/// How many letters are put at a time, where there are more than a few and no more than these.
pub(crate) const SEVERAL: usize = 1 << 12;

/// How many letters are put at a time, where there are more.
pub(crate) const MANY: usize = 1 << 16;

/// Writes the letters of bases. After an error a front of them is written. It takes no memory.
pub fn put_bases<S: Sink>(bases: &[Base], sink: &mut S) -> Result<(), WriteFault>
    ensures puts { Puts result (S.bytes sink.old) (S.bytes sink.new) (map letter_of bases.now) }
    ensures cause { HasCause (S.faults sink.old) (S.faults sink.new) result }
{
    if bases.len() <= FEW {
        put_in_pieces::<FEW, S>(bases, sink)
    } else if bases.len() <= SEVERAL {
        put_in_pieces::<SEVERAL, S>(bases, sink)
    } else {
        put_in_pieces::<MANY, S>(bases, sink)
    }
}

/// Writes the letters of bases, so many at a time.
fn put_in_pieces<const COUNT: usize, S: Sink>(
    bases: &[Base],
    sink: &mut S,
) -> Result<(), WriteFault>
    requires { (1 ≤ COUNT) × (COUNT ≤ 2 ^ 20) }
    ensures puts { Puts result (S.bytes sink.old) (S.bytes sink.new) (map letter_of bases.now) }
    ensures cause { HasCause (S.faults sink.old) (S.faults sink.new) result }
{
    let mut piece = [0; COUNT];
    put_by_buffer(bases, &mut piece, sink)
}

/// Writes the letters of bases, as many at a time as a buffer holds.
pub(crate) fn put_by_buffer<S: Sink>(
    bases: &[Base],
    piece: &mut [u8],
    sink: &mut S,
) -> Result<(), WriteFault>
    requires { 1 ≤ length piece.old }
    ensures puts { Puts result (S.bytes sink.old) (S.bytes sink.new) (map letter_of bases.now) }
    ensures cause { HasCause (S.faults sink.old) (S.faults sink.new) result }
    ensures same { length piece.new ≡ length piece.old }
{
    let mut place = 0;
    while place < bases.len() {
        let count = spell_from(bases, place, piece);
        put_all(sink, &piece[..count])?;
        place += count;
    }
    Ok(())
}

/// Writes the letters from a place on to the front of a buffer, as many as there are and fit, and answers their number.
fn spell_from(bases: &[Base], place: usize, piece: &mut [u8]) -> usize
    requires { place ≤ length bases.now }
    ensures number { result ≡ min (length piece.old) (length bases.now - place) }
    ensures letters { take result piece.new ≡ take result (drop place (map letter_of bases.now)) }
    ensures same { length piece.new ≡ length piece.old }
{
    let count = piece.len().min(bases.len() - place);
    spell(&bases[place..place + count], piece);
    count
}

/// Writes the letters of bases to the front of a buffer.
fn spell(bases: &[Base], out: &mut [u8])
    requires { length bases.now ≤ length out.old }
    ensures { out.new ≡ map letter_of bases.now ++ drop (length bases.now) out.old }
{
    for (index, base) in bases.iter().enumerate() {
        out[index] = base.letter();
    }
}
