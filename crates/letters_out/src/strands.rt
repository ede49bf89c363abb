//! The letters of a strand, and of a range of it.
ghost use Rattle.std.specs.Prelude.{◌≡◌, ◌-◌, ◌^◌, ◌≤◌, length, take, drop, map, min, slice_range};
ghost use Rattle.fuun_base.specs.Letter.{letter_of};
ghost use Rattle.fuun_io.specs.Counts.{HasCause};
ghost use Rattle.fuun_io.specs.Written.{Puts};

use crate::slices::{FEW, MANY, SEVERAL, put_by_buffer};
use fuun_base::Base;
use fuun_io::{Sink, WriteFault};
use strand::Strand;

/// Writes the letters of a strand. After an error a front of them is written. It takes no memory.
pub fn put_strand<T: Strand, S: Sink>(dna: &T, sink: &mut S) -> Result<(), WriteFault>
    ensures puts { Puts result (S.bytes sink.old) (S.bytes sink.new) (map letter_of (T.bases dna.now)) }
    ensures cause { HasCause (S.faults sink.old) (S.faults sink.new) result }
{
    put_range(dna, 0, dna.len(), sink)
}

/// Writes the letters of the range from `lo` to `hi`, counted in bases: none where `lo` is not below `hi`. After an error
/// a front of them is written. It takes no memory.
pub fn put_range<T: Strand, S: Sink>(
    dna: &T,
    lo: u64,
    hi: u64,
    sink: &mut S,
) -> Result<(), WriteFault>
    requires { hi ≤ length (T.bases dna.now) }
    ensures puts { Puts result (S.bytes sink.old) (S.bytes sink.new) (map letter_of (slice_range (T.bases dna.now) lo hi)) }
    ensures cause { HasCause (S.faults sink.old) (S.faults sink.new) result }
{
    let len = hi.saturating_sub(lo);
    if len <= FEW as u64 {
        put_in_windows::<FEW, T, S>(dna, lo, hi, sink)
    } else if len <= SEVERAL as u64 {
        put_in_windows::<SEVERAL, T, S>(dna, lo, hi, sink)
    } else {
        put_in_windows::<MANY, T, S>(dna, lo, hi, sink)
    }
}

/// Writes the letters of a range, so many at a time.
fn put_in_windows<const COUNT: usize, T: Strand, S: Sink>(
    dna: &T,
    lo: u64,
    hi: u64,
    sink: &mut S,
) -> Result<(), WriteFault>
    requires count { (1 ≤ COUNT) × (COUNT ≤ 2 ^ 20) }
    requires within { hi ≤ length (T.bases dna.now) }
    ensures puts { Puts result (S.bytes sink.old) (S.bytes sink.new) (map letter_of (slice_range (T.bases dna.now) lo hi)) }
    ensures cause { HasCause (S.faults sink.old) (S.faults sink.new) result }
{
    let mut window = [Base::I; COUNT];
    let mut piece = [0; COUNT];
    put_by_window(dna, lo, hi, &mut window, &mut piece, sink)
}

/// Writes the letters of a range, as many bases at a time as a window holds.
fn put_by_window<T: Strand, S: Sink>(
    dna: &T,
    lo: u64,
    hi: u64,
    window: &mut [Base],
    piece: &mut [u8],
    sink: &mut S,
) -> Result<(), WriteFault>
    requires within { hi ≤ length (T.bases dna.now) }
    requires some { 1 ≤ length window.old }
    requires room { 1 ≤ length piece.old }
    ensures puts { Puts result (S.bytes sink.old) (S.bytes sink.new) (map letter_of (slice_range (T.bases dna.now) lo hi)) }
    ensures cause { HasCause (S.faults sink.old) (S.faults sink.new) result }
{
    let len = hi.saturating_sub(lo);
    let mut done = 0;
    while done < len {
        let count = copy_some(dna, lo + done, len - done, window);
        put_by_buffer(&window[..count], piece, sink)?;
        done += count as u64;
    }
    Ok(())
}

/// Writes at most so many bases from a place on to the front of a window, as many as there are and fit, and answers their
/// number.
fn copy_some<T: Strand>(dna: &T, place: u64, most: u64, window: &mut [Base]) -> usize
    ensures number { result ≡ min (min most (length window.old)) (length (T.bases dna.now) - place) }
    ensures copied { take result window.new ≡ take result (drop place (T.bases dna.now)) }
    ensures same { length window.new ≡ length window.old }
{
    let most = most.min(window.len() as u64) as usize;
    dna.copy_out(place, &mut window[..most])
}
