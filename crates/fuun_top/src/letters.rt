// DNA as text.
ghost use Rattle.fuun_io.specs.Counts.{HasCause};
ghost use Rattle.fuun_io.specs.Written.{Puts};
ghost use Rattle.fuun_top.specs.Texts.{letters};

use fuun_base::BaseList;
use fuun_io::{Sink, WriteFault, put_all};
use letters_out::{put_bases, put_strand};
use strand::Strand;

/// Writes the letters of a DNA and a line feed. It takes no memory.
pub(crate) fn put_letters<T: Strand, S: Sink>(dna: &T, out: &mut S) -> Result<(), WriteFault>
    ensures puts { Puts result (S.bytes out.old) (S.bytes out.new) (letters (T.bases dna.now)) }
    ensures cause { HasCause (S.faults out.old) (S.faults out.new) result }
{
    put_strand(dna, out)?;
    put_all(out, b"\n")
}

/// Writes the letters of a list of bases and a line feed. It takes no memory.
pub(crate) fn put_list<S: Sink>(bases: &BaseList, out: &mut S) -> Result<(), WriteFault>
    ensures puts { Puts result (S.bytes out.old) (S.bytes out.new) (letters bases.now) }
    ensures cause { HasCause (S.faults out.old) (S.faults out.new) result }
{
    put_bases(bases.as_slice(), out)?;
    put_all(out, b"\n")
}
