// Whole texts onto a sink.
ghost use Rattle.std.specs.Prelude.{flat_map};
ghost use Rattle.fuun_io.specs.Counts.{HasCause};
ghost use Rattle.fuun_io.specs.Written.{Puts};

use crate::{Failed, Sink};

/// A write failed, and the sink has counted it.
#[derive(Clone, Copy, Debug, PartialEq, Eq)]
pub struct WriteFault;

impl From<Failed> for WriteFault {
    fn from(_: Failed) -> Self {
        WriteFault
    }
}

/// Writes all of the piece. After an error a front of it is written.
pub fn put_all<S: Sink>(sink: &mut S, piece: &[u8]) -> Result<(), WriteFault>
    ensures puts { Puts result (S.bytes sink.old) (S.bytes sink.new) piece.now }
    ensures cause { HasCause (S.faults sink.old) (S.faults sink.new) result }
{
    let mut done = 0;
    while done < piece.len() {
        done += sink.put(&piece[done..])?;
    }
    Ok(())
}

/// Writes the pieces one after another. After an error a front of them all is written.
pub fn put_pieces<S: Sink>(sink: &mut S, pieces: &[&[u8]]) -> Result<(), WriteFault>
    ensures puts { Puts result (S.bytes sink.old) (S.bytes sink.new) (flat_map (λ piece. piece.now) pieces.now) }
    ensures cause { HasCause (S.faults sink.old) (S.faults sink.new) result }
{
    for piece in pieces {
        put_all(sink, piece)?;
    }
    Ok(())
}
