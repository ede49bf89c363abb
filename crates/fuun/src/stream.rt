// Standard output and standard error. No clause says what they take.
ghost use Rattle.std.specs.Prelude.{◌≡◌, None};

use fuun_io::{Failed, Sink};
use std::io::{self, Write};

/// Bytes to a writer. It tells none of them.
#[derive(Drop)]
pub(crate) struct StreamSink<W: Write + Drop> {
    writer: W,
    faults: u64,
}

impl<W: Write + Drop> StreamSink<W> {
    /// No fault was met.
    pub fn new(writer: W) -> Self
        ensures { result.faults ≡ 0 }
    {
        StreamSink { writer, faults: 0 }
    }

    /// Hands on what the writer keeps back.
    pub fn flush(&mut self) -> io::Result<()>
        ensures { self.new.faults ≡ self.old.faults }
    {
        self.writer.flush()
    }

    /// The writer, with what it still keeps back.
    pub fn into_writer(self) -> W {
        self.writer
    }
}

impl<W: Write + Drop> Sink for StreamSink<W> {
    ghost bytes = { λ _. None };

    ghost faults = { λ sink. sink.faults };

    // A writer that takes no byte of a piece has failed.
    fn put(&mut self, piece: &[u8]) -> Result<usize, Failed> {
        match self.writer.write(piece) {
            Ok(count) if count > 0 => Ok(count),
            _ => {
                self.faults = self.faults.saturating_add(1);
                Err(Failed)
            }
        }
    }
}
