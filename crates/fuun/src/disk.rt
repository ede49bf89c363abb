// Files of the machine's disk. No clause says what one holds.
ghost use Rattle.std.specs.Prelude.{◌≡◌, ◌≤◌, true, None, length, IfOk};

use fuun_io::{Failed, Folder};
use std::fs;
use std::io::{self, ErrorKind, Read};
use std::rt::Files;

/// How often a read that a signal interrupts is tried.
const MOST_TRIES: usize = 100;

/// A file that is open, and how many of its bytes were read.
#[derive(Drop)]
struct Opened<T: Drop> {
    file: T,
    at_byte: u64,
}

/// Files by their paths, each opened at its first byte and read on from call to call. It tells no contents.
#[derive(Drop)]
pub(crate) struct DiskFolder<'a, R: Files> {
    rt: &'a R,
    opened: Option<Opened<R::File>>,
    faults: u64,
    given: u64,
}

impl<'a, R: Files> DiskFolder<'a, R> {
    /// No file is open; no fault was met and no byte given.
    pub fn new(rt: &'a R) -> Self
        ensures faults { result.faults ≡ 0 }
        ensures given { result.given ≡ 0 }
    {
        DiskFolder {
            rt,
            opened: None,
            faults: 0,
            given: 0,
        }
    }
}

/// Reads from the file that is open; at byte 0 it is the file of that name, opened anew. A place that is not where the
/// last read ended is an error.
fn read_on<R: Files>(
    rt: &R,
    opened: &mut Option<Opened<R::File>>,
    name: &str,
    at_byte: u64,
    buf: &mut [u8],
) -> io::Result<usize>
    ensures { IfOk result (λ count. count ≤ length buf.new) }
{
    if at_byte == 0 {
        *opened = None;
        *opened = Some(Opened {
            file: fs::open(rt, name)?,
            at_byte: 0,
        });
    }
    match opened {
        Some(opened) if opened.at_byte == at_byte => {
            let count = read_uninterrupted(&mut opened.file, buf)?;
            opened.at_byte = at_byte.saturating_add(count as u64);
            Ok(count)
        }
        _ => Err(io::Error::from(ErrorKind::InvalidInput)),
    }
}

/// Reads once, or again where a signal interrupted it.
fn read_uninterrupted<T: Read>(file: &mut T, buf: &mut [u8]) -> io::Result<usize>
    ensures { IfOk result (λ count. count ≤ length buf.new) }
{
    for _try in 1..MOST_TRIES {
        match file.read(buf) {
            Err(error) if error.kind() == ErrorKind::Interrupted => {}
            read => return read,
        }
    }
    file.read(buf)
}

impl<R: Files> Folder for DiskFolder<'_, R> {
    ghost contents = { λ _ _. None };

    ghost allows = { λ _ _. true };

    ghost faults = { λ folder. folder.faults };

    ghost given = { λ folder. folder.given };

    fn piece(&mut self, name: &str, at_byte: u64, buf: &mut [u8]) -> Result<usize, Failed> {
        match read_on(self.rt, &mut self.opened, name, at_byte, buf) {
            Ok(count) => {
                self.given = self.given.saturating_add(count as u64);
                Ok(count)
            }
            Err(_) => {
                self.faults = self.faults.saturating_add(1);
                Err(Failed)
            }
        }
    }
}
