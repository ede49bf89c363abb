// Whole files from a folder.
ghost use Rattle.std.specs.Prelude.{◌≡◌, ◌+◌, ◌^◌, ◌<◌, ◌≤◌, length, vec_len, IsTrue, IfOk, IfSome};
ghost use Rattle.fuun_io.specs.Counts.{raised, Rose};
ghost use Rattle.fuun_io.specs.Reading.{OnTooLong, OnReadFault, UnlessReadFault};
ghost use Rattle.fuun_io.specs.declared.read.ReadError.TheVariants.{ReadFault, NoMemory};

use crate::{Failed, Folder};
use std::alloc::{AllocError, Global};

/// Bytes asked for at a time.
pub(crate) const PIECE_BYTES: usize = 1 << 16;

/// Why a file was not read whole.
#[derive(Clone, Copy, Debug, PartialEq, Eq)]
pub enum ReadError {
    /// A read failed, and the folder has counted it.
    ReadFault,
    /// The file has more bytes than may be read.
    InputTooLong,
    NoMemory,
}

impl From<Failed> for ReadError {
    ghost from_gives = { λ _ e. e ≡ ReadFault };

    fn from(_: Failed) -> Self {
        ReadError::ReadFault
    }
}

impl From<AllocError> for ReadError {
    ghost from_gives = { λ _ e. e ≡ NoMemory };

    fn from(_: AllocError) -> Self {
        ReadError::NoMemory
    }
}

/// Reads a file once, from its first byte to its end, which may lie at most `cap` bytes on. It asks for no
/// byte after a fault, nor once more than `cap` bytes were given.
pub fn read_all<F: Folder>(
    alloc: Global,
    folder: &mut F,
    name: &str,
    cap: u64,
) -> Result<Vec<u8>, ReadError>
    requires small { cap ≤ 2 ^ 40 }
    requires allowed { IsTrue (F.allows folder.old name.now) }

    ensures whole { IfOk result (λ file. IfSome (F.contents folder.old name.now)
        (λ bytes. file.items ≡ bytes)) }
    ensures within { IfOk result (λ file. vec_len file ≤ cap) }
    ensures given { IfOk result (λ file. raised (F.given folder.old) (vec_len file) ≤ F.given folder.new) }

    // Too long is what has more than `cap` bytes; of a file that isn't told, so many were given.
    ensures longer { OnTooLong result (IfSome (F.contents folder.old name.now) (λ bytes. cap < length bytes)) }
    ensures too_much { OnTooLong result (raised (F.given folder.old) (cap + 1) ≤ F.given folder.new) }

    ensures fault { OnReadFault result (Rose (F.faults folder.old) (F.faults folder.new)) }
    ensures no_fault { UnlessReadFault result (F.faults folder.new ≡ F.faults folder.old) }

    ensures never_less { F.given folder.old ≤ F.given folder.new }
    ensures same_contents { F.contents folder.new ≡ F.contents folder.old }
    ensures same_names { F.allows folder.new ≡ F.allows folder.old }
{
    let mut buffer = buffer(alloc)?;
    let mut file = Vec::new(alloc);
    while file.len() as u64 <= cap {
        let count = folder.piece(name, file.len() as u64, &mut buffer)?;
        if count == 0 {
            return Ok(file);
        }
        file.extend_from_slice(&buffer[..count])?;
    }
    Err(ReadError::InputTooLong)
}

// Room for one piece.
fn buffer(alloc: Global) -> Result<Vec<u8>, AllocError>
    ensures { IfOk result (λ buffer. vec_len buffer ≡ PIECE_BYTES) }
{
    vec![in alloc; 0; PIECE_BYTES]
}
