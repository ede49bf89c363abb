//! The conversation.
ghost use Rattle.std.specs.Prelude.{◌≡◌, ◌≢◌, ◌+◌, ◌^◌, ◌<◌, ◌≤◌, length, vec_len, IsTrue, IfOk, IfSome, OnErr, OnOk};
ghost use Rattle.conversation.specs.Talking.{HasBrokenOff, HasTalked, HasWaited};
ghost use Rattle.fuun_io.specs.Counts.{raised, HasCause, Rose};
ghost use Rattle.fuun_io.specs.Files.{Gives};

use crate::lines::{answer_last, answer_lines};
use crate::{Answerer, TalkError};
use fuun_base::Steps;
use fuun_io::{Failed, Folder, Sink};
use std::alloc::{AllocError, Global};
use std::sync::ledger::Ledger;

/// Bytes asked for at a time.
pub(crate) const PIECE_BYTES: usize = 1 << 16;

/// Reads a file from its first byte on, at most `cap` bytes of it, and answers each line as soon as its line feed was given.
/// Bytes behind the last line feed are a line too, which is answered at the end of the file or after `cap` bytes. No byte is
/// asked for beyond these. What it keeps is one piece and one line.
pub fn converse<F: Folder, A: Answerer, K: Sink, L: Ledger>(
    alloc: Global,
    folder: &mut F,
    name: &str,
    cap: u64,
    answerer: &mut A,
    steps: &mut Steps<L>,
    sink: &mut K,
) -> Result<(), TalkError>
    requires small { cap ≤ 2 ^ 40 }
    requires allowed { IsTrue (F.allows folder.old name.now) }

    ensures talked { OnOk result (HasTalked A.says (F.contents folder.old name.now) cap (F.given folder.old) (F.given folder.new) answerer.old answerer.new (K.bytes sink.old) (K.bytes sink.new)) }
    ensures read { result ≡ Err TalkError.ReadFault → HasWaited A.says (F.contents folder.old name.now) cap (F.given folder.old) (F.given folder.new) answerer.old answerer.new (K.bytes sink.old) (K.bytes sink.new) }
    ensures broke { OnErr result (HasBrokenOff A.says (F.contents folder.old name.now) cap (F.given folder.old) (F.given folder.new) answerer.old (K.bytes sink.old) (K.bytes sink.new)) }

    ensures read_fault { result ≡ Err TalkError.ReadFault → Rose (F.faults folder.old) (F.faults folder.new) }
    ensures no_read_fault { result ≢ Err TalkError.ReadFault → F.faults folder.new ≡ F.faults folder.old }
    ensures write_fault { result ≡ Err TalkError.WriteFault → Rose (K.faults sink.old) (K.faults sink.new) }
    ensures no_write_fault { result ≢ Err TalkError.WriteFault → K.faults sink.new ≡ K.faults sink.old }

    ensures same_contents { F.contents folder.new ≡ F.contents folder.old }
    ensures same_names { F.allows folder.new ≡ F.allows folder.old }
{
    let mut buffer = buffer(alloc)?;
    let mut waiting = Vec::new(alloc);
    let mut at = 0;
    while at < cap {
        let count = ask(folder, name, at, cap, &mut buffer)?;
        if count == 0 {
            return answer_last(&waiting, answerer, steps, sink);
        }
        answer_lines(&buffer[..count], &mut waiting, answerer, steps, sink)?;
        at += count as u64;
    }
    answer_last(&waiting, answerer, steps, sink)
}

// Asks for the bytes from a place on, at most as many as the buffer takes, and none past the cap.
fn ask<F: Folder>(
    folder: &mut F,
    name: &str,
    at: u64,
    cap: u64,
    buffer: &mut [u8],
) -> Result<usize, Failed>
    requires room { 0 < length buffer.old }
    requires before { at < cap }
    requires small { cap ≤ 2 ^ 40 }
    requires allowed { IsTrue (F.allows folder.old name.now) }

    ensures bound { IfOk result (λ count. count ≤ length buffer.new) }
    ensures within { IfOk result (λ count. at + count ≤ cap) }
    ensures bytes { IfOk result (λ count. IfSome (F.contents folder.old name.now)
        (λ bytes. Gives bytes at count buffer.new)) }
    ensures given { IfOk result (λ count. F.given folder.new ≡ raised (F.given folder.old) count) }
    ensures none_given { OnErr result (F.given folder.new ≡ F.given folder.old) }
    ensures cause { HasCause (F.faults folder.old) (F.faults folder.new) result }

    ensures same_length { length buffer.new ≡ length buffer.old }
    ensures same_contents { F.contents folder.new ≡ F.contents folder.old }
    ensures same_names { F.allows folder.new ≡ F.allows folder.old }
{
    let room = buffer.len().min((cap - at) as usize);
    folder.piece(name, at, &mut buffer[..room])
}

// Room for one piece.
fn buffer(alloc: Global) -> Result<Vec<u8>, AllocError>
    ensures { IfOk result (λ buffer. vec_len buffer ≡ PIECE_BYTES) }
{
    vec![in alloc; 0; PIECE_BYTES]
}
