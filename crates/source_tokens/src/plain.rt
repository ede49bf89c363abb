//! A source as it is read: blanks stand for comments and for the line ends that join lines.
ghost use Rattle.std.specs.Prelude.{◌≡◌, IfOk};
ghost use Rattle.source_tokens.specs.Plain.{after, ends_line, is_join, plain, shown, text};

use crate::bytes::{Kind, stretch};
use fuun_base::NoMemory;
use std::alloc::Global;

/// How a line is read at some byte of it.
#[derive(Clone, Copy)]
pub(crate) struct Turn {
    /// In its comment.
    pub(crate) comment: bool,
    /// Behind the `\` that joins it to the next line.
    pub(crate) joined: bool,
}

/// The source with blanks in the place of what says nothing, each byte at its place.
pub(crate) fn plain_text(alloc: Global, bytes: &[u8]) -> Result<Vec<u8>, NoMemory>
    ensures { IfOk result (λ text. text.items ≡ plain bytes.now) }
{
    let mut out = Vec::with_capacity(alloc, bytes.len())?;
    let mut turn = Turn {
        comment: false,
        joined: false,
    };
    'bytes: for (place, byte) in bytes.iter().enumerate() {
        let rest = &bytes[place + 1..];
        out.push(shown(turn, *byte, rest))?;
        turn = after(turn, *byte, rest);
    }
    Ok(out)
}

// What stands for a byte.
fn shown(turn: Turn, byte: u8, rest: &[u8]) -> u8
    ensures { result ≡ shown turn byte rest.now }
{
    if byte == b'\n' {
        return if turn.joined { b' ' } else { b'\n' };
    }
    if turn.comment || byte == b'#' || is_join(byte, rest) {
        b' '
    } else {
        byte
    }
}

// How the line is read behind a byte.
fn after(turn: Turn, byte: u8, rest: &[u8]) -> Turn
    ensures { result ≡ after turn byte rest.now }
{
    if byte == b'\n' {
        return Turn {
            comment: false,
            joined: false,
        };
    }
    if turn.comment || byte == b'#' {
        return Turn {
            comment: true,
            joined: turn.joined,
        };
    }
    Turn {
        comment: false,
        joined: turn.joined || is_join(byte, rest),
    }
}

// Whether a byte is the `\` that joins its line to the next.
fn is_join(byte: u8, rest: &[u8]) -> bool
    ensures { result ≡ is_join byte rest.now }
{
    byte == b'\\' && ends_line(rest)
}

// Whether only blanks and a comment stand before the end of the line.
fn ends_line(bytes: &[u8]) -> bool
    ensures { result ≡ ends_line bytes.now }
{
    match bytes[stretch(Kind::Blank, bytes)..].first() {
        Some(byte) => *byte == b'\n' || *byte == b'#',
        None => true,
    }
}
