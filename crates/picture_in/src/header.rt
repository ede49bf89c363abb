//! The header of a pixmap.
ghost use Rattle.std.specs.Prelude.{◌≡◌, ◌+◌, ◌-◌, ◌*◌, ◌≤◌, ◌<◌, true, false, min};
ghost use Rattle.std.specs.Option.{option_copied};
ghost use Rattle.fuun_base.specs.Decimals.{is_digit};
ghost use Rattle.picture_in.specs.Header.{behind_blanks, behind_digits, behind_gap, behind_header, behind_kind, behind_number, behind_white, behind_word, is_white};

use crate::picture::SIDE;
use fuun_base::is_digit;

/// The highest value of a channel.
const HIGHEST: u32 = 255;

/// A value that is as good as any larger one, since no number of a header is so large.
const LARGE: u32 = 1000;

/// What stands behind the header.
#[tactic(auto, unfolding(crate::specs::Header::behind_header))]
pub(crate) fn behind_header(bytes: &[u8]) -> Option<&[u8]>
    ensures { option_copied result ≡ behind_header bytes.now }
{
    let rest = behind_kind(bytes)?;
    let rest = behind_word(rest, SIDE)?;
    let rest = behind_word(rest, SIDE)?;
    let rest = behind_word(rest, HIGHEST)?;
    behind_white(rest)
}

// What stands behind P6.
fn behind_kind(bytes: &[u8]) -> Option<&[u8]>
    ensures { option_copied result ≡ behind_kind bytes.now }
{
    match bytes {
        [b'P', b'6', rest @ ..] => Some(rest),
        _ => None,
    }
}

// What stands behind a gap and a number.
#[tactic(auto, unfolding(crate::specs::Header::behind_word))]
fn behind_word(bytes: &[u8], value: u32) -> Option<&[u8]>
    requires { value < LARGE }
    ensures { option_copied result ≡ behind_word value bytes.now }
{
    let rest = behind_gap(bytes)?;
    behind_number(rest, value)
}

// What stands behind one white byte.
fn behind_white(bytes: &[u8]) -> Option<&[u8]>
    ensures { option_copied result ≡ behind_white bytes.now }
{
    match bytes {
        [byte, rest @ ..] if is_white(*byte) => Some(rest),
        _ => None,
    }
}

// What stands behind one or more white bytes and comments.
fn behind_gap(bytes: &[u8]) -> Option<&[u8]>
    ensures { option_copied result ≡ behind_gap bytes.now }
{
    match bytes {
        [byte, ..] if is_white(*byte) || *byte == b'#' => behind_blanks(bytes),
        _ => None,
    }
}

// What stands behind white bytes and comments: None where a comment has no line feed.
fn behind_blanks(bytes: &[u8]) -> Option<&[u8]>
    ensures { option_copied result ≡ behind_blanks false bytes.now }
{
    let mut in_comment = false;
    for (index, byte) in bytes.iter().enumerate() {
        if in_comment {
            in_comment = *byte != b'\n';
        } else if *byte == b'#' {
            in_comment = true;
        } else if !is_white(*byte) {
            return Some(&bytes[index..]);
        }
    }
    if in_comment {
        None
    } else {
        Some(&bytes[bytes.len()..])
    }
}

// What stands behind one or more digits with this value.
fn behind_number(bytes: &[u8], value: u32) -> Option<&[u8]>
    requires { value < LARGE }
    ensures { option_copied result ≡ behind_number value bytes.now }
{
    match bytes {
        [byte, ..] if is_digit(*byte) => {
            let (read, rest) = behind_digits(bytes);
            if read == value { Some(rest) } else { None }
        }
        _ => None,
    }
}

// The value of the digits in front, or `LARGE` where it is larger, and what stands behind them.
fn behind_digits(bytes: &[u8]) -> (u32, &[u8])
    ensures value { result.0 ≡ min LARGE (behind_digits 0 bytes.now).0 }
    ensures rest { result.1.now ≡ (behind_digits 0 bytes.now).1 }
{
    let mut value = 0;
    for (index, byte) in bytes.iter().enumerate() {
        if !is_digit(*byte) {
            return (value, &bytes[index..]);
        }
        value = with_digit(value, *byte);
    }
    (value, &bytes[bytes.len()..])
}

// A value with a further digit, or `LARGE` where it is larger.
fn with_digit(value: u32, byte: u8) -> u32
    requires value { value ≤ LARGE }
    requires digit { is_digit byte ≡ true }
    ensures { result ≡ min LARGE (10 * value + (byte - 48)) }
{
    LARGE.min(10 * value + u32::from(byte - b'0'))
}

fn is_white(byte: u8) -> bool
    ensures { result ≡ is_white byte }
{
    matches!(byte, 9..=13 | b' ')
}
