//! Kinds of bytes, and how far they stretch.
ghost use Rattle.std.specs.Prelude.{◌≡◌, ◌≤◌, drop, length};
ghost use Rattle.source_tokens.specs.Bytes.{is_lower, is_of, stretch};
ghost use Rattle.fuun_base.specs.Letter.{is_blank};

use fuun_base::is_digit;

/// What a byte may be.
#[derive(Clone, Copy)]
pub(crate) enum Kind {
    Blank,
    Digit,
    NamePart,
}

/// How many bytes of a kind stand at the front.
pub(crate) fn stretch(kind: Kind, bytes: &[u8]) -> usize
    ensures value { result ≡ stretch kind bytes.now }
    ensures within { result ≤ length bytes.now }
{
    'stretch: for (place, byte) in bytes.iter().enumerate() {
        if !is_of(kind, *byte) {
            return place;
        }
    }
    bytes.len()
}

fn is_of(kind: Kind, byte: u8) -> bool
    ensures { result ≡ is_of kind byte }
{
    match kind {
        Kind::Blank => is_blank(byte),
        Kind::Digit => is_digit(byte),
        Kind::NamePart => is_lower(byte) || is_digit(byte) || byte == b'_',
    }
}

pub(crate) fn is_blank(byte: u8) -> bool
    ensures { result ≡ is_blank byte }
{
    byte == b' ' || byte == b'\t' || byte == b'\r'
}

pub(crate) fn is_lower(byte: u8) -> bool
    ensures { result ≡ is_lower byte }
{
    b'a' <= byte && byte <= b'z'
}

/// What stands from a place on.
pub(crate) fn rest_from(bytes: &[u8], place: usize) -> &[u8]
    requires { place ≤ length bytes.now }
    ensures { result.now ≡ drop place bytes.now }
{
    &bytes[place..]
}
