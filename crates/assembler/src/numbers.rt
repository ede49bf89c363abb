//! Numbers in a text.
ghost use Rattle.std.specs.Prelude.{◌≡◌, ◌+◌, ◌≤◌, drop, length, IfSome};
ghost use Rattle.assembler.specs.Ahead.{digits_ahead, ended_ahead, number_ahead, stands, with_digit};

use dna_items::BIG;
use fuun_base::is_digit;

/// The number below 2^63 that stands at the front, without leading zeros, and how many bytes it takes.
#[tactic(auto, unfolding(crate::specs::Ahead::number_ahead))]
pub(crate) fn number(bytes: &[u8]) -> Option<(u64, usize)>
    ensures value { result ≡ number_ahead bytes.now }
    ensures within { IfSome result (λ found. found.1 ≤ length bytes.now) }
{
    let (first, rest) = bytes.split_first()?;
    if *first == b'0' {
        return Some((0, 1));
    }
    if is_digit(*first) {
        digits(u64::from(*first - b'0'), rest)
    } else {
        None
    }
}

// Reads on behind a first digit, to the last one.
fn digits(first: u64, rest: &[u8]) -> Option<(u64, usize)>
    ensures value { result ≡ digits_ahead first 1 rest.now }
    ensures within { IfSome result (λ found. found.1 ≤ length rest.now + 1) }
{
    let mut n = first;
    'digits: for (place, byte) in rest.iter().enumerate() {
        if !is_digit(*byte) {
            return Some((n, place + 1));
        }
        n = with_digit(n, *byte)?;
    }
    Some((n, rest.len() + 1))
}

// A number with a digit behind it: None from 2^63 on.
fn with_digit(n: u64, digit: u8) -> Option<u64>
    requires { 48 ≤ digit }
    ensures { result ≡ with_digit n digit }
{
    let more = u128::from(n) * 10 + u128::from(digit - b'0');
    if more < u128::from(BIG) {
        Some(more as u64)
    } else {
        None
    }
}

/// The number that stands at the front before a byte, and how many bytes both take.
#[tactic(auto, unfolding(crate::specs::Ahead::ended_ahead))]
pub(crate) fn ended_number(end: u8, bytes: &[u8]) -> Option<(u64, usize)>
    ensures value { result ≡ ended_ahead end bytes.now }
    ensures within { IfSome result (λ found. found.1 ≤ length bytes.now) }
{
    let (n, len) = number(bytes)?;
    if stands(end, rest_from(bytes, len)) {
        Some((n, len + 1))
    } else {
        None
    }
}

fn stands(end: u8, bytes: &[u8]) -> bool
    ensures { result ≡ stands end bytes.now }
{
    match bytes.first() {
        Some(byte) => *byte == end,
        None => false,
    }
}

/// What stands from a place on.
pub(crate) fn rest_from(bytes: &[u8], place: usize) -> &[u8]
    ensures { result.now ≡ drop place bytes.now }
{
    &bytes[bytes.len().min(place)..]
}
