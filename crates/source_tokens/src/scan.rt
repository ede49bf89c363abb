//! The words of a line.
ghost use Rattle.std.specs.Prelude.{◌≡◌, ◌+◌, ◌≤◌, ◌^◌, ◌<◌, length, min, IfOk, OnOk};
ghost use Rattle.source_tokens.specs.Statements.{line_scan};
ghost use Rattle.source_tokens.specs.Words.{base_or_other, is_arrow, number_of, sign_of, with_digit, word_at};

use crate::bytes::{Kind, is_blank, is_lower, rest_from, stretch};
use crate::names::Names;
use crate::words::{Token, Word};
use fuun_base::{Base, List, NoMemory, is_digit};
use std::alloc::Global;

/// Reads the tokens of a line that stands behind so many bytes, and tells the place behind the last of them.
pub(crate) fn line_tokens(
    alloc: Global,
    names: &mut Names,
    at: usize,
    line: &[u8],
) -> Result<(List<Token>, u64), NoMemory>
    requires { at + length line.now < 2 ^ 63 }
    ensures tokens { IfOk result (λ read. read.0 ≡ (line_scan names.old at line.now).tokens) }
    ensures end { IfOk result (λ read. read.1 ≡ (line_scan names.old at line.now).end) }
    ensures met { OnOk result (names.new ≡ (line_scan names.old at line.now).met) }
{
    let mut tokens = List::new(alloc);
    let mut end = at as u64;
    let mut place = 0;
    'words: while place < line.len() {
        if is_blank(line[place]) {
            place += 1;
        } else {
            let (word, more) = word(names, rest_from(line, place))?;
            tokens.push(Token {
                word,
                at: (at + place) as u64,
            })?;
            place += more + 1;
            end = (at + place) as u64;
        }
    }
    Ok((tokens, end))
}

// The word at the front, and how many bytes it has behind its first.
#[tactic(auto, unfolding(crate::specs::Words::word_at))]
fn word(names: &mut Names, bytes: &[u8]) -> Result<(Word, usize), NoMemory>
    requires { 0 < length bytes.now }
    ensures word { IfOk result (λ read. read.0 ≡ (word_at names.old bytes.now).word) }
    ensures more { IfOk result (λ read. read.1 ≡ (word_at names.old bytes.now).more) }
    ensures met { OnOk result (names.new ≡ (word_at names.old bytes.now).met) }
    ensures within { IfOk result (λ read. read.1 < length bytes.now) }
{
    let first = bytes[0];
    let rest = rest_from(bytes, 1);
    if is_lower(first) {
        let more = stretch(Kind::NamePart, rest);
        let id = names.id(&bytes[..more + 1])?;
        return Ok((Word::Name(id), more));
    }
    if is_digit(first) {
        let more = stretch(Kind::Digit, rest);
        return Ok((Word::Number(number(&bytes[..more + 1])), more));
    }
    if is_arrow(first, rest) {
        return Ok((Word::Arrow, 1));
    }
    Ok((sign(first), 0))
}

// Whether an arrow stands at the front.
fn is_arrow(first: u8, rest: &[u8]) -> bool
    ensures { result ≡ is_arrow first rest.now }
{
    match rest.first() {
        Some(next) => first == b'-' && *next == b'>',
        None => false,
    }
}

// The number that digits stand for, held at 2^63.
fn number(digits: &[u8]) -> u64
    ensures { result ≡ min (number_of digits.now) (2 ^ 63) }
{
    let mut n = 0;
    'digits: for digit in digits {
        n = with_digit(n, *digit);
    }
    n
}

// A number with a digit behind it.
fn with_digit(n: u64, digit: u8) -> u64
    requires { n ≤ 2 ^ 63 }
    ensures { result ≡ min (with_digit n digit) (2 ^ 63) }
{
    let more = u128::from(n) * 10 + u128::from(digit.saturating_sub(b'0'));
    more.min(1 << 63) as u64
}

// The byte that is a word by itself.
fn sign(byte: u8) -> Word
    ensures { result ≡ sign_of byte }
{
    match byte {
        b'=' => Word::Equals,
        b':' => Word::Colon,
        b';' => Word::Semicolon,
        b',' => Word::Comma,
        b'+' => Word::Plus,
        b'*' => Word::Star,
        b'!' => Word::Bang,
        b'|' => Word::Bar,
        b'(' => Word::Open,
        b')' => Word::Close,
        b'[' => Word::OpenBracket,
        b']' => Word::CloseBracket,
        b'{' => Word::OpenBrace,
        b'}' => Word::CloseBrace,
        b'<' => Word::Less,
        b'>' => Word::Greater,
        _ => base_or_other(byte),
    }
}

fn base_or_other(byte: u8) -> Word
    ensures { result ≡ base_or_other byte }
{
    match Base::from_letter(byte) {
        Some(base) => Word::Base(base),
        None => Word::Other,
    }
}
