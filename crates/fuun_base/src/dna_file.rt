ghost use Rattle.std.specs.Prelude.{◌≡◌, ℕ, ◌≤◌, ◌++◌, length, take, Some, OnOk, IfOk, IsTrue};
ghost use Rattle.std.specs.List.{list_all};
ghost use Rattle.fuun_base.specs.declared.dna_file.DnaError.TheVariants.{NoMemory as OutOfMemory};
ghost use Rattle.fuun_base.specs.Letter.{base_of, is_letter};
ghost use Rattle.fuun_base.specs.DnaFile.{bases, first_other, is_skipped, IsDnaFront};

use crate::letters::is_blank;
use crate::{Base, BaseList, NoMemory};
use std::alloc::{AllocError, Global};

/// Why bytes are no DNA file.
#[derive(Clone, Copy, Debug, PartialEq, Eq)]
pub enum DnaError {
    /// The first byte that is no letter of a base, as its place in bytes from 0.
    BadBase { place: u64 },
    NoMemory,
}

impl From<AllocError> for DnaError {
    ghost from_gives = { λ _ e. e ≡ OutOfMemory };

    fn from(_: AllocError) -> Self {
        DnaError::NoMemory
    }
}

impl From<NoMemory> for DnaError {
    ghost from_gives = { λ _ e. e ≡ OutOfMemory };

    fn from(_: NoMemory) -> Self {
        DnaError::NoMemory
    }
}

/// How many bytes are read at once.
const BLOCK: usize = 64;

/// Reads a DNA file: the letters I, C, F and P. Space, tab, carriage return and line feed are skipped.
pub fn read_dna(alloc: Global, bytes: &[u8]) -> Result<BaseList, DnaError>
    ensures bases { IfOk result (λ list. list ≡ bases bytes.now) }
    ensures most { IfOk result (λ list. length list ≤ length bytes.now) }
    ensures no_other { OnOk result (first_other bytes.now ≡ None) }
    ensures other { (place : ℕ) → result ≡ Err (DnaError.BadBase place) → first_other bytes.now ≡ Some place }
{
    let mut list = Vec::with_capacity(alloc, bytes.len())?;
    let mut done = 0;
    while done < bytes.len() {
        let block = &bytes[done..bytes.len().min(done + BLOCK)];
        let count = put_block(block, &mut list)?;
        done += count;
        if count < block.len() {
            return Err(DnaError::BadBase { place: done as u64 });
        }
    }
    Ok(BaseList::from_vec(alloc, list)?)
}

// Appends the bases at the front of a block, up to the first byte that is neither a letter nor skipped, and answers how
// many bytes that are.
fn put_block(block: &[u8], list: &mut Vec<Base>) -> Result<usize, NoMemory>
    ensures front { IfOk result (IsDnaFront block.now) }
    ensures added { IfOk result (λ count. list.new.items ≡ list.old.items ++ bases (take count block.now)) }
{
    if are_letters(block) {
        return put_letters(block, list);
    }
    put_each(block, list)
}

fn put_each(block: &[u8], list: &mut Vec<Base>) -> Result<usize, NoMemory>
    ensures front { IfOk result (IsDnaFront block.now) }
    ensures added { IfOk result (λ count. list.new.items ≡ list.old.items ++ bases (take count block.now)) }
{
    for (index, byte) in block.iter().enumerate() {
        if let Some(base) = Base::from_letter(*byte) {
            list.push(base)?;
        } else if !is_skipped(*byte) {
            return Ok(index);
        }
    }
    Ok(block.len())
}

// Appends the bases of a block of letters.
fn put_letters(block: &[u8], list: &mut Vec<Base>) -> Result<usize, NoMemory>
    requires { IsTrue (list_all is_letter block.now) }
    ensures front { IfOk result (IsDnaFront block.now) }
    ensures added { IfOk result (λ count. list.new.items ≡ list.old.items ++ bases (take count block.now)) }
{
    let start = list.len();
    list.reserve(block.len())?;
    list.resize(start + block.len(), Base::I)?;
    fill_letters(block, &mut list.as_mut_slice()[start..]);
    Ok(block.len())
}

// Writes the base of each letter.
pub(crate) fn fill_letters(block: &[u8], slots: &mut [Base])
    requires letters { IsTrue (list_all is_letter block.now) }
    requires len { length slots.old ≡ length block.now }
    ensures { slots.new ≡ bases block.now }
{
    for (index, letter) in block.iter().enumerate() {
        slots[index] = base_at(*letter);
    }
}

// The base of a letter.
fn base_at(letter: u8) -> Base
    requires { IsTrue (is_letter letter) }
    ensures { base_of letter ≡ Some result }
{
    let code = u8::from(letter == b'C')
        + 2 * u8::from(letter == b'F')
        + 3 * u8::from(letter == b'P');
    match code {
        0 => Base::I,
        1 => Base::C,
        2 => Base::F,
        _ => Base::P,
    }
}

pub(crate) fn are_letters(block: &[u8]) -> bool
    ensures { result ≡ list_all is_letter block.now }
{
    let mut all = true;
    for byte in block {
        all &= is_letter(*byte);
    }
    all
}

fn is_letter(byte: u8) -> bool
    ensures { result ≡ is_letter byte }
{
    (byte == b'I') | (byte == b'C') | (byte == b'F') | (byte == b'P')
}

fn is_skipped(byte: u8) -> bool
    ensures { result ≡ is_skipped byte }
{
    is_blank(byte) || byte == b'\n'
}
