//! From a source to its DNA.
ghost use Rattle.std.specs.Prelude.{◌≡◌, ◌≢◌, ◌^◌, ◌≤◌, Err, List as ListOf, Ok, Some, length, slice_get, IfErr, IfOk, ℕ};
ghost use Rattle.source_text.specs.Judging.{Placed};
ghost use Rattle.source_text.specs.Taking.{AreKept};
ghost use Rattle.source_tokens.specs.Places.{place_of};
ghost use Rattle.source_compile.specs.Compiled.{IsCompiled, IsSettled, refused};

use fuun_base::{BaseList, NoMemory};
use source_code::{CodeError, settle};
use source_text::{Refusal, Source, read_source};
use source_tokens::{Place, place_of};
use std::alloc::Global;

/// Why a source has no DNA.
#[derive(Clone, Copy, Debug, PartialEq, Eq)]
pub enum SourceError {
    /// A statement is in no form: a token at this place does not stand where it may, or the statement ends before this place.
    BadSource(Place),
    /// The name at this place is not known, stands for something else than is wanted, has another number of templates than its
    /// definition has parameters, or is defined and was known before.
    BadName(Place),
    /// The number at this place is 2^63 or more, or a sum of the pair whose arrow stands there.
    BadNumber(Place),
    /// No DNA has the pattern: a group ends at this place that was not begun, a base stands there behind a search, or the
    /// arrow while a group is open.
    NoCode(Place),
    /// The DNA would be longer than the limit, or what a definition with parameters stands for.
    TooLong,
    NoMemory,
}

/// The DNA of a source, of at most `limit` bases, where `limit` is at most 2^40, or why there is none: the first statement that
/// is refused decides, then the last line with a sum of 2^63 or more, and then the length.
pub fn compile(alloc: Global, source: &[u8], limit: u64) -> Result<BaseList, SourceError>
    requires { limit ≤ 2 ^ 40 }
    ensures taken { IfOk result (λ code. IsCompiled limit source.now (Ok code)) }
    ensures within { IfOk result (λ code. length code ≤ limit) }
    ensures refused { IfErr result (λ error. error ≢ SourceError.NoMemory → IsCompiled limit source.now (Err error)) }
{
    match read_source(alloc, source, limit) {
        Ok(Ok(read)) => settled(alloc, source, &read, limit),
        Ok(Err(refusal)) => Err(refused(source, refusal)),
        Err(NoMemory) => Err(SourceError::NoMemory),
    }
}

// The DNA of a source's lines.
fn settled(alloc: Global, source: &[u8], read: &Source, limit: u64) -> Result<BaseList, SourceError>
    requires { limit ≤ 2 ^ 40 }
    ensures taken { IfOk result (λ dna. (all : ListOf Placed) → AreKept limit read.now.lines read.now.places all → IsSettled limit source.now all (Ok dna)) }
    ensures within { IfOk result (λ dna. length dna ≤ limit) }
    ensures refused { IfErr result (λ error. error ≢ SourceError.NoMemory → (all : ListOf Placed) → AreKept limit read.now.lines read.now.places all → IsSettled limit source.now all (Err error)) }
{
    match settle(alloc, read.lines.as_slice(), limit) {
        Ok(dna) => Ok(dna),
        Err(CodeError::BadNumber { index }) => Err(bad_number(source, read, index)),
        Err(CodeError::TooLong) => Err(SourceError::TooLong),
        Err(CodeError::NoMemory) => Err(SourceError::NoMemory),
    }
}

// A number that is too great, in the line of this index. Each line has a place.
fn bad_number(source: &[u8], read: &Source, index: u64) -> SourceError
    ensures { (at : ℕ) → slice_get read.now.places index ≡ Some at → result ≡ SourceError.BadNumber (place_of source.now at) }
{
    match read.places.as_slice().get(index as usize) {
        Some(at) => SourceError::BadNumber(place(source, *at)),
        None => SourceError::NoMemory,
    }
}

// Why a statement is refused, with the line and the column.
fn refused(source: &[u8], refusal: Refusal) -> SourceError
    ensures { result ≡ refused source.now refusal }
{
    match refusal {
        Refusal::BadForm(at) => SourceError::BadSource(place(source, at)),
        Refusal::BadName(at) => SourceError::BadName(place(source, at)),
        Refusal::BadNumber(at) => SourceError::BadNumber(place(source, at)),
        Refusal::TooLong => SourceError::TooLong,
        Refusal::NoCode(at) => SourceError::NoCode(place(source, at)),
    }
}

// The place behind so many bytes, or behind all of them.
fn place(source: &[u8], at: u64) -> Place
    ensures { result ≡ place_of source.now at }
{
    place_of(source, (at as usize).min(source.len()))
}
