// DNA that is made of the text of a file.
ghost use Rattle.std.specs.Prelude.{◌≡◌, ◌^◌, ◌≤◌, length};
ghost use Rattle.draw_compile.specs.Drawing.{drawing};
ghost use Rattle.patch_compile.specs.Compiled.{compiled};
ghost use Rattle.picture_in.specs.Pixmap.{picture_of};
ghost use Rattle.explainer.specs.Lines.{explained_text};
ghost use Rattle.fuun_top.specs.declared.inputs.Inputs.TheVariants as inputs;
ghost use Rattle.fuun_top.specs.Making.{IsAssembledText, IsCompiledText, IsExplanation, IsMade, compile_refusal, drawn, drawn_within, patch_prefix, source_refusal, told};
ghost use Rattle.fuun_top.specs.Output.{IsAnswer};
ghost use Rattle.fuun_top.specs.Reading.{most_bytes};
ghost use Rattle.fuun_top.specs.ReadingRoom.{AreInRange, IsTextInRange};
ghost use Rattle.fuun_top.specs.Texts.{letters};
ghost use Rattle.fuun_top.specs.WritingRoom.{Makes, Wrote};

use crate::Status;
use crate::letters::put_list;
use crate::output::status_after;
use crate::request::TextVerb;
use assembler::{AsmError, assemble};
use draw_compile::{DrawError, compile_picture};
use explainer::{ExplainError, Explained, explain, put_explained};
use fuun_base::{BaseList, List};
use fuun_io::Sink;
use patch_compile::{CompileError, compile};
use patch_text::{PatchError, PatchFile, read_patches};
use picture_in::{Picture, PpmError, read_ppm};
use source_compile::SourceError;
use std::alloc::Global;

/// Writes the letters of the DNA that a verb makes of a text, or answers why there is none.
pub(crate) fn put_text<S: Sink>(
    alloc: Global,
    verb: TextVerb,
    text: &List<u8>,
    out: &mut S,
) -> Status
    requires in_range { IsTextInRange verb }
    requires most { length text.now ≤ most_bytes }
    ensures { Wrote (IsAnswer (IsMade verb text.now) letters) result
        (S.bytes out.old) (S.bytes out.new) (S.faults out.old) (S.faults out.new) }
{
    match made_of(alloc, verb, text) {
        Ok(dna) => status_after(put_list(&dna, out), Status::Done),
        Err(status) => status,
    }
}

/// The DNA that a verb makes of a text.
fn made_of(alloc: Global, verb: TextVerb, text: &List<u8>) -> Result<BaseList, Status>
    requires in_range { IsTextInRange verb }
    requires most { length text.now ≤ most_bytes }
    ensures { Makes (IsMade verb text.now) result }
{
    match verb {
        TextVerb::Patch { limit } => compiled_text(alloc, text.as_slice(), limit),
        TextVerb::Assemble => assembled(alloc, text.as_slice()),
        TextVerb::Compile { limit } => compiled_source(alloc, text.as_slice(), limit),
        TextVerb::Picture { limit } => drawn_file(alloc, text.as_slice(), limit),
    }
}

/// The prefix that the text of a patch file compiles to, of at most `limit` bases.
fn compiled_text(alloc: Global, text: &[u8], limit: u64) -> Result<BaseList, Status>
    requires limit { limit ≤ 2 ^ 40 }
    requires most { length text.now ≤ most_bytes }
    ensures { Makes (λ made. made ≡ patch_prefix limit text.now) result }
{
    match read_patches(alloc, text) {
        Ok(file) => compiled(alloc, &file, limit),
        Err(PatchError::BadToml) => Err(Status::BadToml),
        Err(PatchError::BadPatch { index }) => Err(Status::BadPatch { index }),
        Err(PatchError::NoMemory) => Err(Status::NoMemory),
    }
}

/// The prefix of a patch file, of at most `limit` bases.
fn compiled(alloc: Global, file: &PatchFile, limit: u64) -> Result<BaseList, Status>
    requires { limit ≤ 2 ^ 40 }
    ensures { Makes (λ made. made ≡ told compile_refusal (compiled file.now limit)) result }
{
    match compile(alloc, file, limit) {
        Ok(prefix) => Ok(prefix),
        Err(CompileError::Outside { index }) => Err(Status::Outside { index }),
        Err(CompileError::TooLong) => Err(Status::TooLong { attempt: 0 }),
        Err(CompileError::NoMemory) => Err(Status::NoMemory),
    }
}

/// The DNA of a listing's text.
fn assembled(alloc: Global, text: &[u8]) -> Result<BaseList, Status>
    requires { length text.now ≤ most_bytes }
    ensures { Makes (IsAssembledText text.now) result }
{
    match assemble(alloc, text) {
        Ok(dna) => Ok(dna),
        Err(AsmError::BadText { line }) => Err(Status::BadText { line }),
        Err(AsmError::Unreadable { line }) => Err(Status::Unreadable { line }),
        Err(AsmError::NoMemory) => Err(Status::NoMemory),
    }
}

/// The DNA that a source compiles to, of at most `limit` bases.
fn compiled_source(alloc: Global, source: &[u8], limit: u64) -> Result<BaseList, Status>
    requires { limit ≤ 2 ^ 40 }
    ensures { Makes (IsCompiledText limit source.now) result }
{
    match source_compile::compile(alloc, source, limit) {
        Ok(dna) => Ok(dna),
        Err(error) => Err(source_refusal(error)),
    }
}

/// The status that tells why a source has no DNA.
fn source_refusal(error: SourceError) -> Status
    ensures { result ≡ source_refusal error }
{
    match error {
        SourceError::BadSource(place) => Status::BadSource {
            line: place.line,
            column: place.column,
        },
        SourceError::BadName(place) => Status::BadName {
            line: place.line,
            column: place.column,
        },
        SourceError::BadNumber(place) => Status::BadNumber {
            line: place.line,
            column: place.column,
        },
        SourceError::NoCode(place) => Status::NoCode {
            line: place.line,
            column: place.column,
        },
        SourceError::TooLong => Status::TooLong { attempt: 0 },
        SourceError::NoMemory => Status::NoMemory,
    }
}

/// The DNA that draws the picture of a file, of at most `limit` bases.
fn drawn_file(alloc: Global, bytes: &[u8], limit: u64) -> Result<BaseList, Status>
    requires { limit ≤ 2 ^ 40 }
    ensures { Makes (λ made. made ≡ drawn limit (picture_of bytes.now)) result }
{
    match read_ppm(alloc, bytes) {
        Ok(picture) => drawn(alloc, &picture, limit),
        Err(PpmError::BadPpm) => Err(Status::BadPpm),
        Err(PpmError::NoMemory) => Err(Status::NoMemory),
    }
}

/// The DNA that draws a picture, of at most `limit` bases.
fn drawn(alloc: Global, picture: &Picture, limit: u64) -> Result<BaseList, Status>
    requires { limit ≤ 2 ^ 40 }
    ensures { Makes (λ made. made ≡ drawn_within limit (drawing picture.now)) result }
{
    match compile_picture(alloc, picture, limit) {
        Ok(dna) => Ok(dna),
        Err(DrawError::TooLong) => Err(Status::TooLong { attempt: 0 }),
        Err(DrawError::NoMemory) => Err(Status::NoMemory),
    }
}

/// Writes what a prefix does to every DNA of `length` bases in up to `attempts` attempts, or answers why that is not told.
pub(crate) fn put_explained_prefix<S: Sink>(
    alloc: Global,
    prefix: &BaseList,
    length: u64,
    attempts: u64,
    limit: u64,
    out: &mut S,
) -> Status
    requires { AreInRange (inputs.Explain prefix.now length attempts limit) }
    ensures { Wrote (IsAnswer (IsExplanation prefix.now length attempts limit) explained_text) result
        (S.bytes out.old) (S.bytes out.new) (S.faults out.old) (S.faults out.new) }
{
    match explained(alloc, prefix, length, attempts, limit) {
        Ok(found) => status_after(put_explained(&found, out), Status::Done),
        Err(refusal) => refusal,
    }
}

/// What a prefix does to every DNA of `length` bases in up to `attempts` attempts.
fn explained(
    alloc: Global,
    prefix: &BaseList,
    length: u64,
    attempts: u64,
    limit: u64,
) -> Result<Explained, Status>
    requires { AreInRange (inputs.Explain prefix.now length attempts limit) }
    ensures { Makes (IsExplanation prefix.now length attempts limit) result }
{
    match explain(alloc, prefix.as_slice(), length, attempts, limit) {
        Ok(found) => Ok(found),
        Err(ExplainError::Depends { attempt }) => Err(Status::Depends { attempt }),
        Err(ExplainError::TooLong { attempt }) => Err(Status::TooLong { attempt }),
        Err(ExplainError::NoMemory) => Err(Status::NoMemory),
    }
}
