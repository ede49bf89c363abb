//! What words may ask for.
ghost use Rattle.std.specs.Prelude.{◌≡◌};
ghost use Rattle.fuun_words.specs.declared.request.WordsError.TheVariants.{NoMemory as OutOfMemory};

use crate::Name;
use rna_code::Profile;
use std::alloc::AllocError;

/// The options of the verbs that run a DNA file.
#[derive(Debug, Drop)]
pub struct RunWords {
    /// The DNA file.
    pub dna: Name,
    /// The file whose bases stand before those of the DNA file.
    pub prefix: Option<Name>,
    /// The most attempts, from 0 to 2^40.
    pub budget: u64,
    /// The most bases that the DNA may have, from 1 to 2^40.
    pub limit: u64,
}

/// What the words ask for, one variant a verb.
#[derive(Debug, Drop)]
pub enum Request {
    /// The RNA of a run.
    Rna(RunWords),
    /// The picture of a run's RNA.
    Image { run: RunWords, profile: Profile },
    /// The attempts of a run, a line each.
    Trace(RunWords),
    /// The DNA where a run ended.
    Dna(RunWords),
    /// The picture of an RNA file's commands.
    Draw { rna: Name, profile: Profile },
    /// The names of an RNA file's commands.
    Names { rna: Name, profile: Profile },
    /// Patterns and templates that a DNA file holds one after another, at most `count` pairs: from 0 to 2^40.
    List { dna: Name, count: u64 },
    /// The prefix that a patch file compiles to, of at most `limit` bases: from 1 to 2^40.
    Patch { file: Name, limit: u64 },
    /// The summary of a run on a DNA that is drawn from a seed: from 0 to 2^31 - 1. It has `size` bases, from 0 to 2^24,
    /// and a patch list of `rounds` rows, from 0 to 2^16.
    Bench { seed: u64, size: u64, rounds: u64 },
    /// The DNA of a listing's text.
    Assemble { text: Name },
    /// The DNA that a source compiles to, of at most `limit` bases: from 1 to 2^40.
    Compile { source: Name, limit: u64 },
    /// A DNA of at most `limit` bases that draws a picture: from 1 to 2^40.
    Picture { ppm: Name, limit: u64 },
    /// What a prefix does to every DNA of a length.
    Explain(ExplainWords),
    /// What a script shows of a run, forward and back.
    Rewind(RewindWords),
}

/// The words of `explain`.
#[derive(Debug, Drop)]
pub struct ExplainWords {
    pub prefix: Name,
    /// The bases of the DNA that is not known: from 0 to 2^40.
    pub length: u64,
    /// The most attempts: from 0 to 2^40.
    pub attempts: u64,
    /// The most bases that a DNA may have: from 1 to 2^40.
    pub limit: u64,
}

/// The words of `rewind`.
#[derive(Debug, Drop)]
pub struct RewindWords {
    pub dna: Name,
    pub prefix: Option<Name>,
    pub script: Name,
    /// The most bases that a DNA may have: from 1 to 2^40.
    pub limit: u64,
}

/// Why words give no request.
#[derive(Clone, Copy, Debug, PartialEq, Eq)]
pub enum WordsError {
    /// The words are in no form that a verb has.
    Usage,
    NoMemory,
}

impl From<AllocError> for WordsError {
    ghost from_gives = { λ _ e. e ≡ OutOfMemory };

    fn from(_: AllocError) -> Self {
        WordsError::NoMemory
    }
}
