ghost use Rattle.std.specs.Prelude.{◌≡◌};
ghost use Rattle.fuun_top.specs.Asked.{sorted};
ghost use Rattle.fuun_top.specs.Reading.{text_file};
ghost use Rattle.fuun_top.specs.ReadingRoom.{IsInRange};
ghost use Rattle.fuun_words.specs.Requests.{IsInRange as IsRequestInRange};

use crate::InFile;
use fuun_words::{ExplainWords, Name, Request, RewindWords, RunWords};
use rna_code::Profile;

/// What is written of a run.
#[derive(Clone, Copy, Debug)]
pub(crate) enum RunVerb {
    /// Its RNA.
    Rna,
    /// The picture that its RNA draws.
    Image(Profile),
    /// The DNA where it ended.
    Dna,
}

/// What is written of the commands of an RNA file.
#[derive(Clone, Copy, Debug)]
pub(crate) enum RnaVerb {
    /// The picture that they draw.
    Draw(Profile),
    /// Their names in a profile's table.
    Names(Profile),
}

/// What DNA is made of the text of a file.
#[derive(Clone, Copy, Debug)]
pub(crate) enum TextVerb {
    /// The prefix of a patch file, of at most so many bases.
    Patch { limit: u64 },
    /// The DNA that is read as the pairs of a listing's text.
    Assemble,
    /// The DNA that a source compiles to, of at most so many bases.
    Compile { limit: u64 },
    /// A DNA that draws a picture, of at most so many bases.
    Picture { limit: u64 },
}

impl TextVerb {
    /// What the file is called.
    pub(crate) fn file(self) -> InFile
        ensures { result ≡ text_file self }
    {
        match self {
            TextVerb::Patch { .. } => InFile::Patch,
            TextVerb::Assemble => InFile::Text,
            TextVerb::Compile { .. } => InFile::Source,
            TextVerb::Picture { .. } => InFile::Ppm,
        }
    }
}

/// What is asked for, by what it works on.
#[derive(Debug, Drop)]
pub(crate) enum Asked {
    /// A run, by its words.
    Run(RunVerb, RunWords),
    /// The attempts of a run, by its words.
    Trace(RunWords),
    /// An RNA file, by its name.
    Rna(RnaVerb, Name),
    /// The listing of a DNA file, by its name: at most so many pairs.
    Listing(Name, u64),
    /// The DNA that is made of a text, by its file's name.
    Text(TextVerb, Name),
    /// What a prefix does to every DNA of a length.
    Explain(ExplainWords),
    /// A run that a script goes through, forward and back.
    Rewind(RewindWords),
    /// A run on a load that is drawn from a seed.
    Bench { seed: u64, size: u64, rounds: u64 },
}

/// Sorts a request by what it works on.
pub(crate) fn sorted(request: Request) -> Asked
    requires { IsRequestInRange request }
    ensures sorted { result ≡ sorted request }
    ensures in_range { IsInRange result }
{
    match request {
        Request::Rna(words) => Asked::Run(RunVerb::Rna, words),
        Request::Image { run, profile } => Asked::Run(RunVerb::Image(profile), run),
        Request::Trace(words) => Asked::Trace(words),
        Request::Dna(words) => Asked::Run(RunVerb::Dna, words),
        Request::Draw { rna, profile } => Asked::Rna(RnaVerb::Draw(profile), rna),
        Request::Names { rna, profile } => Asked::Rna(RnaVerb::Names(profile), rna),
        Request::List { dna, count } => Asked::Listing(dna, count),
        Request::Patch { file, limit } => Asked::Text(TextVerb::Patch { limit }, file),
        Request::Bench { seed, size, rounds } => Asked::Bench { seed, size, rounds },
        Request::Assemble { text } => Asked::Text(TextVerb::Assemble, text),
        Request::Compile { source, limit } => Asked::Text(TextVerb::Compile { limit }, source),
        Request::Picture { ppm, limit } => Asked::Text(TextVerb::Picture { limit }, ppm),
        Request::Explain(words) => Asked::Explain(words),
        Request::Rewind(words) => Asked::Rewind(words),
    }
}
