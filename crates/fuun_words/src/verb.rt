//! The verbs, and the options that each has.
ghost use Rattle.std.specs.Prelude.{◌≡◌, map};
ghost use Rattle.fuun_words.specs.Commands.{option_of};
ghost use Rattle.fuun_words.specs.Verbs.{verb_of, options_of};

/// The first word of a request.
#[derive(Clone, Copy, Debug)]
pub(crate) enum Verb {
    Rna,
    Image,
    Trace,
    Dna,
    Draw,
    Names,
    List,
    Patch,
    Bench,
    Assemble,
    Compile,
    Picture,
    Explain,
    Rewind,
}

/// Whether a verb asks for an option.
#[derive(Clone, Copy, Debug, PartialEq, Eq)]
pub(crate) enum Need {
    Required,
    Optional,
}

/// An option's name, and whether its verb asks for it. Each option takes one value.
pub(crate) type VerbOption = (&'static str, Need);

static RUN: [VerbOption; 4] = [
    ("dna", Need::Required),
    ("prefix", Need::Optional),
    ("budget", Need::Optional),
    ("limit", Need::Optional),
];

static IMAGE: [VerbOption; 5] = [
    ("dna", Need::Required),
    ("prefix", Need::Optional),
    ("budget", Need::Optional),
    ("limit", Need::Optional),
    ("profile", Need::Optional),
];

static DRAW: [VerbOption; 2] = [("rna", Need::Required), ("profile", Need::Optional)];

static LIST: [VerbOption; 2] = [("dna", Need::Required), ("count", Need::Required)];

static PATCH: [VerbOption; 2] = [("file", Need::Required), ("limit", Need::Optional)];

static BENCH: [VerbOption; 3] = [
    ("seed", Need::Required),
    ("size", Need::Required),
    ("rounds", Need::Required),
];

static ASSEMBLE: [VerbOption; 1] = [("text", Need::Required)];

static COMPILE: [VerbOption; 2] = [("source", Need::Required), ("limit", Need::Optional)];

static PICTURE: [VerbOption; 2] = [("ppm", Need::Required), ("limit", Need::Optional)];

static EXPLAIN: [VerbOption; 4] = [
    ("prefix", Need::Required),
    ("length", Need::Required),
    ("attempts", Need::Required),
    ("limit", Need::Optional),
];

static REWIND: [VerbOption; 4] = [
    ("dna", Need::Required),
    ("prefix", Need::Optional),
    ("script", Need::Required),
    ("limit", Need::Optional),
];

impl Verb {
    /// The verb of this name.
    pub(crate) fn of(word: &str) -> Option<Verb>
        ensures { result ≡ verb_of word.now }
    {
        match word {
            "rna" => Some(Verb::Rna),
            "image" => Some(Verb::Image),
            "trace" => Some(Verb::Trace),
            "dna" => Some(Verb::Dna),
            "draw" => Some(Verb::Draw),
            "names" => Some(Verb::Names),
            "list" => Some(Verb::List),
            "patch" => Some(Verb::Patch),
            "bench" => Some(Verb::Bench),
            "assemble" => Some(Verb::Assemble),
            "compile" => Some(Verb::Compile),
            "picture" => Some(Verb::Picture),
            "explain" => Some(Verb::Explain),
            "rewind" => Some(Verb::Rewind),
            _ => None,
        }
    }

    /// The options that the verb has.
    pub(crate) fn options(self) -> &'static [VerbOption]
        ensures { map option_of result.now ≡ options_of self }
    {
        match self {
            Verb::Rna | Verb::Trace | Verb::Dna => RUN.as_slice(),
            Verb::Image => IMAGE.as_slice(),
            Verb::Draw | Verb::Names => DRAW.as_slice(),
            Verb::List => LIST.as_slice(),
            Verb::Patch => PATCH.as_slice(),
            Verb::Bench => BENCH.as_slice(),
            Verb::Assemble => ASSEMBLE.as_slice(),
            Verb::Compile => COMPILE.as_slice(),
            Verb::Picture => PICTURE.as_slice(),
            Verb::Explain => EXPLAIN.as_slice(),
            Verb::Rewind => REWIND.as_slice(),
        }
    }
}
