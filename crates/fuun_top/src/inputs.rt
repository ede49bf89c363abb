// The reading room: from a request to its inputs.
ghost use Rattle.std.specs.Prelude.{◌≡◌, ◌^◌, ◌≤◌, true, false, ◌++◌, length, IfOk, Some};
ghost use Rattle.fuun_top.specs.Answer.{AreAllowed, is_made_first};
ghost use Rattle.fuun_top.specs.declared.request.Asked.TheVariants.{Run, Trace, Rna, Listing, Text, Explain, Rewind};
ghost use Rattle.fuun_top.specs.Reading.{explained, files_of, guided_in, guiding_files, inputs_of, most_bytes, rewound, run_files, start_in, started};
ghost use Rattle.fuun_top.specs.ReadingRoom.{AreInRange, IsInRange, Judges, Reads, are_made_first};

use crate::files::{dna_file, file_bytes, prefix_file, rna_file, script_file};
use crate::request::{Asked, RnaVerb, RunVerb, TextVerb};
use crate::{InFile, Status};
use fuun_base::{BaseList, CommandList, List, NoMemory};
use fuun_io::Folder;
use fuun_words::{ExplainWords, Name, RewindWords, RunWords};
use rewinder::OrderList;
use std::alloc::Global;

/// What a request works on.
#[derive(Debug, Drop)]
pub(crate) enum Inputs {
    /// A run: the DNA that it starts from, the budget in attempts, and the greatest length of a DNA in bases.
    Run {
        verb: RunVerb,
        dna: BaseList,
        budget: u64,
        limit: u64,
    },
    /// A run of which each attempt is told.
    Trace {
        dna: BaseList,
        budget: u64,
        limit: u64,
    },
    Plain(Plain),
    /// The listing of a DNA: at most so many pairs.
    Listing {
        dna: BaseList,
        count: u64,
    },
    /// A prefix, the bases of the target, the most attempts, and the greatest length in bases.
    Explain {
        prefix: BaseList,
        length: u64,
        attempts: u64,
        limit: u64,
    },
    /// A run that a script goes through: the DNA that it starts from, the orders, and the greatest length in bases.
    Rewind {
        dna: BaseList,
        orders: OrderList,
        limit: u64,
    },
    /// The bytes of a text that DNA is made of.
    Text {
        verb: TextVerb,
        text: List<u8>,
    },
    /// A run on a load: a target of `size` bases, and `rounds` patches.
    Bench {
        seed: u64,
        size: u64,
        rounds: u64,
    },
}

/// What is worked on without a run. Its output always ends in `Done`.
#[derive(Debug, Drop)]
pub(crate) enum Plain {
    Rna(RnaVerb, CommandList),
}

/// Reads the files that are asked for, in order. The first that is refused decides.
pub(crate) fn read_inputs<F: Folder>(
    alloc: Global,
    folder: &mut F,
    asked: &Asked,
) -> Result<Inputs, Status>
    requires allowed { AreAllowed (F.allows folder.old) (files_of asked.now) }
    requires in_range { IsInRange asked.now }
    ensures reads { Reads (F.contents folder.old) (files_of asked.now)
        (inputs_of (F.contents folder.old) asked.now)
        result (F.given folder.old) (F.given folder.new) (F.faults folder.old) (F.faults folder.new) }
    ensures in_range { IfOk result AreInRange }
    ensures first { IfOk result (λ inputs. are_made_first inputs ≡ is_made_first asked.now) }
{
    match asked {
        Asked::Run(verb, words) => read_run(alloc, folder, *verb, words),
        Asked::Trace(words) => read_traced(alloc, folder, words),
        Asked::Rna(verb, name) => read_commands(alloc, folder, *verb, name.as_str()),
        Asked::Listing(name, count) => read_listed(alloc, folder, name.as_str(), *count),
        Asked::Explain(words) => read_explained(alloc, folder, words),
        Asked::Rewind(words) => read_rewound(alloc, folder, words),
        Asked::Text(verb, name) => read_text(alloc, folder, *verb, name.as_str()),
        Asked::Bench { seed, size, rounds } => Ok(Inputs::Bench {
            seed: *seed,
            size: *size,
            rounds: *rounds,
        }),
    }
}

/// Reads the files of a run.
fn read_run<F: Folder>(
    alloc: Global,
    folder: &mut F,
    verb: RunVerb,
    words: &RunWords,
) -> Result<Inputs, Status>
    requires allowed { AreAllowed (F.allows folder.old) (files_of (Run verb words.now)) }
    requires in_range { IsInRange (Run verb words.now) }
    ensures reads { Reads (F.contents folder.old) (files_of (Run verb words.now))
        (inputs_of (F.contents folder.old) (Run verb words.now))
        result (F.given folder.old) (F.given folder.new) (F.faults folder.old) (F.faults folder.new) }
    ensures in_range { IfOk result AreInRange }
    ensures first { IfOk result (λ inputs. are_made_first inputs ≡ false) }
{
    match read_start(alloc, folder, words) {
        Ok(dna) => Ok(Inputs::Run {
            verb,
            dna,
            budget: words.budget,
            limit: words.limit,
        }),
        Err(status) => Err(status),
    }
}

/// Reads the files of a run of which each attempt is told.
fn read_traced<F: Folder>(alloc: Global, folder: &mut F, words: &RunWords) -> Result<Inputs, Status>
    requires allowed { AreAllowed (F.allows folder.old) (files_of (Trace words.now)) }
    requires in_range { IsInRange (Trace words.now) }
    ensures reads { Reads (F.contents folder.old) (files_of (Trace words.now))
        (inputs_of (F.contents folder.old) (Trace words.now))
        result (F.given folder.old) (F.given folder.new) (F.faults folder.old) (F.faults folder.new) }
    ensures in_range { IfOk result AreInRange }
    ensures first { IfOk result (λ inputs. are_made_first inputs ≡ false) }
{
    match read_start(alloc, folder, words) {
        Ok(dna) => Ok(Inputs::Trace {
            dna,
            budget: words.budget,
            limit: words.limit,
        }),
        Err(status) => Err(status),
    }
}

/// The DNA that a run starts from: the bases of the prefix and those of the DNA file, which is read first.
fn read_start<F: Folder>(
    alloc: Global,
    folder: &mut F,
    words: &RunWords,
) -> Result<BaseList, Status>
    requires { AreAllowed (F.allows folder.old) (run_files words.now) }
    ensures reads { Reads (F.contents folder.old) (run_files words.now)
        (start_in (F.contents folder.old) words.now)
        result (F.given folder.old) (F.given folder.new) (F.faults folder.old) (F.faults folder.new) }
    ensures within { IfOk result (λ dna. length dna ≤ words.now.limit) }
{
    let dna = match dna_file(alloc, folder, words.dna.as_str(), InFile::Dna) {
        Ok(dna) => dna,
        Err(status) => return Err(status),
    };
    match prefix_file(alloc, folder, &words.prefix) {
        Ok(prefix) => start(alloc, prefix, dna, words.limit),
        Err(status) => Err(status),
    }
}

/// A prefix and a DNA as one, where that is within the limit.
fn start(alloc: Global, prefix: BaseList, dna: BaseList, limit: u64) -> Result<BaseList, Status>
    ensures judges { Judges (started limit (prefix ++ dna)) result }
    ensures within { IfOk result (λ start. length start ≤ limit) }
{
    match joined(alloc, prefix, dna) {
        Ok(start) if start.len() as u64 <= limit => Ok(start),
        Ok(_) => Err(Status::StartTooLong),
        Err(NoMemory) => Err(Status::NoMemory),
    }
}

/// The bases of a prefix followed by those of a DNA.
pub(crate) fn joined(alloc: Global, prefix: BaseList, dna: BaseList) -> Result<BaseList, NoMemory>
    ensures { IfOk result (λ bases. bases ≡ prefix ++ dna) }
{
    if prefix.is_empty() {
        return Ok(dna);
    }
    let mut bases = Vec::from_slice(alloc, prefix.as_slice())?;
    bases.extend_from_slice(dna.as_slice())?;
    BaseList::from_vec(alloc, bases)
}

/// Reads the file of commands that a verb works on.
fn read_commands<F: Folder>(
    alloc: Global,
    folder: &mut F,
    verb: RnaVerb,
    name: &str,
) -> Result<Inputs, Status>
    requires { AreAllowed (F.allows folder.old) (files_of (Rna verb name.now)) }
    ensures reads { Reads (F.contents folder.old) (files_of (Rna verb name.now))
        (inputs_of (F.contents folder.old) (Rna verb name.now))
        result (F.given folder.old) (F.given folder.new) (F.faults folder.old) (F.faults folder.new) }
    ensures in_range { IfOk result AreInRange }
    ensures first { IfOk result (λ inputs. are_made_first inputs ≡ false) }
{
    match rna_file(alloc, folder, name) {
        Ok(commands) => Ok(Inputs::Plain(Plain::Rna(verb, commands))),
        Err(status) => Err(status),
    }
}

/// Reads the DNA file whose pairs are listed.
fn read_listed<F: Folder>(
    alloc: Global,
    folder: &mut F,
    name: &str,
    count: u64,
) -> Result<Inputs, Status>
    requires { AreAllowed (F.allows folder.old) (files_of (Listing name.now count)) }
    ensures reads { Reads (F.contents folder.old) (files_of (Listing name.now count))
        (inputs_of (F.contents folder.old) (Listing name.now count))
        result (F.given folder.old) (F.given folder.new) (F.faults folder.old) (F.faults folder.new) }
    ensures in_range { IfOk result AreInRange }
    ensures first { IfOk result (λ inputs. are_made_first inputs ≡ false) }
{
    match dna_file(alloc, folder, name, InFile::Dna) {
        Ok(dna) => Ok(Inputs::Listing { dna, count }),
        Err(status) => Err(status),
    }
}

/// Reads the file of whose text DNA is made. It is judged when that is made.
fn read_text<F: Folder>(
    alloc: Global,
    folder: &mut F,
    verb: TextVerb,
    name: &str,
) -> Result<Inputs, Status>
    requires allowed { AreAllowed (F.allows folder.old) (files_of (Text verb name.now)) }
    requires in_range { IsInRange (Text verb name.now) }
    ensures reads { Reads (F.contents folder.old) (files_of (Text verb name.now))
        (inputs_of (F.contents folder.old) (Text verb name.now))
        result (F.given folder.old) (F.given folder.new) (F.faults folder.old) (F.faults folder.new) }
    ensures in_range { IfOk result AreInRange }
    ensures first { IfOk result (λ inputs. are_made_first inputs ≡ true) }
{
    match file_bytes(alloc, folder, name, verb.file()) {
        Ok(text) => Ok(Inputs::Text { verb, text }),
        Err(status) => Err(status),
    }
}

/// Reads the prefix file of what is to be explained.
fn read_explained<F: Folder>(
    alloc: Global,
    folder: &mut F,
    words: &ExplainWords,
) -> Result<Inputs, Status>
    requires allowed { AreAllowed (F.allows folder.old) (files_of (Explain words.now)) }
    requires in_range { IsInRange (Explain words.now) }
    ensures reads { Reads (F.contents folder.old) (files_of (Explain words.now))
        (inputs_of (F.contents folder.old) (Explain words.now))
        result (F.given folder.old) (F.given folder.new) (F.faults folder.old) (F.faults folder.new) }
    ensures in_range { IfOk result AreInRange }
    ensures first { IfOk result (λ inputs. are_made_first inputs ≡ true) }
{
    match dna_file(alloc, folder, words.prefix.as_str(), InFile::Prefix) {
        Ok(prefix) => explained(prefix, words),
        Err(status) => Err(status),
    }
}

/// A prefix for a target, where together they are within the limit.
fn explained(prefix: BaseList, words: &ExplainWords) -> Result<Inputs, Status>
    requires in_range { IsInRange (Explain words.now) }
    requires most { length prefix ≤ most_bytes }
    ensures judges { Judges (explained words.now prefix) result }
    ensures in_range { IfOk result AreInRange }
    ensures first { IfOk result (λ inputs. are_made_first inputs ≡ true) }
{
    if prefix.len() as u64 + words.length > words.limit {
        return Err(Status::StartTooLong);
    }
    Ok(Inputs::Explain {
        prefix,
        length: words.length,
        attempts: words.attempts,
        limit: words.limit,
    })
}

/// Reads the files of a run that a script goes through, and joins prefix and DNA.
fn read_rewound<F: Folder>(
    alloc: Global,
    folder: &mut F,
    words: &RewindWords,
) -> Result<Inputs, Status>
    requires allowed { AreAllowed (F.allows folder.old) (files_of (Rewind words.now)) }
    requires in_range { IsInRange (Rewind words.now) }
    ensures reads { Reads (F.contents folder.old) (files_of (Rewind words.now))
        (inputs_of (F.contents folder.old) (Rewind words.now))
        result (F.given folder.old) (F.given folder.new) (F.faults folder.old) (F.faults folder.new) }
    ensures in_range { IfOk result AreInRange }
    ensures first { IfOk result (λ inputs. are_made_first inputs ≡ false) }
{
    let bases = match dna_file(alloc, folder, words.dna.as_str(), InFile::Dna) {
        Ok(bases) => bases,
        Err(status) => return Err(status),
    };
    match read_guided(alloc, folder, &words.prefix, words.script.as_str()) {
        Ok((prefix, orders)) => rewound(alloc, prefix, bases, orders, words.limit),
        Err(status) => Err(status),
    }
}

/// Reads the prefix file, where there is one, and then the script.
fn read_guided<F: Folder>(
    alloc: Global,
    folder: &mut F,
    prefix: &Option<Name>,
    script: &str,
) -> Result<(BaseList, OrderList), Status>
    requires { AreAllowed (F.allows folder.old) (guiding_files prefix.now script.now) }
    ensures reads { Reads (F.contents folder.old) (guiding_files prefix.now script.now)
        (guided_in (F.contents folder.old) prefix.now script.now)
        result (F.given folder.old) (F.given folder.new) (F.faults folder.old) (F.faults folder.new) }
{
    match prefix {
        Some(name) => read_prefixed(alloc, folder, name.as_str(), script),
        None => match script_file(alloc, folder, script) {
            Ok(orders) => Ok((BaseList::new(alloc), orders)),
            Err(status) => Err(status),
        },
    }
}

/// Reads a prefix file and then the script.
fn read_prefixed<F: Folder>(
    alloc: Global,
    folder: &mut F,
    prefix: &str,
    script: &str,
) -> Result<(BaseList, OrderList), Status>
    requires { AreAllowed (F.allows folder.old) (guiding_files (Some prefix.now) script.now) }
    ensures reads { Reads (F.contents folder.old) (guiding_files (Some prefix.now) script.now)
        (guided_in (F.contents folder.old) (Some prefix.now) script.now)
        result (F.given folder.old) (F.given folder.new) (F.faults folder.old) (F.faults folder.new) }
{
    let prefix = match dna_file(alloc, folder, prefix, InFile::Prefix) {
        Ok(prefix) => prefix,
        Err(status) => return Err(status),
    };
    match script_file(alloc, folder, script) {
        Ok(orders) => Ok((prefix, orders)),
        Err(status) => Err(status),
    }
}

/// Joins prefix and DNA, for orders.
fn rewound(
    alloc: Global,
    prefix: BaseList,
    dna: BaseList,
    orders: OrderList,
    limit: u64,
) -> Result<Inputs, Status>
    requires some { 1 ≤ limit }
    requires most { limit ≤ 2 ^ 40 }
    ensures judges { Judges (rewound limit (prefix ++ dna) orders) result }
    ensures in_range { IfOk result AreInRange }
    ensures first { IfOk result (λ inputs. are_made_first inputs ≡ false) }
{
    match start(alloc, prefix, dna, limit) {
        Ok(dna) => Ok(Inputs::Rewind { dna, orders, limit }),
        Err(status) => Err(status),
    }
}
