//! From words to a request.
ghost use Rattle.std.specs.Prelude.{◌≡◌, ◌≤◌, ◌^◌, IfErr, IfOk, None, Some};
ghost use Rattle.fuun_words.specs.Commands.{found_in};
ghost use Rattle.fuun_words.specs.Requests.{bench_of, explanation_of, request, request_of, rewound_of, run_of, texts, IsExplanationInRange, IsInRange, IsRunInRange, Reads};

use crate::command::find_options;
use crate::values::{
    MOST, MOST_ROUNDS, MOST_SEED, MOST_SIZE, budget, limit, name, profile, required_name,
    required_number,
};
use crate::verb::Verb;
use crate::{ExplainWords, Request, RewindWords, RunWords, WordsError};
use clap::ArgMatches;
use std::alloc::Global;

/// What the words ask for. Words are those after the name of the program, and the first is the verb.
///
/// Each verb has options of one value, in any order, as `--budget 5` or `--budget=5`. Which words are taken, and what
/// value each option has, is the definition of `clap` for a command with these options. A number is one or more
/// decimal digits and nothing else. All other words are `Usage`, those that ask for help too.
pub fn read_request(alloc: Global, words: &[String]) -> Result<Request, WordsError>
    ensures taken { IfOk result (λ asked. request (texts words.now) ≡ Some asked) }
    ensures refused { IfErr result (λ error. error ≡ WordsError.Usage → request (texts words.now) ≡ None) }
    ensures range { IfOk result IsInRange }
{
    let Some(word) = words.first() else {
        return Err(WordsError::Usage);
    };
    let Some(verb) = Verb::of(word.as_str()) else {
        return Err(WordsError::Usage);
    };
    match find_options(alloc, word.as_str(), verb.options(), words) {
        Ok(matches) => request_from(alloc, verb, &matches),
        Err(error) => Err(error),
    }
}

/// What a verb asks for, with the values that were found for its options.
fn request_from(alloc: Global, verb: Verb, matches: &ArgMatches<'_>) -> Result<Request, WordsError>
    ensures read { Reads (request_of verb (found_in matches.now)) result }
    ensures range { IfOk result IsInRange }
{
    match verb {
        Verb::Rna => Ok(Request::Rna(run_words(alloc, matches)?)),
        Verb::Image => Ok(Request::Image {
            run: run_words(alloc, matches)?,
            profile: profile(matches)?,
        }),
        Verb::Trace => Ok(Request::Trace(run_words(alloc, matches)?)),
        Verb::Dna => Ok(Request::Dna(run_words(alloc, matches)?)),
        Verb::Draw => Ok(Request::Draw {
            rna: required_name(alloc, matches, "rna")?,
            profile: profile(matches)?,
        }),
        Verb::Names => Ok(Request::Names {
            rna: required_name(alloc, matches, "rna")?,
            profile: profile(matches)?,
        }),
        Verb::List => Ok(Request::List {
            dna: required_name(alloc, matches, "dna")?,
            count: required_number(matches, "count", MOST)?,
        }),
        Verb::Patch => Ok(Request::Patch {
            file: required_name(alloc, matches, "file")?,
            limit: limit(matches)?,
        }),
        Verb::Bench => bench_request(matches),
        Verb::Assemble => Ok(Request::Assemble {
            text: required_name(alloc, matches, "text")?,
        }),
        Verb::Compile => Ok(Request::Compile {
            source: required_name(alloc, matches, "source")?,
            limit: limit(matches)?,
        }),
        Verb::Picture => Ok(Request::Picture {
            ppm: required_name(alloc, matches, "ppm")?,
            limit: limit(matches)?,
        }),
        Verb::Explain => Ok(Request::Explain(explain_words(alloc, matches)?)),
        Verb::Rewind => Ok(Request::Rewind(rewind_words(alloc, matches)?)),
    }
}

fn run_words(alloc: Global, matches: &ArgMatches<'_>) -> Result<RunWords, WordsError>
    ensures read { Reads (run_of (found_in matches.now)) result }
    ensures range { IfOk result IsRunInRange }
{
    Ok(RunWords {
        dna: required_name(alloc, matches, "dna")?,
        prefix: name(alloc, matches, "prefix")?,
        budget: budget(matches)?,
        limit: limit(matches)?,
    })
}

fn bench_request(matches: &ArgMatches<'_>) -> Result<Request, WordsError>
    ensures read { Reads (bench_of (found_in matches.now)) result }
    ensures range { IfOk result IsInRange }
{
    Ok(Request::Bench {
        seed: required_number(matches, "seed", MOST_SEED)?,
        size: required_number(matches, "size", MOST_SIZE)?,
        rounds: required_number(matches, "rounds", MOST_ROUNDS)?,
    })
}

fn explain_words(alloc: Global, matches: &ArgMatches<'_>) -> Result<ExplainWords, WordsError>
    ensures read { Reads (explanation_of (found_in matches.now)) result }
    ensures range { IfOk result IsExplanationInRange }
{
    Ok(ExplainWords {
        prefix: required_name(alloc, matches, "prefix")?,
        length: required_number(matches, "length", MOST)?,
        attempts: required_number(matches, "attempts", MOST)?,
        limit: limit(matches)?,
    })
}

fn rewind_words(alloc: Global, matches: &ArgMatches<'_>) -> Result<RewindWords, WordsError>
    ensures read { Reads (rewound_of (found_in matches.now)) result }
    ensures range { IfOk result (λ words. (1 ≤ words.limit) × (words.limit ≤ 2 ^ 40)) }
{
    Ok(RewindWords {
        dna: required_name(alloc, matches, "dna")?,
        prefix: name(alloc, matches, "prefix")?,
        script: required_name(alloc, matches, "script")?,
        limit: limit(matches)?,
    })
}
