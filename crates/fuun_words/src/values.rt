//! The values of options.
ghost use Rattle.std.specs.Prelude.{◌≡◌, ◌≤◌, ◌^◌, IfOk, IfSome, MatchResult, option_map};
ghost use Rattle.clap.specs.Walk.{first_of};
ghost use Rattle.fuun_words.specs.Commands.{found_in};
ghost use Rattle.fuun_words.specs.Numbers.{number};
ghost use Rattle.fuun_words.specs.Requests.{budget_of, limit_of, number_of, profile_of, Reads};

use crate::{Name, WordsError};
use clap::ArgMatches;
use fuun_base::decimal;
use rna_code::Profile;
use std::alloc::Global;

/// The most attempts of a budget, the most bases of a limit, and the most pairs of a listing.
pub(crate) const MOST: u64 = 1 << 40;

/// The greatest seed, the most bases of a target, and the most rounds of a load.
pub(crate) const MOST_SEED: u64 = (1 << 31) - 1;

pub(crate) const MOST_SIZE: u64 = 1 << 24;

pub(crate) const MOST_ROUNDS: u64 = 1 << 16;

/// Attempts, where no budget is given.
const BUDGET: u64 = 10_000_000;

/// Bases, where no limit is given.
const LIMIT: u64 = 1 << 26;

/// The value that was found for an option.
fn value<'a>(matches: &ArgMatches<'a>, option: &str) -> Option<&'a str>
    ensures { option_map (λ text. text.now) result ≡ first_of option.now (found_in matches.now) }
{
    matches.get_str(option)
}

/// The name of a file, where the option was given.
pub(crate) fn name(
    alloc: Global,
    matches: &ArgMatches<'_>,
    option: &str,
) -> Result<Option<Name>, WordsError>
    ensures { MatchResult result (λ name. name ≡ first_of option.now (found_in matches.now)) (λ error. error ≡ WordsError.NoMemory) }
{
    match value(matches, option) {
        Some(text) => Ok(Some(Name::new(String::from_str(alloc, text)?))),
        None => Ok(None),
    }
}

/// The name of a file that the verb asks for.
pub(crate) fn required_name(
    alloc: Global,
    matches: &ArgMatches<'_>,
    option: &str,
) -> Result<Name, WordsError>
    ensures { Reads (first_of option.now (found_in matches.now)) result }
{
    match name(alloc, matches, option)? {
        Some(name) => Ok(name),
        None => Err(WordsError::Usage),
    }
}

/// A budget in attempts.
pub(crate) fn budget(matches: &ArgMatches<'_>) -> Result<u64, WordsError>
    ensures read { Reads (budget_of (found_in matches.now)) result }
    ensures range { IfOk result (λ n. n ≤ 2 ^ 40) }
{
    match value(matches, "budget") {
        Some(text) => read_number(text, 0, MOST).ok_or(WordsError::Usage),
        None => Ok(BUDGET),
    }
}

/// A limit in bases.
pub(crate) fn limit(matches: &ArgMatches<'_>) -> Result<u64, WordsError>
    ensures read { Reads (limit_of (found_in matches.now)) result }
    ensures range { IfOk result (λ n. (1 ≤ n) × (n ≤ 2 ^ 40)) }
{
    match value(matches, "limit") {
        Some(text) => read_number(text, 1, MOST).ok_or(WordsError::Usage),
        None => Ok(LIMIT),
    }
}

/// A number that the verb asks for, from 0 to `most`.
pub(crate) fn required_number(
    matches: &ArgMatches<'_>,
    option: &str,
    most: u64,
) -> Result<u64, WordsError>
    ensures read { Reads (number_of option.now most (found_in matches.now)) result }
    ensures range { IfOk result (λ n. n ≤ most) }
{
    match value(matches, option) {
        Some(text) => read_number(text, 0, most).ok_or(WordsError::Usage),
        None => Err(WordsError::Usage),
    }
}

/// A profile, the plain one where the option is not given.
pub(crate) fn profile(matches: &ArgMatches<'_>) -> Result<Profile, WordsError>
    ensures { Reads (profile_of (found_in matches.now)) result }
{
    match value(matches, "profile") {
        None | Some("plain") => Ok(Profile::Plain),
        Some("wide") => Ok(Profile::Wide),
        Some(_) => Err(WordsError::Usage),
    }
}

/// The number that a text of decimal digits alone writes, where it is one from `least` to `most`.
fn read_number(text: &str, least: u64, most: u64) -> Option<u64>
    ensures read { result ≡ number least most text.now }
    ensures range { IfSome result (λ n. (least ≤ n) × (n ≤ most)) }
{
    let value = decimal(text.as_bytes(), most)?;
    if least <= value { Some(value) } else { None }
}
