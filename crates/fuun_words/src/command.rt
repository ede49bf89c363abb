//! One simple command a verb, by which `clap` reads the words.
ghost use Rattle.std.specs.Prelude.{◌≡◌, ◌≢◌, IfErr, false, IfOk, None, Some, map};
ghost use Rattle.clap.specs.Walk.{rule_of};
ghost use Rattle.clap.specs.Simple.{app_of};
ghost use Rattle.fuun_words.specs.Commands.{command, found_by, found_in, option_of, rule_of_option};
ghost use Rattle.fuun_words.specs.Requests.{texts, Reads};

use crate::WordsError;
use crate::verb::{Need, VerbOption};
use clap::error::ErrorKind;
use clap::{Arg, ArgAction, ArgMatches, Command};
use std::alloc::{AllocError, Global};

/// What the command of a verb with these options finds in the words. The first word is the verb.
pub(crate) fn find_options<'a>(
    alloc: Global,
    verb: &'a str,
    options: &'a [VerbOption],
    words: &'a [String],
) -> Result<ArgMatches<'a>, WordsError>
    ensures taken { IfOk result (λ m. found_by (command verb.now (map option_of options.now)) (texts words.now) ≡ Some (found_in m)) }
    ensures refused { IfErr result (λ e. e ≡ WordsError.Usage → found_by (command verb.now (map option_of options.now)) (texts words.now) ≡ None) }
{
    let command = build_command(alloc, verb, options)?;
    match command.try_get_matches_from(words) {
        Ok(matches) => Ok(matches),
        Err(error) => Err(error_of(error.kind())),
    }
}

fn error_of(kind: ErrorKind) -> WordsError
    ensures { result ≡ WordsError.Usage → kind ≢ ErrorKind.OutOfMemory }
{
    match kind {
        ErrorKind::OutOfMemory => WordsError::NoMemory,
        _ => WordsError::Usage,
    }
}

fn build_command<'a>(
    alloc: Global,
    verb: &'a str,
    options: &'a [VerbOption],
) -> Result<Command<'a>, AllocError>
    ensures { IfOk result (λ c. app_of c ≡ command verb.now (map option_of options.now)) }
{
    let mut command = Command::new(alloc, verb);
    for option in options {
        command = command.arg(argument(alloc, option.0, option.1))?;
    }
    Ok(command)
}

fn argument<'a>(alloc: Global, name: &'a str, need: Need) -> Arg<'a>
    ensures rule { rule_of result ≡ rule_of_option (name.now, need) }
    ensures local { result.global ≡ false }
{
    Arg::new(alloc, name)
        .long(name)
        .required(need == Need::Required)
        .action(ArgAction::Set)
}
