//! Reads the words of a command line with `clap` (this project's own): the command, its files and its options.
#![tactic(auto)]

ghost use Rattle.std.specs.Prelude.{◌≡◌};
ghost use Rattle.clap.specs.Words.{kind_of};
ghost use Rattle.flight_tools_args.specs.Words.{answer_by, answer_with};

mod command_words;
mod commands;
mod error;
mod found;
mod given;
mod kind;
mod plan;
mod replaced;

use crate::commands::all_words;
pub use crate::error::WordsError;
use crate::given::given_plan;
pub use crate::plan::{CommandPlan, ImportWords, PageWords, RowWords};
use crate::replaced::replaced_option;
use clap::error::ErrorKind;
use clap::{ArgMatches, Error};
use std::alloc::{AllocError, Global};

/// The plan if `clap` finds no command: to print the help or the version. Other words are refused.
fn without_command<'a>(error: Error) -> Result<CommandPlan<'a>, WordsError>
    ensures { result ≡ answer_by (kind_of error) error }
{
    match error.kind() {
        ErrorKind::DisplayHelp | ErrorKind::DisplayVersion => Ok(CommandPlan::Said(error)),
        ErrorKind::OutOfMemory => Err(WordsError::Memory),
        _ => Err(WordsError::Refused(error)),
    }
}

/// The error for a missing word of a command. `clap` refuses such words itself, so this isn't reached.
fn missing_word(alloc: Global) -> Result<Error, AllocError> {
    all_words(alloc)?.error(ErrorKind::MissingRequiredArgument, "a word is missing")
}

/// The plan of what was found.
fn plan_of<'a>(alloc: Global, found: &ArgMatches<'a>) -> Result<CommandPlan<'a>, WordsError> {
    match given_plan(alloc, found)? {
        Some(plan) => Ok(plan),
        None => without_command(missing_word(alloc)?),
    }
}

/// The answer for refused words: the name of an option that has another name or place, if there is one.
fn with_replaced<'a>(
    answer: Result<CommandPlan<'a>, WordsError>,
    replaced: Option<(&'static str, &'static str)>,
) -> Result<CommandPlan<'a>, WordsError>
    ensures { result ≡ answer_with replaced.entry answer.entry }
{
    match (answer, replaced) {
        (Err(WordsError::Refused(_)), Some((option, advice))) => {
            Err(WordsError::Replaced(option, advice))
        }
        (answer, _) => answer,
    }
}

/// The command that `clap` finds in the words, or its error.
fn found_in<'a>(
    alloc: Global,
    words: &'a [&'a str],
) -> Result<Result<ArgMatches<'a>, Error>, AllocError> {
    Ok(all_words(alloc)?.try_get_matches_from(words))
}

/// Reads the words of a command line, the program's name first. An option stands anywhere among the files; `--` ends them.
///
/// Errors: `Refused` with the message of `clap` for words that aren't a command; `Replaced` if they have an option that the command has
/// under another name or at another place; `Memory`.
pub fn read_words<'a>(alloc: Global, words: &'a [&'a str]) -> Result<CommandPlan<'a>, WordsError> {
    match found_in(alloc, words)? {
        Ok(found) => plan_of(alloc, &found),
        Err(error) => with_replaced(without_command(error), replaced_option(words)),
    }
}
