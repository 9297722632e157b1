//! The words of a command line (this project's own), read by `clap`.

ghost use Rattle.std.specs.Prelude.{◌≡◌, ◌≤◌, ◌<◌, false, length, map, codes, Err, IfErr, IfOk, IsOk, IsSomeAnd, None, Ok, OnErr, Some};
ghost use Rattle.clap.specs.Words.{all_of, app_of, first_of, found_of, kind_of, rows_of, rule_of, subcommand_rows_of};
ghost use Rattle.clap.specs.declared.error.kind.ErrorKind.TheVariants.{OutOfMemory};
ghost use Rattle.flight_run_args.specs.declared.command_line.Plan.TheVariants.{Stored};
ghost use Rattle.flight_run_args.specs.declared.command_line.WordsError.TheVariants.{Memory, Usage};
ghost use Rattle.flight_run_args.specs.Words.{GiveAPlan, HasWhatItNeeds, HoldsRows, HoldsWords, command_line, file, files, option};

use clap::error::ErrorKind;
use clap::{Arg, ArgAction, ArgMatches, Command, Error};
use std::alloc::{AllocError, Global};
use thiserror::Error;

/// What the program is to do.
#[derive(Debug, Drop)]
pub enum Plan<'a> {
    /// The stored run, where there are no words.
    Stored,
    /// `compile RULES WDT ADT`: the rule text of the first file is compiled into the other two.
    Compile {
        rules: &'a str,
        wdt: &'a str,
        adt: &'a str,
    },
    /// `run --schedule S --stream IN --out OUT RULES..`: a run over a stream, with one rule text or more.
    Run {
        schedule: &'a str,
        stream: &'a str,
        out: &'a str,
        rules: Vec<&'a str>,
    },
}

/// Why the words give no plan.
#[derive(Clone, Copy, Debug, PartialEq, Eq, Error)]
pub enum WordsError {
    /// The words are neither command with its files, or they ask for help.
    #[error("usage: flight_run [compile RULES WDT ADT or run --schedule S --stream IN --out OUT RULES..]")]
    Usage,
    /// No memory for the words.
    #[error("no memory")]
    Memory,
}

impl From<AllocError> for WordsError {
    ghost from_gives = { λ _ e. e ≡ Memory };

    fn from(_error: AllocError) -> WordsError {
        WordsError::Memory
    }
}

/// `Memory` where there was no memory, and `Usage` for any other error of `clap`.
fn refusal(error: Error) -> WordsError
    ensures { result ≡ Usage → kind_of error ≡ OutOfMemory → ⊥ }
{
    match error.kind() {
        ErrorKind::OutOfMemory => WordsError::Memory,
        _ => WordsError::Usage,
    }
}

/// A file that has to be named.
fn file_word<'a>(alloc: Global, name: &'a str) -> Arg<'a>
    ensures rule { rule_of result ≡ file name.entry.now }
    ensures local { result.global ≡ false }
{
    Arg::new(alloc, name).required(true)
}

/// The word of a file that has to be named, after an option of that name.
fn option_word<'a>(alloc: Global, name: &'a str) -> Arg<'a>
    ensures rule { rule_of result ≡ option name.entry.now }
    ensures local { result.global ≡ false }
{
    Arg::new(alloc, name).long(name).required(true)
}

/// One file or more.
fn file_words<'a>(alloc: Global, name: &'a str) -> Arg<'a>
    ensures rule { rule_of result ≡ files name.entry.now }
    ensures local { result.global ≡ false }
{
    Arg::new(alloc, name)
        .required(true)
        .action(ArgAction::Append)
        .num_args(1..)
}

/// `compile RULES WDT ADT` and `run --schedule S --stream IN --out OUT RULES..`
fn all_words<'a>(alloc: Global) -> Result<Command<'a>, AllocError>
    ensures { IfOk result (λ command. app_of command ≡ command_line) }
{
    let compile = Command::new(alloc, "compile")
        .arg(file_word(alloc, "RULES"))?
        .arg(file_word(alloc, "WDT"))?
        .arg(file_word(alloc, "ADT"))?;
    let run = Command::new(alloc, "run")
        .arg(option_word(alloc, "schedule"))?
        .arg(option_word(alloc, "stream"))?
        .arg(option_word(alloc, "out"))?
        .arg(file_words(alloc, "RULES"))?;
    Command::new(alloc, "flight_run")
        .subcommand(compile)?
        .subcommand(run)
}

/// Reads the words of a command line, the program's name first. Without words, or with the name alone, the plan is the stored
/// run. Options stand anywhere among the files, as `--name value` or `--name=value`, each once; `--` ends them.
///
/// Errors: `Usage`, where the words are neither command, or ask for help; `Memory`.
pub fn read_words<'a>(alloc: Global, words: &'a [&'a str]) -> Result<Plan<'a>, WordsError>
    ensures stored { length words.entry.now ≤ 1 → result ≡ Ok Stored }
    ensures holds { IfOk result (λ plan. HoldsWords (map (λ word. word.now) words.entry.now) plan) }
    ensures accepts { 1 < length words.entry.now → IsOk result →
        GiveAPlan (map (λ word. word.now) words.entry.now) }
    ensures refuses { result ≡ Err Usage → GiveAPlan (map (λ word. word.now) words.entry.now) → ⊥ }
{
    if words.len() <= 1 {
        return Ok(Plan::Stored);
    }
    let matches = all_words(alloc)?
        .try_get_matches_from(words)
        .map_err(refusal)?;
    given_plan(alloc, &matches)
}

/// The plan of the command that was found.
fn given_plan<'a>(alloc: Global, matches: &ArgMatches<'a>) -> Result<Plan<'a>, WordsError>
    ensures holds { IfOk result
        (λ plan. IsSomeAnd (subcommand_rows_of matches.now) (λ command. HoldsRows command plan)) }
    ensures refused { result ≡ Err Usage →
        IsSomeAnd (subcommand_rows_of matches.now) HasWhatItNeeds → ⊥ }
{
    match matches.subcommand() {
        Some(("compile", found)) => compile_plan(found),
        Some(("run", found)) => run_plan(alloc, found),
        _ => Err(WordsError::Usage),
    }
}

/// The file of a name.
fn file_of<'a>(found: &ArgMatches<'a>, name: &str) -> Result<&'a str, WordsError>
    ensures some { IfOk result
        (λ word. first_of name.now (rows_of (found_of found.now)) ≡ Some word.now) }
    ensures none { OnErr result (first_of name.now (rows_of (found_of found.now)) ≡ None) }
    // It allocates nothing, so it can't fail for lack of memory.
    ensures judged { IfErr result (λ error. error ≡ Usage) }
{
    found.get_str(name).ok_or(WordsError::Usage)
}

/// The files of a name.
fn files_of<'a>(
    alloc: Global,
    found: &ArgMatches<'a>,
    name: &str,
) -> Result<Vec<&'a str>, WordsError>
    ensures some { IfOk result
        (λ words. all_of name.now (rows_of (found_of found.now)) ≡
        Some (map (λ word. word.now) words.items)) }
    ensures none { result ≡ Err Usage → all_of name.now (rows_of (found_of found.now)) ≡ None }
{
    let words = found.get_strs(name).ok_or(WordsError::Usage)?;
    Ok(Vec::from_slice(alloc, words)?)
}

fn compile_plan<'a>(found: &ArgMatches<'a>) -> Result<Plan<'a>, WordsError>
    ensures holds { IfOk result (HoldsRows (codes "compile", rows_of (found_of found.now))) }
    ensures refused { OnErr result
        (HasWhatItNeeds (codes "compile", rows_of (found_of found.now)) → ⊥) }
    ensures judged { IfErr result (λ error. error ≡ Usage) }
{
    Ok(Plan::Compile {
        rules: file_of(found, "RULES")?,
        wdt: file_of(found, "WDT")?,
        adt: file_of(found, "ADT")?,
    })
}

fn run_plan<'a>(alloc: Global, found: &ArgMatches<'a>) -> Result<Plan<'a>, WordsError>
    ensures holds { IfOk result (HoldsRows (codes "run", rows_of (found_of found.now))) }
    ensures refused { result ≡ Err Usage →
        HasWhatItNeeds (codes "run", rows_of (found_of found.now)) → ⊥ }
{
    Ok(Plan::Run {
        schedule: file_of(found, "schedule")?,
        stream: file_of(found, "stream")?,
        out: file_of(found, "out")?,
        rules: files_of(alloc, found, "RULES")?,
    })
}
