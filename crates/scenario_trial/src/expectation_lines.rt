//! The expectations of a script.
//!
//! A line whose first word is `expect` adds nothing to the stream. Before the stream is read, each such line becomes a comment of the
//! same length, so that every line keeps its number.

ghost use Rattle.std.specs.Prelude.{◌≡◌, ◌+◌, ◌++◌, ◌∷◌, ℕ, List, drop, map, option_map, Ok, Err, IfOk, IfErr, IsErr};
ghost use Rattle.lc_model.specs.Host.ScheduleText.{words_of};
ghost use Rattle.text_lines.specs.Lines.{texts_of};
ghost use Rattle.scenario_trial.specs.Expected.{expected_of};
ghost use Rattle.scenario_trial.specs.Reading.{IsReadError, IsRefused, PlacedExpected, ReadFault, commented, expectations_in, is_expectation, line_expected, lines_expected, placed_of, silenced_in, silenced_line, with_expected};
ghost use Rattle.scenario_trial.specs.Untried.{read_error_at};
ghost use Rattle.scenario_trial.specs.declared.expectation_lines.LineFault.TheVariants as line;
ghost use Rattle.scenario_trial.specs.declared.expectation_lines.ReadError.TheVariants as error;

use crate::expectation::Expectation;
use crate::expectation_words::{expectation, is};
use crate::fault::ExpectationFault;
use scenarios::Plain;
use std::alloc::{AllocError, Global};
use text_lines::{blank_count, first_line, words};
use thiserror::Error;

/// Why the expectations of a script can't be read.
#[derive(Clone, Copy, Debug, PartialEq, Eq, Error)]
pub enum ReadError {
    /// A line, counted from 1, is no valid expectation.
    #[error("line {n}: {fault}")]
    Line { n: usize, fault: ExpectationFault },
    /// Out of memory.
    #[error("out of memory")]
    Memory,
}

impl ReadError {
    /// The same error, placed at the scenario's line from which the line of the plain script comes.
    pub fn at(self, plain: &Plain) -> ReadError
        ensures { result ≡ read_error_at plain.now.lines.items self }
    {
        match self {
            ReadError::Line { n, fault } => ReadError::Line {
                n: plain.line(n),
                fault,
            },
            ReadError::Memory => ReadError::Memory,
        }
    }
}

impl From<AllocError> for ReadError {
    ghost from_gives = { λ _ e. e ≡ error.Memory };

    fn from(_error: AllocError) -> ReadError {
        ReadError::Memory
    }
}

/// An expectation, with its line in the script.
#[derive(Clone, Copy)]
pub struct Placed<'a> {
    /// The line's number, from 1.
    pub n: usize,
    /// The line, without blanks around it.
    pub line: &'a [u8],
    pub expectation: Expectation<'a>,
}

/// Why a line gives no expectation.
#[derive(Clone, Copy)]
pub(crate) enum LineFault {
    Says(ExpectationFault),
    Memory,
}

impl From<AllocError> for LineFault {
    ghost from_gives = { λ _ e. e ≡ line.Memory };

    fn from(_error: AllocError) -> LineFault {
        LineFault::Memory
    }
}

impl From<ExpectationFault> for LineFault {
    ghost from_gives = { λ fault e. e ≡ line.Says fault };

    fn from(fault: ExpectationFault) -> LineFault {
        LineFault::Says(fault)
    }
}

/// Whether a line with these words is an expectation.
fn is_expectation(words: &[&[u8]]) -> bool
    ensures { result ≡ is_expectation (texts_of words.now) }
{
    match words {
        [] => false,
        [word, ..] => is(word, b"expect"),
    }
}

/// The expectation of a line with these words; `None` if its first word isn't `expect`.
fn words_expected<'a>(words: &[&'a [u8]]) -> Result<Option<Expectation<'a>>, ExpectationFault>
    ensures said { IfOk result (λ found. line_expected (texts_of words.now) ≡
        Ok (option_map expected_of found)) }
    ensures refused { IfErr result (λ fault. line_expected (texts_of words.now) ≡ Err fault) }
{
    match words {
        [] => Ok(None),
        [word, others @ ..] => {
            if !is(word, b"expect") {
                return Ok(None);
            }
            let expectation = expectation(others)?;
            Ok(Some(expectation))
        }
    }
}

/// The expectation of a line; `None` if its first word isn't `expect`.
fn line_expected<'a>(alloc: Global, line: &'a [u8]) -> Result<Option<Expectation<'a>>, LineFault>
    ensures said { IfOk result (λ found. line_expected (words_of line.now) ≡
        Ok (option_map expected_of found)) }
    ensures refused { IfErr result (IsRefused (line_expected (words_of line.now))) }
{
    let words = words(alloc, line)?;
    Ok(words_expected(words.as_slice())?)
}

/// The expectations found so far and that of the line with this number, if it has one.
fn with_expected<'a>(
    found: Vec<Placed<'a>>,
    n: usize,
    line: &'a [u8],
    expectation: Option<Expectation<'a>>,
) -> Result<Vec<Placed<'a>>, AllocError>
    ensures { IfOk result (λ after. map placed_of after.items ≡
        with_expected (map placed_of found.entry.items) n
        (option_map expected_of expectation.entry)) }
{
    let mut found = found;
    match expectation {
        None => {}
        Some(expectation) => found.push(Placed {
            n,
            line: line.trim_ascii(),
            expectation,
        })?,
    }
    Ok(found)
}

/// The expectations found so far and that of a line, or the line's fault with its number.
fn read_line<'a>(
    alloc: Global,
    found: Vec<Placed<'a>>,
    n: usize,
    line: &'a [u8],
) -> Result<Vec<Placed<'a>>, ReadError>
    ensures said { IfOk result (λ after. (lines : List (List ℕ)) →
        lines_expected (map placed_of found.entry.items) n (line.now ∷ lines) ≡
        lines_expected (map placed_of after.items) (n + 1) lines) }
    ensures refused { IfErr result (λ error. (lines : List (List ℕ)) →
        IsReadError (lines_expected (map placed_of found.entry.items) n (line.now ∷ lines)) error) }
{
    match line_expected(alloc, line) {
        Ok(expectation) => Ok(with_expected(found, n, line, expectation)?),
        Err(LineFault::Says(fault)) => Err(ReadError::Line { n, fault }),
        Err(LineFault::Memory) => Err(ReadError::Memory),
    }
}

/// The expectations of all lines.
fn read_lines(alloc: Global, script: &[u8]) -> Result<Vec<Placed<'_>>, ReadError>
    ensures said { IfOk result
        (λ found. expectations_in script.now ≡ Ok (map placed_of found.items)) }
    ensures refused { IfErr result (IsReadError (expectations_in script.now)) }
{
    let mut found = Vec::new(alloc);
    let mut left = Some(script);
    let mut n = 0;
    while let Some(text) = left {
        let (line, rest) = first_line(text);
        n += 1;
        match read_line(alloc, found, n, line) {
            Ok(after) => found = after,
            Err(error) => return Err(error),
        }
        left = rest;
    }
    Ok(found)
}

/// The expectations of a script, in order.
///
/// Errors: `Line` for the first line with a fault, and what is wrong; `Memory` if there is no room for the expectations.
pub fn read_expectations<'a>(alloc: Global, script: &'a [u8]) -> Result<Vec<Placed<'a>>, ReadError>
    ensures said { IfOk result
        (λ found. expectations_in script.now ≡ Ok (map placed_of found.items)) }
    ensures refused { IfErr result (IsReadError (expectations_in script.now)) }
    ensures accepts { (found : List PlacedExpected) → expectations_in script.now ≡ Ok found →
        IfErr result (λ e. e ≡ error.Memory) }
    ensures refuses { (fault : ReadFault) → expectations_in script.now ≡ Err fault →
        IsErr result }
{
    match read_lines(alloc, script) {
        Ok(found) => Ok(found),
        Err(error) => Err(error),
    }
}

/// The bytes after the first one.
fn behind_first(bytes: &[u8]) -> &[u8]
    ensures { result.now ≡ drop 1 bytes.now }
{
    match bytes {
        [] => bytes,
        [_, behind @ ..] => behind,
    }
}

/// The text with this line after it, as a comment.
fn with_comment(text: Vec<u8>, line: &[u8]) -> Result<Vec<u8>, AllocError>
    ensures { IfOk result (λ after. after.items ≡ text.items ++ commented line.now) }
{
    let mut text = text;
    let (blanks, rest) = line.split_at(blank_count(line));
    text.extend_from_slice(blanks)?;
    text.push(b'#')?;
    text.extend_from_slice(behind_first(rest))?;
    Ok(text)
}

/// The text with this line after it; an expectation becomes a comment.
fn with_line(alloc: Global, text: Vec<u8>, line: &[u8]) -> Result<Vec<u8>, AllocError>
    ensures { IfOk result (λ after. after.items ≡ text.items ++ silenced_line line.now) }
{
    let words = words(alloc, line)?;
    if is_expectation(words.as_slice()) {
        return with_comment(text, line);
    }
    let mut text = text;
    text.extend_from_slice(line)?;
    Ok(text)
}

/// The script with each expectation made a comment: `#` replaces its first letter. Out of memory is the only error.
pub fn silence(alloc: Global, script: &[u8]) -> Result<Vec<u8>, AllocError>
    ensures { IfOk result (λ quiet. quiet.items ≡ silenced_in script.now) }
{
    let mut quiet = Vec::new(alloc);
    let mut left = Some(script);
    while let Some(text) = left {
        let (line, rest) = first_line(text);
        quiet = with_line(alloc, quiet, line)?;
        if rest.is_none() {
            return Ok(quiet);
        }
        quiet.push(b'\n')?;
        left = rest;
    }
    Ok(quiet)
}
