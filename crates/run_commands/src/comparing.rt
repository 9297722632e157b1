//! `compare --schedule SCHEDULE --stream STREAM [--with RULES].. [--json] [--fail-on WHAT] OLD NEW`

ghost use Rattle.std.specs.Prelude.{◌≡◌};
ghost use Rattle.run_commands.specs.Cause.{answer_of_comparison, fault_of_comparison_text, IsOfComparison, stop_of};

use crate::report::{failed_file, stream_of};
use crate::text_noting::TextNoting;
use flight_core::RunError;
use lc_model::Reading;
use program_io::Noting;
use rpn_compiler::{CompileError, RuleText};
use run_account::{RunAccount, WarningLine};
use run_comparison::{
    Comparison, ComparisonError, FailOn, Side, Sides, Stop, Which, write_lines, write_object,
};
use run_stepper::Ending;
use schedules::Schedule;
use std::alloc::Global;
use std::cell::Cell;
use std::fs::Files;
use std::io::{Eprint, ErrorKind, Read, Write};
use tool_faults::{
    Fault, listing_result, read_text, rule_text_of, schedule_in, texts_in, written_fault,
};

/// The names of a comparison's files.
#[derive(Clone, Copy)]
pub struct ComparedFiles<'a, 'f> {
    pub schedule: &'a str,
    pub stream: &'a str,
    pub old: &'a str,
    pub new: &'a str,
    pub further: &'f [&'a str],
}

/// The options of a comparison: whether it is written as JSON, and what makes it fail.
#[derive(Clone, Copy)]
pub struct CompareOptions<'a> {
    pub is_json: bool,
    pub fail_on: Option<&'a str>,
}

/// The fault for a refused rule text in one of these files.
fn text_fault<'a>(files: ComparedFiles<'a, '_>, which: Which, error: CompileError) -> Fault<'a>
    ensures { result ≡ fault_of_comparison_text files.entry which error }
{
    match which {
        Which::Old => Fault::Rules(files.old, error),
        Which::New => Fault::Rules(files.new, error),
        Which::Further(text) => match files.further.get(text) {
            Some(name) => Fault::Rules(name, error),
            None => Fault::Rules(files.new, error),
        },
    }
}

/// The fault for a comparison that failed. `read` and `written` are the kinds of errors of the stream and the output, if there are any.
fn comparison_fault<'a>(
    files: ComparedFiles<'a, '_>,
    error: ComparisonError,
    read: Option<ErrorKind>,
    written: Option<ErrorKind>,
) -> Fault<'a>
    ensures { IsOfComparison files.entry error read written result }
{
    match error {
        ComparisonError::Rules { which, error } => text_fault(files, which, error),
        ComparisonError::Memory => Fault::Memory,
        ComparisonError::Read => failed_file(files.stream, read),
        ComparisonError::Bound | ComparisonError::Uneven => {
            Fault::Stream(files.stream, RunError::ReadBound)
        }
        ComparisonError::Write => written_fault(written),
    }
}

/// What the option names.
fn fail_on_of<'a>(word: Option<&'a str>) -> Result<FailOn, Fault<'a>> {
    match word {
        None | Some("differences") => Ok(FailOn::Differences),
        Some("requests") => Ok(FailOn::Requests),
        Some("new-requests") => Ok(FailOn::NewRequests),
        Some(word) => Err(Fault::Value(
            "--fail-on",
            word,
            "write new-requests, requests or differences",
        )),
    }
}

/// Why both runs ended before the stream did, if they did. `missing` is the number of the rule text that the bad record names, if that
/// text isn't given.
fn stop_of(ending: Ending, missing: Option<usize>) -> Option<Stop>
    ensures { result ≡ stop_of ending missing }
{
    match (ending, missing) {
        (Ending::NoRecord { n }, Some(text)) => Some(Stop::NoText { n, text }),
        (Ending::NoRecord { n }, None) => Some(Stop::NoRecord { n }),
        (Ending::Cut { n }, _) => Some(Stop::Cut { n }),
        (Ending::Whole { .. } | Ending::Bound, _) => None,
    }
}

/// The result of a comparison over the stream in a file with this name: a fault with the place if the stream ends early, or a fault if
/// the comparison fails, or if in one of the runs nothing was sampled.
fn answer_of<'a>(
    stream: &'a str,
    stop: Option<Stop>,
    fails: bool,
    is_sampled: bool,
) -> Result<(), Fault<'a>>
    ensures { result ≡ answer_of_comparison stream.entry stop fails is_sampled }
{
    match stop {
        Some(Stop::NoText { n, text }) => Err(Fault::TextMissing(stream, n, text)),
        Some(Stop::NoRecord { n }) => Err(Fault::Stream(stream, RunError::BadRecord { n })),
        Some(Stop::Cut { n }) => Err(Fault::Stream(stream, RunError::Truncated { n })),
        None => {
            if fails {
                return Err(Fault::Differs);
            }
            if !is_sampled {
                return Err(Fault::NotSampled);
            }
            Ok(())
        }
    }
}

/// Writes the warnings about what a run looked at on standard error, with the name of its text.
fn warn<'a, R: Eprint + AllocGlobal>(
    rt: &R,
    side: Side<'_, '_>,
    account: &RunAccount<'_>,
) -> Result<(), Fault<'a>> {
    let (name, texts) = (side.name, side.texts);
    for warning in &account.warnings(rt.alloc(), texts)? {
        let line = WarningLine {
            account,
            texts,
            warning: *warning,
        };
        let _said = eprintln!(rt; "{name}: {line}");
    }
    Ok(())
}

/// Writes the comparison, as lines or as JSON.
fn write_comparison<W: Write>(
    alloc: Global,
    sides: Sides<'_, '_>,
    found: &Comparison<'_>,
    stop: Option<Stop>,
    is_json: bool,
    out: &mut W,
) -> Result<(), ComparisonError> {
    if is_json {
        write_object(alloc, sides, found, stop, out)
    } else {
        write_lines(alloc, sides, found, stop, out)
    }
}

/// Writes what was found, and the warnings of both runs. Returns the fault of the comparison, if it has one.
fn list<'a, R: Eprint + AllocGlobal, W: Write>(
    rt: &R,
    files: ComparedFiles<'a, '_>,
    sides: Sides<'_, '_>,
    found: &Comparison<'_>,
    missing: Option<usize>,
    is_json: bool,
    fail_on: FailOn,
    out: &mut W,
) -> Result<(), Fault<'a>> {
    let wrote = Cell::new(None);
    let mut noted = Noting::new(&mut *out, &wrote);
    let stop = stop_of(found.ending, missing);
    if let Err(error) = write_comparison(rt.alloc(), sides, found, stop, is_json, &mut noted) {
        return Err(comparison_fault(files, error, None, wrote.get()));
    }
    listing_result(noted.flush())?;
    warn(rt, sides.old, &found.old.account)?;
    warn(rt, sides.new, &found.new.account)?;
    answer_of(
        files.stream,
        stop,
        found.fails_on(fail_on),
        found.is_sampled(),
    )
}

/// Runs both texts over a stream, and lists in what they differ.
fn compare_sides<'a, R: Eprint + AllocGlobal, I: Read + Drop, W: Write>(
    rt: &R,
    plan: &Schedule,
    files: ComparedFiles<'a, '_>,
    sides: Sides<'_, '_>,
    is_json: bool,
    fail_on: FailOn,
    input: I,
    out: &mut W,
) -> Result<(), Fault<'a>> {
    let (read, missing) = (Cell::new(None), Cell::new(None));
    let noted = Noting::new(input, &read);
    let texts = sides.old.texts.len();
    let mut reader = Reading::new(TextNoting::new(rt.alloc(), noted, texts, &missing)?);
    match run_comparison::compare(rt.alloc(), plan, sides, is_json, &mut reader) {
        Ok(found) => list(
            rt,
            files,
            sides,
            &found,
            missing.get(),
            is_json,
            fail_on,
            out,
        ),
        Err(error) => Err(comparison_fault(files, error, read.get(), None)),
    }
}

/// The rule texts of a run: the one with this name, and the further ones.
fn texts_of_run<'a, 't>(
    alloc: Global,
    files: ComparedFiles<'a, '_>,
    name: &'a str,
    bytes: &'t [u8],
    further: &'t [Vec<u8>],
) -> Result<Vec<RuleText<'t>>, Fault<'a>> {
    let mut texts = Vec::new(alloc);
    texts.push(rule_text_of(alloc, name, bytes)?)?;
    for (name, bytes) in files.further.iter().zip(further.iter()) {
        texts.push(rule_text_of(alloc, name, bytes.as_slice())?)?;
    }
    Ok(texts)
}

/// The bytes of the rule texts of a comparison.
#[derive(Clone, Copy)]
struct ComparedBytes<'t> {
    old: &'t [u8],
    new: &'t [u8],
    further: &'t [Vec<u8>],
}

/// Reads the rule texts of both runs, and compares them.
fn compare_bytes<'a, R: Eprint + AllocGlobal, I: Read + Drop, W: Write>(
    rt: &R,
    plan: &Schedule,
    files: ComparedFiles<'a, '_>,
    bytes: ComparedBytes<'_>,
    is_json: bool,
    fail_on: FailOn,
    input: I,
    out: &mut W,
) -> Result<(), Fault<'a>> {
    let olds = texts_of_run(rt.alloc(), files, files.old, bytes.old, bytes.further)?;
    let news = texts_of_run(rt.alloc(), files, files.new, bytes.new, bytes.further)?;
    let sides = Sides {
        old: Side {
            name: files.old,
            texts: olds.as_slice(),
        },
        new: Side {
            name: files.new,
            texts: news.as_slice(),
        },
    };
    compare_sides(rt, plan, files, sides, is_json, fail_on, input, out)
}

/// Runs each of two rule texts over a stream, and lists the requests and events in which they differ. Both runs get the further texts.
/// The stream is read in pieces. Warnings about what a run looked at go to standard error.
///
/// Errors: `Differs` if the texts differ in what the options name; `NotSampled` if in one of the runs nothing was sampled; `Stream` or
/// `TextMissing` if the stream ends early or brings a text that isn't given; and the faults of files, texts and options.
pub fn compare<'a, R: Files + Eprint + AllocGlobal, W: Write>(
    rt: &R,
    files: ComparedFiles<'a, '_>,
    how: CompareOptions<'a>,
    out: &mut W,
) -> Result<(), Fault<'a>> {
    let fail_on = fail_on_of(how.fail_on)?;
    let plan = schedule_in(rt, files.schedule)?;
    let old = read_text(rt, files.old)?;
    let new = read_text(rt, files.new)?;
    let further = texts_in(rt, files.further)?;
    let (input, _length) = stream_of(rt, files.stream)?;
    let bytes = ComparedBytes {
        old: old.as_slice(),
        new: new.as_slice(),
        further: further.as_slice(),
    };
    compare_bytes(rt, &plan, files, bytes, how.is_json, fail_on, input, out)
}
