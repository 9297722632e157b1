//! `report --schedule SCHEDULE --stream STREAM --out PAGE RULES..`

ghost use Rattle.std.specs.Prelude.{◌≡◌};
ghost use Rattle.run_commands.specs.Cause.{answer_of_ending, fault_of_device, fault_of_page, fault_of_record};

use crate::text_noting::TextNoting;
use crate::times::{PageTimes, part_of};
use flight_core::RunError;
use lc_model::Reading;
use program_io::{Noting, Why, begin, check_page_place, discard, fault_of, keep, reason_for};
use run_page::{MadePage, Part, Progress, ReportError, Run, Source, write_page};
use run_stepper::Ending;
use schedules::Schedule;
use std::alloc::{AllocError, Global};
use std::cell::Cell;
use std::fs::{File, Files, OpenFile};
use std::io::{BufWriter, Eprint, ErrorKind, Read, Write};
use tool_faults::{Fault, check_apart, epoch_of, fault_at, read_whole_text, schedule_of, texts_in};

/// Progress is reported once for each of this number of parts of the stream.
const PARTS: u64 = 20;

/// The bytes between two reports of progress, if the stream's length isn't known.
const PART: u64 = 16_777_216;

/// The first bytes of every page: a file that begins otherwise is no page, and a page doesn't replace it.
const PAGE_FRONT: &[u8] = b"<!DOCTYPE html>\n<html lang=\"en\">\n<head>\n<meta charset=\"utf-8\">\n\
    <meta name=\"viewport\" content=\"width=device-width, initial-scale=1\">\n\
    <title>Run of the Limit Checker</title>\n";

/// Reports the progress of a page on standard error, if `is_watched`.
#[derive(Drop)]
struct ProgressLine<'a, R> {
    rt: &'a R,
    is_watched: bool,
    /// The length of the stream in bytes, if it is known.
    of: Option<u64>,
    /// The number of bytes at which progress is reported next.
    next: u64,
}

impl<R> ProgressLine<'_, R> {
    /// The number of bytes between two reports.
    fn part(&self) -> u64 {
        match self.of {
            Some(of) => of / PARTS,
            None => PART,
        }
    }
}

impl<R: Eprint> Progress for ProgressLine<'_, R> {
    fn update(&mut self, bytes: u64) {
        if !self.is_watched || bytes < self.next {
            return;
        }
        self.next = self.next.saturating_add(self.part());
        let _told = match self.of {
            Some(of) => eprintln!(self.rt; "{bytes} of {of} bytes"),
            None => eprintln!(self.rt; "{bytes} bytes"),
        };
    }
}

/// The fault for a page that wasn't made. `read` and `written` are the kinds of errors of the stream and the page, if there are any.
fn page_fault<'a>(
    page: &'a str,
    stream: &'a str,
    rules: &[&'a str],
    error: ReportError,
    read: Option<ErrorKind>,
    written: Option<ErrorKind>,
) -> Fault<'a>
    ensures { result ≡ fault_of_page page.entry stream.entry rules.now error read written }
{
    match error {
        ReportError::Rules { text, error } => match rules.get(text) {
            Some(name) => Fault::Rules(name, error),
            None => Fault::Rules(page, error),
        },
        ReportError::Memory => Fault::Memory,
        ReportError::Read => failed_file(stream, read),
        ReportError::Bound => Fault::Stream(stream, RunError::ReadBound),
        ReportError::Write => failed_file(page, written),
    }
}

/// The fault for a file that failed, with this kind of error if it is known.
pub fn failed_file<'a>(name: &'a str, kind: Option<ErrorKind>) -> Fault<'a>
    ensures { result ≡ fault_of_device name.entry kind }
{
    match kind {
        Some(kind) => Fault::File(name, reason_for(kind)),
        None => Fault::File(name, Why::Failed),
    }
}

/// Writes and flushes the page. Returns how the run ended, and what it looked at.
fn write_to<R: Eprint, I: Read + Drop, F: Write + Drop>(
    alloc: Global,
    schedule: &Schedule,
    run: &Run<'_, '_>,
    part: Part,
    input: I,
    file: F,
    told: &mut ProgressLine<'_, R>,
) -> Result<MadePage, ReportError> {
    let mut reader = Reading::new(input);
    let Ok(mut out) = BufWriter::new(alloc, file) else {
        return Err(ReportError::Memory);
    };
    let written = write_page(alloc, schedule, run, part, &mut reader, &mut out, told);
    let flushed = out.flush();
    let (_file, _unwritten) = out.into_parts();
    let written = written?;
    flushed?;
    Ok(written)
}

/// The fault for bad record `n` of the stream in a file with this name. `missing` is the number of the rule text that the record names,
/// if that text isn't given.
fn bad_record<'a>(stream: &'a str, n: u64, missing: Option<usize>) -> Fault<'a>
    ensures { result ≡ fault_of_record stream.entry n missing }
{
    match missing {
        Some(text) => Fault::TextNotGiven(stream, n, text),
        None => Fault::Stream(stream, RunError::BadRecord { n }),
    }
}

/// The result of a run over the stream in a file with this name: a fault with the place if the stream ends early. `missing` is as for
/// `bad_record`.
fn answer_of<'a>(stream: &'a str, ending: Ending, missing: Option<usize>) -> Result<(), Fault<'a>>
    ensures { result ≡ answer_of_ending stream.entry ending missing }
{
    match ending {
        Ending::Whole { .. } => Ok(()),
        Ending::NoRecord { n } => Err(bad_record(stream, n, missing)),
        Ending::Cut { n } => Err(Fault::Stream(stream, RunError::Truncated { n })),
        Ending::Bound => Err(Fault::Stream(stream, RunError::ReadBound)),
    }
}

/// The instant of second 0 in UTC, as text, if the option names one.
fn epoch_text<'a>(alloc: Global, word: Option<&'a str>) -> Result<Option<String>, Fault<'a>> {
    match epoch_of(word)? {
        Some(epoch) => Ok(Some(format!(in alloc; "{epoch}")?)),
        None => Ok(None),
    }
}

/// Opens the file of a stream. Returns it with its length in bytes, if it is a regular file. Error: `File`.
pub fn stream_of<'a, R: Files>(rt: &R, name: &'a str) -> Result<(R::File, Option<u64>), Fault<'a>> {
    let file = match File::open(rt, name) {
        Ok(file) => file,
        Err(error) => return Err(fault_at(name, fault_of(&error))),
    };
    let length = match file.metadata() {
        Ok(there) if there.is_file() => Some(there.len()),
        _ => None,
    };
    Ok((file, length))
}

/// Pairs each rule text with the name of its file.
fn sources_of<'a, 't>(
    alloc: Global,
    rules: &[&'a str],
    texts: &'t [Vec<u8>],
) -> Result<Vec<Source<'a, 't>>, AllocError> {
    let mut sources = Vec::new(alloc);
    for (name, text) in rules.iter().zip(texts.iter()) {
        sources.push(Source {
            name,
            text: text.as_slice(),
        })?;
    }
    Ok(sources)
}

/// Writes the page to a draft file, which replaces the old page at the end. If an error occurs, the old page stays.
fn put_page<'a, R: Files + Eprint + AllocGlobal, I: Read + Drop>(
    told: &mut ProgressLine<'_, R>,
    plan: &Schedule,
    run: &Run<'_, '_>,
    part: Part,
    input: I,
    stream: &'a str,
    page: &'a str,
    rules: &[&'a str],
) -> Result<MadePage, Fault<'a>> {
    let rt = told.rt;
    let mut draft = begin(rt, page).map_err(|fault| fault_at(page, fault))?;
    let (read, wrote) = (Cell::new(None), Cell::new(None));
    let input = Noting::new(input, &read);
    let output = Noting::new(&mut draft.file, &wrote);
    match write_to(rt.alloc(), plan, run, part, input, output, told) {
        Ok(written) => {
            keep(rt, draft).map_err(|fault| fault_at(page, fault))?;
            Ok(written)
        }
        Err(error) => {
            discard(rt, draft);
            let (read, wrote) = (read.get(), wrote.get());
            Err(page_fault(page, stream, rules, error, read, wrote))
        }
    }
}

/// Runs rule texts over a stream and writes the page of the run, or of the part that the options name, which replaces the old page at
/// the end. The stream is read in pieces. Errors: `Stream` with the place for a stream that ends early, and `TextNotGiven` for one that
/// brings a text that isn't given, after the page is made, and then `NotSampled` if no rule was sampled; with any other fault the old file
/// stays. `File` also for an old file that is no page. Warnings about what the run looked at go to standard error, and progress if
/// `is_watched`.
pub fn make_page<'a, R: Files + Eprint + AllocGlobal>(
    rt: &R,
    schedule: &'a str,
    stream: &'a str,
    page: &'a str,
    rules: &[&'a str],
    times: PageTimes<'a>,
    is_watched: bool,
) -> Result<(), Fault<'a>> {
    let epoch = epoch_text(rt.alloc(), times.epoch)?;
    let part = part_of(times)?;
    let planned = read_whole_text(rt, schedule)?;
    let plan = schedule_of(rt, schedule, planned.as_slice())?;
    let (input, of) = stream_of(rt, stream)?;
    let texts = texts_in(rt, rules)?;
    check_apart(rt, page, &[schedule, stream])?;
    check_apart(rt, page, rules)?;
    check_page_place(rt, page, PAGE_FRONT)?;
    let sources = sources_of(rt.alloc(), rules, texts.as_slice())?;
    let run = Run {
        plan: Source {
            name: schedule,
            text: planned.as_slice(),
        },
        stream,
        texts: sources.as_slice(),
        epoch: epoch.as_ref().map(|text| text.as_str()),
    };
    let mut told = ProgressLine {
        rt,
        is_watched,
        of,
        next: 0,
    };
    told.next = told.part();
    let missing = Cell::new(None);
    let input = TextNoting::new(rt.alloc(), input, sources.len(), &missing)?;
    let written = put_page(&mut told, &plan, &run, part, input, stream, page, rules)?;
    for warning in &written.warnings {
        let _said = eprintln!(rt; "{warning}");
    }
    answer_of(stream, written.ending, missing.get())?;
    if written.samples == 0 {
        return Err(Fault::NotSampled);
    }
    Ok(())
}
