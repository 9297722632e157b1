//! The command `import --out STREAM RAW..`.

use crate::import_options::{ids_of, resync_by, start_number, tick_of, times_of};
use crate::import_outcome::ImportOutcome;
use crate::import_stream::Stream;
use flight_tools_args::ImportWords;
use packet_archive::{
    ArchiveFront, Choice, Clock, ImportOptions, Met, NothingTaken, Report, Resync, Tally,
    import_held,
};
use program_io::{
    Feed, STANDARD, STANDARD_INPUT, Why, begin, check_stream_place, discard, feed_of, feed_over,
    is_standard_output, keep,
};
use std::alloc::Global;
use std::fs::Files;
use std::io::{Eprint, Read, Write};
use tool_faults::{Fault, check_apart, fault_at, listing_result};

/// Whether the archive may go on with more bytes: none are left, or those in front are a part of a packet.
fn may_go_on(met: Met) -> bool {
    matches!(met, Met::Stands(ArchiveFront::Over | ArchiveFront::Cut))
}

/// How archives become records.
#[derive(Drop)]
struct ArchiveImport<'o> {
    options: ImportOptions<'o>,
    clock: Clock,
    /// Whether bytes that begin no plausible packet are skipped.
    is_resync: bool,
    /// Whether a warning is a fault.
    is_strict: bool,
    /// The reports so far.
    text: String,
    outcome: ImportOutcome,
}

impl ArchiveImport<'_> {
    /// Adds the report of an archive, of which the import met this with so many bytes left.
    fn report(
        &mut self,
        alloc: Global,
        name: &str,
        tally: &Tally,
        met: Met,
        left: usize,
    ) -> Result<(), Fault<'static>> {
        let report = Report {
            name,
            tally,
            met,
            left,
        };
        let lines = format!(in alloc; "{report}")?;
        self.text.push_str(lines.as_str())?;
        self.outcome = self.outcome.with(tally, met);
        Ok(())
    }

    /// Reports it if no packet was taken.
    fn report_nothing(&mut self, alloc: Global) -> Result<(), Fault<'static>> {
        if self.outcome.taken == 0 {
            let nothing = NothingTaken {
                only: self.options.choice.only,
            };
            let lines = format!(in alloc; "{nothing}")?;
            self.text.push_str(lines.as_str())?;
        }
        Ok(())
    }

    /// Imports one archive and adds its report.
    fn import_one<'a, F: Read + Drop, S: Write>(
        &mut self,
        alloc: Global,
        name: &'a str,
        mut feed: Feed<'a, F>,
        stream: &mut Stream<'a, '_, S>,
    ) -> Result<(), Fault<'a>> {
        let mut tally = Tally::new();
        let mut records = Vec::new(alloc);
        for _ in 0..u64::MAX {
            let is_more = feed.read_on()?;
            let held = feed.contents().len();
            self.options.resync = resync_by(self.is_resync, is_more);
            let (rest, met) = import_held(
                &mut records,
                &mut self.clock,
                &mut tally,
                &self.options,
                feed.contents(),
            )?;
            let left = rest.len();
            stream.push_records(alloc, records.as_slice())?;
            records.clear();
            if !is_more || !may_go_on(met) {
                return self.report(alloc, name, &tally, met, left);
            }
            feed.let_go(held.saturating_sub(left));
        }
        Ok(())
    }

    /// Imports archives in order, standard input for `-`, and adds their reports.
    fn import_all<'a, R: Files + AllocGlobal, I: Read + Drop, S: Write>(
        &mut self,
        rt: &R,
        archives: &[&'a str],
        input: &mut I,
        stream: &mut Stream<'a, '_, S>,
    ) -> Result<(), Fault<'a>> {
        for name in archives {
            if *name == STANDARD {
                let feed = feed_over(rt.alloc(), STANDARD_INPUT, &mut *input);
                self.import_one(rt.alloc(), STANDARD_INPUT, feed, stream)?;
            } else {
                let feed = feed_of(rt, name)?;
                self.import_one(rt.alloc(), name, feed, stream)?;
            }
        }
        self.report_nothing(rt.alloc())
    }
}

/// Checks that the stream isn't one of the archives, that it doesn't take the place of what is no stream, and that standard input is
/// named once.
fn check_names<'a, R: Files + AllocGlobal>(
    rt: &R,
    stream: &'a str,
    archives: &[&'a str],
) -> Result<(), Fault<'a>> {
    if archives.iter().filter(|name| **name == STANDARD).count() > 1 {
        return Err(Fault::File(STANDARD_INPUT, Why::Itself));
    }
    if stream == STANDARD {
        return Ok(());
    }
    check_apart(rt, stream, archives)?;
    Ok(check_stream_place(rt, stream)?)
}

/// Imports archives to standard output; the reports go to standard error. Errors of `ending`, too.
fn import_to_output<'a, R: Files + Eprint + AllocGlobal, I: Read + Drop, W: Write>(
    rt: &R,
    archives: &[&'a str],
    how: &mut ArchiveImport<'_>,
    start: Option<u16>,
    input: &mut I,
    out: &mut W,
) -> Result<(), Fault<'a>> {
    let mut into = Stream {
        name: None,
        file: &mut *out,
        start,
    };
    how.import_all(rt, archives, input, &mut into)?;
    listing_result(out.flush())?;
    let text = how.text.as_str();
    let _said = eprint!(rt; "{text}");
    how.outcome.ending(how.is_strict)
}

/// Writes the reports to standard output, or to standard error if the stream goes to standard output.
fn tell<R: Eprint, W: Write>(
    rt: &R,
    text: &str,
    is_output: bool,
    out: &mut W,
) -> Result<(), Fault<'static>> {
    if is_output {
        let _said = eprint!(rt; "{text}");
        return Ok(());
    }
    listing_result(out.write_all(text.as_bytes()))?;
    listing_result(out.flush())
}

/// Imports archives to a file, through a draft that is renamed once the reports are written, unless a warning is a fault. Errors of
/// `ending`, too.
fn import_to_file<'a, R: Files + Eprint + AllocGlobal, I: Read + Drop, W: Write>(
    rt: &R,
    archives: &[&'a str],
    stream: &'a str,
    how: &mut ArchiveImport<'_>,
    start: Option<u16>,
    input: &mut I,
    out: &mut W,
) -> Result<(), Fault<'a>> {
    let is_output = is_standard_output(rt, stream);
    let mut draft = begin(rt, stream).map_err(|fault| fault_at(stream, fault))?;
    let mut into = Stream {
        name: Some(stream),
        file: &mut draft.file,
        start,
    };
    let imported = how.import_all(rt, archives, input, &mut into);
    let told = match imported {
        Ok(()) => tell(rt, how.text.as_str(), is_output, out),
        Err(fault) => Err(fault),
    };
    let ended = match told {
        Ok(()) => how.outcome.ending(how.is_strict),
        Err(fault) => Err(fault),
    };
    match ended {
        Ok(()) | Err(Fault::Gone | Fault::Early) => {
            keep(rt, draft).map_err(|fault| fault_at(stream, fault))?
        }
        Err(_) => discard(rt, draft),
    }
    ended
}

/// Imports archives of space packets, in order, into a stream, through a draft that is renamed at the end; `-` is standard input for an
/// archive and standard output for the stream. Reports go to `out`, or to standard error if the stream goes to standard output. Errors:
/// `Value` for an option; `Early` if an archive ends early, and then the stream is written all the same; `Warned` for a warning if
/// `--strict` is given; others are of files and memory. Where the stream is not written an old one stays.
pub fn import<'a, R: Files + Eprint + AllocGlobal, I: Read + Drop, W: Write>(
    rt: &R,
    archives: &[&'a str],
    stream: &'a str,
    wanted: ImportWords<'a>,
    mut input: I,
    out: &mut W,
) -> Result<(), Fault<'a>> {
    let only = ids_of(rt.alloc(), wanted.only)?;
    let mut how = ArchiveImport {
        options: ImportOptions {
            marked: wanted.marked,
            resync: Resync::Never,
            choice: Choice {
                idle: wanted.keep_idle,
                faulty: wanted.keep_faulty,
                only: only.as_slice(),
            },
            times: times_of(wanted)?,
        },
        clock: Clock::new(tick_of(wanted.tick)?),
        is_resync: wanted.resync,
        is_strict: wanted.strict,
        text: String::new(rt.alloc()),
        outcome: ImportOutcome::new(),
    };
    let start = start_number(wanted.start)?;
    check_names(rt, stream, archives)?;
    if stream == STANDARD {
        import_to_output(rt, archives, &mut how, start, &mut input, out)
    } else {
        import_to_file(rt, archives, stream, &mut how, start, &mut input, out)
    }
}
