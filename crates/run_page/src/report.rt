//! From a stream to its page.

use crate::clock::{RecordClock, signed};
use crate::error::ReportError;
use crate::intake::Taken;
use crate::lists::Lists;
use crate::part::Part;
use crate::progress::Progress;
use crate::running::{PageRun, watch_run};
use crate::shown_part::{PartStart, ShownPart};
use crate::telling::Telling;
use crate::{page_front, page_script_0, page_script_1, page_script_2, page_script_3};
use lc_model::ByteSource;
use page_json::{CommandLine, Data, Ended, LaneSamples, Run, Source, Window, command_lines};
use rpn_compiler::RuleText;
use run_account::{AccountJson, RunAccount, WarningLine};
use run_stepper::Ending;
use run_summary::{Account, Place};
use schedules::Schedule;
use std::alloc::{AllocError, Global};
use std::fmt::Display;
use std::io::{self, Write};

/// The bytes of the texts.
fn bytes_of<'t>(alloc: Global, sources: &[Source<'_, 't>]) -> Result<Vec<&'t [u8]>, AllocError> {
    let mut texts = Vec::new(alloc);
    for source in sources {
        texts.push(source.text)?;
    }
    Ok(texts)
}

/// How the run ended, in a page's terms.
fn page_end(ending: Ending) -> Ended {
    match ending {
        Ending::Whole { records } => Ended::Whole(records),
        Ending::NoRecord { n } => Ended::NoRecord(n),
        Ending::Cut { n } => Ended::Cut(n),
        Ending::Bound => Ended::Bound,
    }
}

/// The parts of the page after its data.
const SCRIPT: &[&str] = &[
    page_script_0::TEXT,
    page_script_1::TEXT,
    page_script_2::TEXT,
    page_script_3::TEXT,
];

/// Writes a page with this data. The error is the writer's.
fn put_page<W: Write, A: Display>(out: &mut W, data: &Data<'_, '_, '_, '_, A>) -> io::Result<()> {
    out.write_all(page_front::TEXT.as_bytes())?;
    write!(out, "{data}")?;
    for text in SCRIPT {
        out.write_all(text.as_bytes())?;
    }
    Ok(())
}

/// The part that a page shows; `None` if it shows the whole run.
fn window_of(part: Part, page: &ShownPart<'_, '_>) -> Option<Window> {
    if part.from.is_none() && part.until.is_none() {
        return None;
    }
    Some(Window {
        from: part.from,
        until: part.until,
        records: page.start.records,
        packets: page.start.packets,
    })
}

/// The place after the last record of a part that is shown.
fn end_of(telling: &Telling<'_, '_>, start: PartStart) -> Place {
    let records = start
        .records
        .saturating_add(telling.account.figures.records);
    Place {
        record: records.saturating_add(1),
        time: telling.clock.end,
    }
}

/// What a page shows of a part of a run, with the lists made of it at its end.
#[derive(Drop)]
struct Finished<'a> {
    start: PartStart,
    window: Option<Window>,
    clock: RecordClock,
    lists: Lists,
    account: Account<'a>,
    samples: u64,
    sampling: Vec<LaneSamples>,
    commands: Vec<CommandLine>,
}

/// Ends a part of a run. The only error is a lack of memory.
fn finish<'a>(
    alloc: Global,
    part: Part,
    page: ShownPart<'a, '_>,
) -> Result<Finished<'a>, AllocError> {
    let window = window_of(part, &page);
    let ShownPart { start, telling, .. } = page;
    let end = end_of(&telling, start);
    let Telling {
        clock,
        lanes,
        lists,
        account,
        ..
    } = telling;
    let commands = command_lines(alloc, &account)?;
    let samples = lanes.samples();
    Ok(Finished {
        start,
        window,
        clock,
        lists,
        account,
        samples,
        sampling: lanes.into_samples(alloc, end)?,
        commands,
    })
}

/// Writes the page of a part of a run.
fn put_part<W: Write>(
    out: &mut W,
    run: &Run<'_, '_>,
    part: &Finished<'_>,
    looked_at: &AccountJson<'_, '_, '_>,
    taken: Taken,
    ending: Ending,
) -> io::Result<()> {
    let shift = signed(part.start.ticks).saturating_sub(signed(part.clock.start));
    let (lanes, values) = part.lists.parts();
    let Taken { bytes, digest } = taken;
    let data = Data {
        run,
        bytes,
        digest,
        ended: page_end(ending),
        window: part.window,
        start: part.start.ticks,
        shift,
        end: if part.account.figures.records == 0 {
            shift
        } else {
            part.clock.end
        },
        is_ordered: part.clock.is_ordered,
        account: &part.account,
        samples: part.samples,
        looked_at,
        sampling: part.sampling.as_slice(),
        lanes,
        values,
        commands: part.commands.as_slice(),
    };
    put_page(out, &data)
}

/// How a run ended for which a page was written, and what it looked at.
#[derive(Drop)]
pub struct MadePage {
    /// How the run ended.
    pub ending: Ending,
    /// The number of records in which a rule was sampled.
    pub samples: u64,
    /// The warnings about what the run looked at, a sentence each.
    pub warnings: Vec<String>,
}

/// The warnings about what a run of these texts looked at. The only error is a lack of memory.
fn warnings_of(
    alloc: Global,
    account: &RunAccount<'_>,
    texts: &[RuleText<'_>],
) -> Result<Vec<String>, AllocError> {
    let mut lines = Vec::new(alloc);
    for warning in account.warnings(alloc, texts)? {
        let line = WarningLine {
            account,
            texts,
            warning,
        };
        lines.push(format!(in alloc; "{line}")?)?;
    }
    Ok(lines)
}

/// Runs rule texts under a schedule over a stream, and writes what happened as one page of HTML, which needs no other file.
///
/// page/DATA.md has the contents of the page, which shows this part of the run. The stream is read to its end, in pieces, and run once;
/// the memory doesn't grow with the run. `progress` gets the number of handled bytes after each record. A stream that ends early has a
/// page too. Returns how the run ended, and what
/// it looked at.
///
/// Errors before anything is written: `Rules` with the first text that doesn't compile, numbered from 0; `Read` if a read fails;
/// `Bound` if there are more records or reads than 64 bits can count. Others: `Memory`; `Write` if the writer fails, and then a part of
/// the page may be written.
pub fn write_page<R: ByteSource, W: Write, P: Progress>(
    alloc: Global,
    schedule: &Schedule,
    run: &Run<'_, '_>,
    part: Part,
    reader: &mut R,
    out: &mut W,
    progress: &mut P,
) -> Result<MadePage, ReportError> {
    let texts = bytes_of(alloc, run.texts)?;
    let PageRun {
        page,
        account,
        taken,
        ending,
        ..
    } = watch_run(alloc, schedule, texts.as_slice(), part, reader, progress)?;
    let warnings = warnings_of(alloc, &account, page.telling.account.texts.as_slice())?;
    let finished = finish(alloc, part, page)?;
    let looked_at = AccountJson {
        account: &account,
        texts: finished.account.texts.as_slice(),
    };
    put_part(out, run, &finished, &looked_at, taken, ending)?;
    Ok(MadePage {
        ending,
        samples: account.samples(),
        warnings,
    })
}
