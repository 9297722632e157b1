//! Pages that tests make of scripts, and what they read of them as bytes.

use crate::claims::same;
use lc_model::{ByteSource, Pieces};
use run_page::{Progress, ReportError, Run, Source, WHOLE, write_page};
use run_stepper::Ending;
use schedules::parse_schedule;
use std::alloc::{AllocError, Global};
use std::io::Write;
use std::process::Abort;
use stream_script::read_script;

/// Both default files of the first text, and the start of the Limit Checker, from second 100 on.
pub const BEGIN: &[u8] =
    b"at 100 0\nwdt 0 /cf/lc_def_wdt.tbl\nafter 1\nadt 0 /cf/lc_def_adt.tbl\nafter 1\nstart LC\n";

/// A low voltage and a sample.
pub const FAIL: &[u8] = b"after 1\ntelemetry 0883 0 095F0000\nafter 1\nsample 65535 65535 keep\n";

/// A voltage that is high enough, and a sample.
pub const PASS: &[u8] = b"after 1\ntelemetry 0883 0 09600000\nafter 1\nsample 65535 65535 keep\n";

/// The request for housekeeping.
pub const ASK: &[u8] = b"after 1\nhousekeeping\n";

/// The bytes of a read, which are no whole records.
pub const PIECE: usize = 7;

/// What is no record.
pub const NONE: &[u8] = &[9, 0, 0, 0, 105, 0, 0, 0, 0, 0, 0];

/// One rule: two samples in a row with a voltage below 2,400 request sequence 7.
pub const LOW: Source<'static, 'static> = Source {
    name: "low.rules",
    text: b"packet P = mid 0x0883 length 16; field V = P u16be at 12 stale 2; rule LOW active fails 2 sequence 7 event error 1001 \"low volts\" when V < 2400;",
};

/// The stream of a script in parts, and bytes behind it.
pub fn stream_of<R: Abort + AllocGlobal>(rt: &R, script: &[&[u8]], behind: &[u8]) -> Vec<u8> {
    let script = join_parts(rt.alloc(), script).expect(rt, "memory for a script");
    let mut stream = read_script(rt.alloc(), script.as_slice()).expect(rt, "a stream");
    stream
        .extend_from_slice(behind)
        .expect(rt, "memory for a stream");
    stream
}

fn join_parts(alloc: Global, parts: &[&[u8]]) -> Result<Vec<u8>, AllocError> {
    let mut bytes = Vec::new(alloc);
    for part in parts {
        bytes.extend_from_slice(part)?;
    }
    Ok(bytes)
}

/// A page of a run of these texts over a stream.
pub fn page_of<'n, 't, R: Abort + AllocGlobal, W: Write, P: Progress>(
    rt: &R,
    sources: &'t [Source<'n, 't>],
    stream: &[u8],
    out: &mut W,
    progress: &mut P,
) -> Result<Ending, ReportError> {
    page_from(rt, sources, &mut Pieces::new(stream, PIECE), out, progress)
}

/// A page of a run of these texts over what a reader gives.
pub fn page_from<'n, 't, R: Abort + AllocGlobal, I: ByteSource, W: Write, P: Progress>(
    rt: &R,
    sources: &'t [Source<'n, 't>],
    reader: &mut I,
    out: &mut W,
    progress: &mut P,
) -> Result<Ending, ReportError> {
    let plan: &[u8] = b"slots 1";
    let schedule = parse_schedule(rt.alloc(), plan).expect(rt, "a schedule");
    let run = Run {
        plan: Source {
            name: "plan",
            text: plan,
        },
        stream: "run.stream",
        texts: sources,
        epoch: None,
    };
    let written = write_page(rt.alloc(), &schedule, &run, WHOLE, reader, out, progress)?;
    Ok(written.ending)
}

/// How often this stands in a page.
fn times(page: &[u8], wanted: &[u8]) -> usize {
    let mut count = 0usize;
    for window in page.windows(wanted.len().max(1)) {
        if window == wanted {
            count = count.saturating_add(1);
        }
    }
    count
}

/// Each of these stands in the page so many times.
pub fn says<R: Abort>(rt: &R, page: &[u8], wanted: &[(&str, usize)]) {
    for &(text, count) in wanted {
        same(rt, text, times(page, text.as_bytes()), count);
    }
}
