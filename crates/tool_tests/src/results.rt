//! How a page ends where its writer is full, a read fails or memory is lacking; and the page and the progress of a long run, read in
//! small pieces.

use crate::claims::same;
use crate::pages::{ASK, BEGIN, FAIL, LOW, NONE, PASS, PIECE, page_from, page_of, says, stream_of};
use lc_model::Pieces;
use run_page::{Progress, ReportError, Silent};
use run_stepper::Ending;
use std::process::Abort;

/// A page of a tick, where there is room for so many bytes.
fn answer_within<R: Abort + AllocGlobal>(rt: &R, room: &mut [u8]) -> Option<ReportError> {
    let mut out = room;
    let tick = [2, 0, 0, 0, 100, 0, 0, 0, 0, 0, 0];
    page_of(rt, &[LOW], &tick, &mut out, &mut Silent).err()
}

#[test]
fn a_full_writer_is_told(rt: HostRuntime) {
    let answer = answer_within(&rt, &mut [0; 1_000]);
    same(&rt, "the answer", answer, Some(ReportError::Write));
}

#[test]
fn a_failed_read_is_told_and_nothing_written(rt: HostRuntime) {
    let stream = stream_of(&rt, &[BEGIN, FAIL], NONE);
    let mut page = Vec::new(rt.alloc());
    for read in [1, 2, 30] {
        let mut reader = Pieces::failing_at(stream.as_slice(), PIECE, read);
        let answer = page_from(&rt, &[LOW], &mut reader, &mut page, &mut Silent);
        same(
            &rt,
            "the answer",
            (answer, page.len()),
            (Err(ReportError::Read), 0),
        );
    }
}

/// `rt try --test --fail-alloc N` refuses the Nth allocation of the test's process. Where the page finds none, that is what is
/// answered; else it is whole.
#[test]
fn want_of_memory_is_answered(rt: HostRuntime) {
    if let Some(error) = answer_within(&rt, &mut [0; 100_000]) {
        same(&rt, "the answer", error, ReportError::Memory);
    }
}

/// The last that was told, and how often.
#[derive(Drop)]
struct ProgressCount {
    times: usize,
    last: u64,
}

impl Progress for ProgressCount {
    fn update(&mut self, bytes: u64) {
        self.times = self.times.wrapping_add(1);
        self.last = bytes;
    }
}

/// The text; 10,000 samples, of which ten in a row fail, from record 10,005 on; and the request for housekeeping.
fn twenty_thousand<R: Abort + AllocGlobal>(rt: &R) -> Vec<u8> {
    let mut parts = Vec::from_slice(rt.alloc(), &[BEGIN]).expect(rt, "memory for a script");
    for sample in 0..10_000 {
        let part = if (5_000..5_010).contains(&sample) {
            FAIL
        } else {
            PASS
        };
        parts.push(part).expect(rt, "memory for a script");
    }
    parts.push(ASK).expect(rt, "memory for a script");
    stream_of(rt, parts.as_slice(), b"")
}

/// Ten failing samples among 20,004 records are there, with the records and the times of the first, of the one by which the rule
/// became passive, and of the one that passed behind them.
const LANES: &[(&str, usize)] = &[
    (r#""figures":{"records":20004,"#, 1),
    (
        r#""lanes":[[[1,0,1,0],[3,131072,2,1],[5,262144,4,1],[10005,655622144,32,1],[10007,655753216,32,2],[10025,656932864,4,2]]]"#,
        1,
    ),
    (
        r#""values":[[4,196608,2400],[10004,655556608,2399],[10024,656867328,2400]]"#,
        1,
    ),
    (r#""commands_left_out":[9404,599,19405]"#, 1),
];

#[test]
fn ten_failures_among_twenty_thousand_records_are_told(rt: HostRuntime) {
    let stream = twenty_thousand(&rt);
    let mut told = ProgressCount { times: 0, last: 0 };
    let mut page = Vec::new(rt.alloc());
    let answer = page_of(&rt, &[LOW], stream.as_slice(), &mut page, &mut told);
    let whole = Ending::Whole { records: 20_004 };
    same(&rt, "the page", answer, Ok(whole));
    same(&rt, "the progress", told.times, 20_004);
    same(&rt, "the stream's bytes", told.last, stream.len() as u64);
    says(&rt, page.as_slice(), LANES);
}
