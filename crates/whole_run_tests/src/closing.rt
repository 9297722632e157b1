//! A run closes its host however it ends, and so does the close of a fed host: what runs then retires, once.

use crate::leaving::{retirements_of, retirements_when_fed};
use crate::two_failures::NO_ENTRIES;
use flight_core::{Report, RunError};
use lc_model::{Limited, Pieces};
use schedules::parse_schedule;
use std::process::Abort;

/// An order to start the counter, and HOST's event is 168 bytes.
const START: &[u8] =
    b"\x01\0\0\0d\0\0\0\0\0\x1C\x18\x06\xC0\0\0\x15\x01\0COUNTER\0\0\0\0\0\0\0\0\0\0\0\0\0";

/// The order, and after it a record of kind 9.
const START_AND_NO_RECORD: &[u8] =
    b"\x01\0\0\0d\0\0\0\0\0\x1C\x18\x06\xC0\0\0\x15\x01\0COUNTER\0\0\0\0\0\0\0\0\0\0\0\0\0\
\x09\0\0\0d\0\0\0\0\0\0";

/// The order, and after it the first two bytes of a record.
const START_AND_CUT: &[u8] =
    b"\x01\0\0\0d\0\0\0\0\0\x1C\x18\x06\xC0\0\0\x15\x01\0COUNTER\0\0\0\0\0\0\0\0\0\0\0\0\0\
\x02\0";

/// A stream, the read that fails or 0, the bytes that the writer takes, the most reads, and how the run ends.
struct ClosingRow(&'static [u8], u64, usize, u32, Result<Report, RunError>);

/// One row for each ending after the first read.
const ROWS: &[ClosingRow] = &[
    ClosingRow(
        START,
        0,
        168,
        9,
        Ok(Report {
            records: 1,
            bytes: 168,
        }),
    ),
    ClosingRow(
        START_AND_NO_RECORD,
        0,
        168,
        9,
        Err(RunError::BadRecord { n: 2 }),
    ),
    ClosingRow(START_AND_CUT, 0, 168, 9, Err(RunError::Truncated { n: 2 })),
    ClosingRow(START, 2, 168, 9, Err(RunError::Read)),
    ClosingRow(START, 0, 100, 9, Err(RunError::Write { sent: 100 })),
    ClosingRow(START, 0, 168, 1, Err(RunError::ReadBound)),
];

/// The run of a row ends so, and the counter retired once.
fn retires<R: Abort + AllocGlobal>(rt: &R, row: &ClosingRow) {
    let ClosingRow(stream, read, limit, reads, expected) = row;
    let schedule = parse_schedule(rt.alloc(), NO_ENTRIES).expect(rt, "a schedule");
    let mut source = Pieces::failing_at(stream, 99, *read);
    let mut room = [0; 168];
    let mut sink = Limited::new(&mut room, (*limit).min(168));
    let found = retirements_of(rt.alloc(), &schedule, &mut source, &mut sink, *reads).expect(
        rt,
        "memory for the stock",
    );
    assert_eq!(rt; found, (*expected, 1), "ending, retirements");
}

/// Each row, in turn.
fn retire<R: Abort + AllocGlobal>(rt: &R, rows: &[ClosingRow]) {
    for row in rows {
        retires(rt, row);
    }
}

#[test]
fn what_runs_retires_however_the_run_ends(rt: HostRuntime) {
    retire(&rt, ROWS);
}

#[test]
fn what_runs_retires_when_a_fed_host_closes(rt: HostRuntime) {
    let schedule = parse_schedule(rt.alloc(), NO_ENTRIES).expect(&rt, "a schedule");
    let mut room = [0; 168];
    let mut sink = Limited::new(&mut room, 168);
    let found = retirements_when_fed(rt.alloc(), &schedule, START, &mut sink).expect(&rt, "memory");
    assert_eq!(rt; found, 1, "retirements");
}
