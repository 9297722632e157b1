//! The two failing samples in pieces, and with a fault in each place: each read and each write fails in turn, the writer ends
//! after each byte, and the stream after each byte.

use crate::flying::{Answer, Devices, run_texts};
use crate::low_volts::LOW_VOLTS;
use crate::two_failures::{NO_ENTRIES, OUTPUT, STREAM};
use flight_core::{Report, RunError};
use lc_model::{Limited, Pieces};
use schedules::parse_schedule;
use std::process::Abort;

/// A run over the stream, from and to these devices, ends with this result, and writes the first `size` bytes of its output.
fn ends<R: Abort + AllocGlobal>(rt: &R, devices: Devices, answer: Answer, size: usize) {
    let Devices(piece, length, read, limit, write, reads) = devices;
    let schedule = parse_schedule(rt.alloc(), NO_ENTRIES).expect(rt, "a schedule");
    let mut room = [0; 852];
    let mut source = Pieces::failing_at(&STREAM[..length.min(STREAM.len())], piece.max(1), read);
    let mut sink = Limited::failing_at(&mut room, limit.min(852), write);
    let found = run_texts(
        rt.alloc(),
        &[LOW_VOLTS],
        &schedule,
        &mut source,
        &mut sink,
        reads,
    )
    .expect(rt, "memory for the stock");
    let expected = &OUTPUT[..size.min(OUTPUT.len())];
    assert_eq!(rt;
        (found, sink.bytes()),
        (answer, expected),
        "{read} {limit} {write} {length}"
    );
}

/// Each of these runs, in turn.
fn end<R: Abort + AllocGlobal>(rt: &R, rows: &[(Devices, Answer, usize)]) {
    for (devices, answer, size) in rows {
        ends(rt, *devices, *answer, *size);
    }
}

/// All seven records were handled.
const ALL: Answer = Ok(Report {
    records: 7,
    bytes: 852,
});

/// No record was handled.
const NONE: Answer = Ok(Report {
    records: 0,
    bytes: 0,
});

/// The whole stream, in pieces of any size, with one read more than there are, and with fewer reads than it needs.
const ROWS: &[(Devices, Answer, usize)] = &[
    (Devices(8_192, 255, 0, 852, 0, None), ALL, 852),
    (Devices(1, 255, 0, 852, 0, None), ALL, 852),
    (Devices(7, 255, 0, 852, 0, None), ALL, 852),
    (Devices(100, 255, 0, 852, 0, None), ALL, 852),
    (Devices(1, 255, 257, 852, 0, None), ALL, 852),
    (
        Devices(8_192, 255, 2, 852, 0, None),
        Err(RunError::Read),
        852,
    ),
    (
        Devices(1, 255, 0, 852, 0, Some(54)),
        Err(RunError::ReadBound),
        168,
    ),
    (
        Devices(1, 255, 0, 852, 0, Some(255)),
        Err(RunError::ReadBound),
        852,
    ),
    (Devices(1, 255, 0, 852, 0, Some(256)), ALL, 852),
    (
        Devices(8_192, 255, 0, 852, 0, Some(1)),
        Err(RunError::ReadBound),
        852,
    ),
    (Devices(8_192, 0, 0, 852, 0, Some(1)), NONE, 0),
    (
        Devices(8_192, 0, 0, 852, 0, Some(0)),
        Err(RunError::ReadBound),
        0,
    ),
];

#[test]
fn pieces_and_reads_make_the_same_records(rt: HostRuntime) {
    end(&rt, ROWS);
}

/// How many records end within the first `bytes` bytes of the stream, and how many bytes these lead to.
fn behind(bytes: usize) -> (u64, usize) {
    match bytes {
        0..=53 => (0, 0),
        54..=107 => (1, 168),
        108..=146 => (2, 336),
        147..=173 => (3, 672),
        174..=200 => (4, 672),
        201..=227 => (5, 672),
        228..=254 => (6, 672),
        _ => (7, 852),
    }
}

/// The read of each byte fails, and so does the one that would report the end.
#[test]
fn each_read_fails_in_turn(rt: HostRuntime) {
    for bytes in 0..=255 {
        let devices = Devices(1, 255, bytes as u64 + 1, 852, 0, None);
        ends(&rt, devices, Err(RunError::Read), behind(bytes).1);
    }
}

/// Each of the five writes fails.
#[test]
fn each_write_fails_in_turn(rt: HostRuntime) {
    for write in 1..=5 {
        let size = (write - 1) * 168;
        let sent = size as u128;
        let devices = Devices(1, 255, 0, 852, write as u64, None);
        ends(&rt, devices, Err(RunError::Write { sent }), size);
    }
}

/// The writer takes some bytes, and then fails.
#[test]
fn a_writer_ends_behind_each_byte(rt: HostRuntime) {
    for size in 0..852 {
        let sent = size as u128;
        let devices = Devices(8_192, 255, 0, size, 0, None);
        ends(&rt, devices, Err(RunError::Write { sent }), size);
    }
}

/// How a run over the first `bytes` bytes of the stream ends: with its records, or inside one.
fn of_front(bytes: usize) -> Answer {
    let (records, size) = behind(bytes);
    match bytes {
        0 | 54 | 108 | 147 | 174 | 201 | 228 | 255 => Ok(Report {
            records,
            bytes: size as u128,
        }),
        _ => Err(RunError::Truncated {
            n: records.saturating_add(1),
        }),
    }
}

#[test]
fn a_stream_ends_behind_each_byte(rt: HostRuntime) {
    for piece in [1, 8_192] {
        for bytes in 0..=255 {
            let devices = Devices(piece, bytes, 0, 852, 0, None);
            ends(&rt, devices, of_front(bytes), behind(bytes).1);
        }
    }
}
