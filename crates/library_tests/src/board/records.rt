//! Each kind of record, byte by byte, in pieces of seven bytes.

use crate::shared::same;
use flight_core::{Found, Records};
use lc_model::{Body, Kind, Moment, Record};
use std::process::Abort;

/// A packet of three bytes; a tick; a file of two bytes, whose name has further bytes after its end; the watchpoints of the
/// second text; its actionpoints, under a name of 40 bytes; and no record.
const STREAM: &[u8] = b"\x01\0\0\0\x64\0\x07\0\0\0\x03\x15\x16\x17\
    \x02\0\0\0\x65\0\x08\0\0\0\0\
    \x03\0\0\0\x66\0\x09\0\0\0\x2A/cf/a\0b\0\0\0\0\0\0\0\0\0\0\0\0\0\0\0\0\0\0\0\0\0\0\0\0\0\0\0\0\0\0\0\0\0\x1F\x20\
    \x04\x01\x02\x03\x04\x05\x06\0\0\0\x2B/cf/w\0\0\0\0\0\0\0\0\0\0\0\0\0\0\0\0\0\0\0\0\0\0\0\0\0\0\0\0\0\0\0\0\0\0\0\x01\0\x01\
    \x04\0\0\0\x67\0\0\0\0\0\x2Babcdefghijabcdefghijabcdefghijabcdefghij\x02\0\x01\
    \x05\0\0\0\0\0\0\0\0\0\0";

/// At these seconds and subseconds.
fn at(seconds: u32, subseconds: u16) -> Moment {
    Moment {
        seconds,
        subseconds,
    }
}

/// What the stream brings, record by record.
fn found_at(number: usize) -> Option<Found<'static>> {
    let record = |moment, body| Some(Found::Record(Record { moment, body }));
    match number {
        0 => record(at(100, 7), Body::Packet(&[21, 22, 23])),
        1 => record(at(101, 8), Body::Tick),
        2 => record(
            at(102, 9),
            Body::File {
                name: b"/cf/a",
                bytes: &[31, 32],
            },
        ),
        3 => Some(Found::Half {
            moment: at(0x0102_0304, 0x0506),
            name: b"/cf/w",
            kind: Kind::Wdt,
            text: 1,
        }),
        4 => Some(Found::Half {
            moment: at(103, 0),
            name: b"abcdefghijabcdefghijabcdefghijabcdefghij",
            kind: Kind::Adt,
            text: 1,
        }),
        _ => Some(Found::Bad { n: 6 }),
    }
}

/// The records that are whole by now are the next ones. Returns how many there were so far.
fn hand_out<R: Abort>(rt: &R, records: &mut Records, before: usize) -> usize {
    let mut count = before;
    for _ in before..6 {
        let found = records.next();
        if found.is_none() {
            break;
        }
        same(rt, count, found, found_at(count));
        count = count.wrapping_add(1);
    }
    count
}

#[test]
fn five_records_in_pieces_of_seven(rt: HostRuntime) {
    let mut records = Records::new(rt.alloc(), 2).expect(&rt, "memory for records");
    let mut count = 0usize;
    for piece in STREAM.chunks(7) {
        records.feed(piece);
        count = hand_out(&rt, &mut records, count);
    }
    same(&rt, "records", count, 6);
}
