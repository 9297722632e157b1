//! What a packet of telemetry costs the host and the application `LC`: `valgrind --tool=callgrind` on this test, over
//! `on_packet`, which is called through its object's table and so stays a function of its own.

use crate::flying::run_texts;
use crate::low_volts::LOW_VOLTS;
use crate::two_failures::{NO_ENTRIES, STREAM};
use flight_core::Report;
use lc_model::{Limited, Pieces};
use schedules::parse_schedule;

/// A packet of 2,400 volts, at which no rule is sampled.
const FINE: &[u8] = b"\x01\0\0\0d\0\0\0\0\0\x10\x08\x83\xC0\0\0\x09\0\0\0\0\0\0\x09\x60\0\0";

#[test]
fn a_hundred_thousand_packets(rt: HostRuntime) {
    let schedule = parse_schedule(rt.alloc(), NO_ENTRIES).expect(&rt, "a schedule");
    // Both files, and the start of the Limit Checker.
    let mut stream = Vec::from_slice(rt.alloc(), &STREAM[..147]).expect(&rt, "memory for a stream");
    for _ in 0..100_000 {
        stream
            .extend_from_slice(FINE)
            .expect(&rt, "memory for a stream");
    }
    let mut source = Pieces::new(stream.as_slice(), 8_192);
    let mut room = [0; 672];
    let mut sink = Limited::new(&mut room, 672);
    let answer = run_texts(
        rt.alloc(),
        &[LOW_VOLTS],
        &schedule,
        &mut source,
        &mut sink,
        None,
    )
    .expect(&rt, "memory for the stock");
    let report = Report {
        records: 100_003,
        bytes: 672,
    };
    assert_eq!(rt; answer, Ok(report), "the answer");
}
