//! Memory that is refused.
//!
//! `rt try --test --fail-alloc N`, for N from 1 on, refuses the Nth allocation of each test's process. In
//! `want_of_memory_touches_nothing` the schedule's comes first, then those of the stock, then those of the run; where one is
//! refused, nothing is read or written, and the line that the test prints says in which of the three.

use crate::low_volts::run_low_volts;
use crate::two_failures::{NO_ENTRIES, STREAM};
use flight_core::{Report, RunError};
use lc_model::{ByteSource, Limited, Pieces};
use schedules::parse_schedule;
use std::process::Abort;

/// Nothing was read, and nothing written.
fn is_untouched<R: Abort>(rt: &R, reader: &Pieces<'_>, writer: &Limited<'_>) {
    assert_eq!(rt;
        (reader.reads, reader.left.len(), writer.taken),
        (0, 255, 0),
        "untouched"
    );
}

#[test]
fn want_of_memory_touches_nothing(rt: HostRuntime) {
    let mut room = [0; 852];
    let mut reader = Pieces::new(STREAM, 99);
    let mut writer = Limited::new(&mut room, 852);
    let Ok(schedule) = parse_schedule(rt.alloc(), NO_ENTRIES) else {
        let _ = println!(rt; "no memory for the schedule");
        return;
    };
    match run_low_volts(rt.alloc(), &schedule, &mut reader, &mut writer) {
        Err(_) => {
            let _ = println!(rt; "no memory for the stock");
            is_untouched(&rt, &reader, &writer);
        }
        Ok(Err(RunError::Memory)) => {
            let _ = println!(rt; "no memory for the run");
            is_untouched(&rt, &reader, &writer);
        }
        Ok(answer) => {
            let _ = println!(rt; "memory for all");
            let report = Report {
                records: 7,
                bytes: 852,
            };
            assert_eq!(rt; answer, Ok(report), "the answer");
            assert_eq!(rt; writer.taken, 852, "the output");
        }
    }
}
