//! The times of records.

use lc_model::SUBSECONDS;
use lc_model::stream::{HEADER, moment_of};
use run_summary::Place;

/// The times of the records so far, in 1/65,536 s.
#[derive(Clone, Copy)]
pub struct RecordClock {
    /// The time of the first record.
    pub start: u64,
    /// The time of the newest record less that of the first.
    pub end: i64,
    /// Whether no record is earlier than the one before it.
    pub is_ordered: bool,
    /// Whether the next record has none before it.
    pub is_anew: bool,
}

/// A time as a signed number.
pub fn signed(ticks: u64) -> i64 {
    i64::try_from(ticks).unwrap_or(i64::MAX)
}

/// The time of a record in 1/65,536 s; 0 if its header is cut short.
pub fn ticks_in(record: &[u8]) -> u64 {
    if record.len() < HEADER {
        return 0;
    }
    let moment = moment_of(record);
    u64::from(moment.seconds) * u64::from(SUBSECONDS) + u64::from(moment.subseconds)
}

/// One time less another.
fn difference(one: u64, other: u64) -> i64 {
    signed(one).saturating_sub(signed(other))
}

impl RecordClock {
    /// The clock before the first record.
    pub fn new() -> RecordClock {
        RecordClock {
            start: 0,
            end: 0,
            is_ordered: true,
            is_anew: true,
        }
    }

    /// Begins anew: the order of records counts from the next one on.
    pub fn begin_anew(&mut self) {
        self.is_ordered = true;
        self.is_anew = true;
    }

    /// Takes the time of the record with this number, counted from 1. Returns its place.
    pub fn next(&mut self, number: u64, ticks: u64) -> Place {
        if number == 1 {
            self.start = ticks;
        }
        let time = difference(ticks, self.start);
        if !self.is_anew && time < self.end {
            self.is_ordered = false;
        }
        self.is_anew = false;
        self.end = time;
        Place {
            record: number,
            time,
        }
    }
}
