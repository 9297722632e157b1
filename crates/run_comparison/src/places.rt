//! Where a record stands, and how far apart two are.

use crate::met::MetRecord;
use lc_model::SUBSECONDS;
use packet_listing::Time;
use run_stepper::moment_of;
use std::fmt::{self, Display, Formatter, Write};

/// Where a record stands: its time and number.
#[derive(Clone, Copy)]
pub struct RecordPlace<'r> {
    pub met: &'r MetRecord,
}

impl Display for RecordPlace<'_> {
    fn fmt<W: Write>(&self, f: &mut Formatter<W>) -> fmt::Result {
        let time = Time::at(moment_of(self.met.record.as_slice()));
        write!(f, "{time} record {}", self.met.number)
    }
}

/// A duration in 1/65,536 s; it displays in seconds, with five decimal digits if it isn't whole.
#[derive(Clone, Copy)]
pub struct Seconds(pub u64);

impl Display for Seconds {
    fn fmt<W: Write>(&self, f: &mut Formatter<W>) -> fmt::Result {
        let second = u64::from(SUBSECONDS);
        let (whole, part) = (self.0 / second, self.0 % second);
        if part == 0 {
            return write!(f, "{whole}");
        }
        write!(f, "{whole}.{:05}", part * 100_000 / second)
    }
}

/// The time of a record, in 1/65,536 s.
pub fn time_of(met: &MetRecord) -> u64 {
    let moment = moment_of(met.record.as_slice());
    u64::from(moment.seconds) * u64::from(SUBSECONDS) + u64::from(moment.subseconds)
}
