//! Times of a stream, in UTC.

use crate::cell::CellText;
use jiff::Timestamp;
use lc_model::{Moment, SUBSECONDS};
use packet_listing::Time;
use std::alloc::{AllocError, Global};
use std::fmt::{self, Display, Formatter, Write};

/// The nanoseconds of a second.
const NANOSECONDS: i128 = 1_000_000_000;

/// The instant of second 0 of a stream. Leap seconds aren't counted, as in POSIX time.
#[derive(Clone, Copy)]
pub struct Epoch {
    zero: Timestamp,
}

impl Display for Epoch {
    /// The instant in UTC, as `2000-01-01T12:00:00Z`.
    fn fmt<W: Write>(&self, f: &mut Formatter<W>) -> fmt::Result {
        write!(f, "{}", self.zero)
    }
}

impl Epoch {
    /// Reads an instant in the form of RFC 3339, as `2000-01-01T12:00:00Z`; `None` for any other word.
    pub fn read(word: &str) -> Option<Epoch> {
        match word.parse::<Timestamp>() {
            Ok(zero) => Some(Epoch { zero }),
            Err(_) => None,
        }
    }

    /// A moment's instant, rounded down to nanoseconds; `None` after the year 9999.
    pub fn at(self, moment: Moment) -> Option<Timestamp> {
        let part = i128::from(moment.subseconds) * NANOSECONDS / i128::from(SUBSECONDS);
        let behind = i128::from(moment.seconds) * NANOSECONDS + part;
        match Timestamp::from_nanosecond(self.zero.as_nanosecond() + behind) {
            Ok(instant) => Some(instant),
            Err(_) => None,
        }
    }
}

/// An instant; it displays in UTC, with five decimal digits of the second, rounded down.
#[derive(Clone, Copy)]
struct Instant(Timestamp);

impl Display for Instant {
    fn fmt<W: Write>(&self, f: &mut Formatter<W>) -> fmt::Result {
        write!(f, "{:.5}", self.0)
    }
}

/// The cells of a row's moment. They keep their memory from row to row.
#[derive(Drop)]
pub struct TimeTexts {
    /// The instant of second 0, if the row has times in UTC.
    epoch: Option<Epoch>,
    /// In seconds, with five decimal digits.
    pub time: CellText,
    /// In UTC, with five decimal digits of the second.
    pub utc: CellText,
}

impl TimeTexts {
    /// The cells of no moment.
    pub fn new(alloc: Global, epoch: Option<Epoch>) -> TimeTexts {
        TimeTexts {
            epoch,
            time: CellText::new(alloc),
            utc: CellText::new(alloc),
        }
    }

    /// The instant of a moment in UTC; `None` without an epoch, and after the year 9999.
    fn instant(&self, moment: Moment) -> Option<Timestamp> {
        self.epoch?.at(moment)
    }

    /// Takes a moment; without one both cells are empty. Out of memory is the only error.
    pub fn show(&mut self, moment: Option<Moment>) -> Result<(), AllocError> {
        self.time.hide();
        self.utc.hide();
        let Some(moment) = moment else {
            return Ok(());
        };
        self.time.show(Time::at(moment))?;
        match self.instant(moment) {
            Some(instant) => self.utc.show(Instant(instant)),
            None => Ok(()),
        }
    }
}
