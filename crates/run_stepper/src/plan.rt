//! The inputs of a run.

use schedules::Schedule;

/// The rule texts and the schedule of a run.
#[derive(Clone, Copy)]
pub struct RunInputs<'a> {
    /// The rule texts, numbered from 0. Records of halves name them by these numbers.
    pub texts: &'a [&'a [u8]],
    /// What the scheduler publishes at each tick.
    pub schedule: &'a Schedule,
}
