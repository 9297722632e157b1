//! Schedules, which define the requests published at each tick, and their texts (after the cFS scheduler's table of slots;
//! texts are this project's own).
#![tactic(auto)]

mod entry;
mod error;
mod line;
mod parsing;
mod schedule;
mod word;

pub use crate::entry::Entry;
pub use crate::error::ScheduleError;
pub use crate::line::MOST_DIGITS;
pub use crate::parsing::parse_schedule;
pub use crate::schedule::Schedule;
