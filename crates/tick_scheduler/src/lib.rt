//! The scheduler application of the core Flight System: it publishes requests at each tick (after the cFS scheduler's table of
//! slots; packets are this project's own). It re-exports the types and the parser of schedules.
#![tactic(auto)]

mod packet;
mod scheduler;

pub use packet::{PACKET_SIZE, write_packet};
pub use scheduler::Scheduler;
pub use schedules::{Entry, Schedule, ScheduleError, parse_schedule};
