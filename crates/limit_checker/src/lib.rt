//! The Limit Checker application `LC` of the core Flight System (cFS Limit Checker user's guide): the engine of `limit_engine`
//! on a seat of the host, with its tables, its commands and its packets.
#![tactic(auto)]

mod adoption;
mod application;
mod asked;
mod capacities;
mod checker;
mod command;
mod dispatch;
mod housekeeping;
mod reacting;
mod standings;
mod starting;
mod telling;
mod texts;
mod verdict;

pub use capacities::CheckerCapacities;
pub use checker::LimitChecker;
