//! The library from which a caller takes a run and this profile's applications: `run` and what goes with it, the applications
//! `LC`, `SCH` and `COUNTER` with their schedule, the program's words, the stock of the program `flight_run` with `launch`, and
//! what can be read off a host: the engine of its Limit Checker, the scheduler's next slot, the rule
//! text in force.
//! What is re-exported is defined in the crate that each `use` names; the trait `App` and the host are `app_host`'s.
#![tactic(auto)]

mod checkers;
mod in_force;
mod launching;
mod members;
mod schedulers;
mod stock;

pub use checkers::{HasEngine, engine_on};
pub use command_counter::Counter;
pub use flight_core::{FedHost, Found, Halt, Records, Report, RunError, run, run_within};
pub use flight_run_args::{Plan, WordsError, read_words};
pub use in_force::text_in_force;
pub use launching::launch;
pub use limit_checker::LimitChecker;
pub use members::Member;
pub use schedulers::{HasSlot, slot_on};
pub use schedules::{Schedule, ScheduleError, parse_schedule};
pub use stock::{add, own_stock};
pub use tick_scheduler::Scheduler;
