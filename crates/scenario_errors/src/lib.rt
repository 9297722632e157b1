//! Why a scenario is refused, and the message about its first faulty line.
#![tactic(auto)]

mod line_error;

pub use line_error::{LineError, first_message, read_scenario, scenario_refusal};
