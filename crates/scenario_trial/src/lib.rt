//! Trials: a run over the stream of a script, and whether what the script expects has come.
#![tactic(auto)]

mod error;
mod expectation;
mod expectation_lines;
mod expectation_words;
mod fault;
mod in_force;
mod judging;
pub mod laws;
mod numbers;
mod origin;
mod probe;
mod probing;
mod stopping;
mod telling;
mod trial;
mod unfailing;
mod verdict;
mod warning;

pub use error::TrialError;
pub use expectation::{Arrival, ArrivalKind, Coming, Expectation, Span, What, has_come};
pub use expectation_lines::{Placed, ReadError, read_expectations, silence};
pub use fault::ExpectationFault;
pub use trial::{TrialOutcome, Tried, script_error_at, try_scenario};
pub use verdict::{Judged, unmet_of};
pub use warning::TrialWarning;
