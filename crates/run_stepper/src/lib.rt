//! A run over a stream record by record, which keeps the packets that each record led to.
#![tactic(auto)]

mod ending;
mod error;
mod framing;
mod handled;
pub mod laws;
mod observer;
mod plan;
mod rule_texts;
mod standing;
mod stepping;
mod trace;
mod watch_error;
mod watching;

pub use ending::Ending;
pub use error::CourseError;
pub use framing::{moment_of, record_size};
pub use handled::Handled;
pub use observer::Observer;
pub use plan::RunInputs;
pub use rule_texts::read_texts;
pub use standing::RuleStanding;
pub use stepping::Stepping;
pub use trace::{Came, Trace};
pub use watch_error::WatchError;
pub use watching::watch;
