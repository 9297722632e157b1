//! Scenarios in the words of rule texts: packets and fields by name, ramps, repeated lines, and the Limit Checker's commands. Each line
//! gives lines of a plain script (`stream_script`), which gives the stream.
#![tactic(auto)]

mod command_words;
mod declared;
mod error;
mod field_values;
mod force;
pub mod laws;
mod line;
mod named;
mod number;
mod order;
mod plain;
mod ramp;
mod repetition;
mod rules;
mod said;
mod word;

pub use command_words::{command_in_words, record_in_words};
pub use declared::{DeclaredItems, declared_in};
pub use error::{Reason, ScenarioError};
pub use force::ForceChange;
pub use plain::{Plain, plain_script};
