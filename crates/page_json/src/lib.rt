//! The data of a run's page (crates/run_page/page/DATA.md): one JSON object with the account of the run and the lists of its changes.
//! Each row is a list of texts with a value after each.
#![tactic(auto)]

mod commands;
mod data;
mod json;
mod lists;
mod requests;
mod rules;
mod samples;
mod value_names;

pub use commands::{CommandLine, command_lines};
pub use data::{Data, Ended, Run, Source, Window};
pub use samples::{Gap, LaneSamples};
