//! The commands about runs: `scenario` and `try` for scenarios and their expectations, `compare` for two rule texts over one stream,
//! `report` for the page of a run, and `live` for a run while its stream arrives.
#![tactic(auto)]

mod comparing;
mod line_error;
mod live;
mod report;
mod scenario;
mod text_noting;
mod times;
mod trying;
mod worst;

pub use crate::comparing::{CompareOptions, ComparedFiles, compare};
pub use crate::live::run;
pub use crate::report::make_page;
pub use crate::scenario::make_stream;
pub use crate::times::PageTimes;
pub use crate::trying::try_out;
