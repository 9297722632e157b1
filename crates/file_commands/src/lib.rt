//! The commands that work on files alone: they list tables, streams and packets as text or rows, import archives as
//! streams, export the packets of streams, and format rule texts.
#![tactic(auto)]

mod ends;
mod exporting;
mod formatting;
mod forms;
mod import_options;
mod import_outcome;
mod import_stream;
mod importing;
mod listing;
mod record_line;
mod rows;

pub use crate::exporting::export;
pub use crate::formatting::format;
pub use crate::forms::{packets, stream};
pub use crate::importing::import;
pub use crate::listing::{table, write_help};
