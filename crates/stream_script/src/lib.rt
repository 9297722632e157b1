//! Streams of records as text: a script writes a stream line by line, and each stream has a script (this project's own).
#![tactic(auto)]

mod error;
mod fields;
mod front;
mod kind;
pub mod laws;
mod line_reader;
mod listing;
mod number;
mod script;
mod shown;
mod statement;
mod text_building;
mod word;
mod writing;

pub use error::{Reason, ScriptError};
pub use fields::{bits_of, write_field};
pub use front::{Front, front_of};
pub use kind::RecordKind;
pub use line_reader::{ScriptStream, read_script, read_script_by_lines};
pub use listing::write_listing_from;
pub use number::{decimal_number, is_negative, without_sign};
pub use writing::{telemetry_line, write_script};
