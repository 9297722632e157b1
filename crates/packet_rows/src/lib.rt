//! Packets and records as rows for other programs: comma-separated values with a line of names, or one JSON object per line. Both
//! have the same columns in each row. A missing value is empty, or null.
#![tactic(auto)]

mod cell;
mod epoch;
mod error;
mod form;
mod objects;
mod packet;
mod packet_cells;
mod record;
mod values;
mod writer;

pub use epoch::Epoch;
pub use error::RowError;
pub use form::Form;
pub use writer::RowWriter;
