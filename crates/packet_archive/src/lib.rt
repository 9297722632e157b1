//! Archives of space packets, one after the other as ground systems record them (CCSDS 133.0-B): their import to streams, and the
//! export of streams.
#![tactic(auto)]

mod break_lines;
mod choice;
mod clock;
mod export;
mod front;
mod gap_lines;
mod import;
pub mod laws;
mod nothing_lines;
mod record;
mod said;
mod tally;
mod texts;

pub use choice::{Choice, Fate};
pub use clock::{Clock, TimeBreak, Times};
pub use export::export_held;
pub use front::{ArchiveFront, MARKER, Resync, front_by};
pub use import::{ImportOptions, Met, import_held, import_next};
pub use nothing_lines::NothingTaken;
pub use said::Report;
pub use tally::{APPLICATIONS, Break, Faulty, NAMED, SequenceGap, SkippedPart, Tally};
