//! Two rule texts over one recording: the requests and events in which their runs differ.
#![tactic(auto)]

mod asked;
mod beside;
mod command_words;
mod comparing;
mod comparison;
mod difference;
mod error;
mod forces;
mod json;
pub mod laws;
mod lines;
mod meaning;
mod members;
mod met;
mod notes;
mod object;
mod order;
mod packet_words;
mod pairs;
mod places;
mod requesters;
mod stop;
mod tally;
mod texts;

pub use asked::{Asked, FailOn};
pub use comparing::RunSoFar;
pub use comparison::{Comparison, compare};
pub use error::{ComparisonError, Which};
pub use forces::Forces;
pub use lines::write_lines;
pub use meaning::{EventMeaning, Meaning, Sort, meanings_of};
pub use met::MetRecord;
pub use object::write_object;
pub use order::{are_same, only_in};
pub use stop::Stop;
pub use texts::{Side, Sides};
