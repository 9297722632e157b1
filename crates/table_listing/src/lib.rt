//! Lists table files as text for a flight team: equations are decompiled to conditions, and each used entry of a sound
//! image is a line in the words of the rule language.
#![tactic(auto)]

mod decompiler;
mod equation;
mod error;
mod headers;
mod judged;
pub mod laws;
mod lines;
mod listing;
mod shown;
mod value_names;

pub use decompiler::decompile;
pub use equation::{Equation, Operator};
pub use error::ListingError;
pub use headers::{FileLine, PreambleLines, TableLine};
pub use judged::{FaultLine, RefusalLine};
pub use lines::{ActionpointLine, WatchpointLine};
pub use listing::list_table;
pub use shown::{InHex, QuotedName, Shown};
