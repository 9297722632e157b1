//! Messages for the author of a refused schedule or script: the line that the reader refuses, the word that is wrong or missing, and what
//! would be right. Also warnings about valid scripts.
#![tactic(auto)]

mod argument;
mod assignment;
mod body;
mod entry;
mod expectation;
mod fields;
mod first_line;
mod line;
mod names;
mod orders;
mod refusal;
mod said;
mod scenario;
mod schedule;
mod script;
mod statement;
mod wanted;
mod warnings;
mod word;

pub use expectation::expectation_message;
pub use names::{DeclaredNames, FieldName};
pub use refusal::Refusal;
pub use scenario::scenario_message;
pub use schedule::read_schedule;
pub use script::script_message;
pub use warnings::script_warnings;
