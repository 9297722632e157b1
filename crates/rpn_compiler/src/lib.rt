//! The compiler of rule texts: from a text to the files of its two tables.
#![tactic(auto)]

mod compiler;
mod equation;
mod error;
mod files;
mod images;
mod limits;
mod lowered;
mod lowering;
mod rule_text;

pub use compiler::compile;
pub use error::CompileError;
pub use files::TablePair;
pub use rule_text::RuleText;
