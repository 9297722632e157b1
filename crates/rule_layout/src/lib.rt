//! The layout of rule texts: one text for all that have the same tokens and comments. Only blanks and line ends differ, so
//! that the rules stay as they are.
#![tactic(auto)]

mod columns;
mod error;
mod formatting;
mod gap;
mod group;
pub mod laws;
mod layout;
mod piece;
mod reader;
mod writing;

pub use error::FormatError;
pub use formatting::format;
