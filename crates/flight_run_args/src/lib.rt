//! The program's words: which command line gives which plan, read by `clap`; and command lines that the program takes.
#![tactic(auto)]

mod command_line;
pub mod laws;

pub use command_line::{Plan, WordsError, read_words};
