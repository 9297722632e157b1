//! The application `COUNTER`, which counts the commands that it accepts (this project's own).
#![tactic(auto)]

mod counter;
mod texts;

pub use counter::Counter;
