//! Lines of a text, words of a line, and decimal numbers, as schedules, scripts and events have them (this project's own).
#![tactic(auto)]

mod line;
mod number;
mod word;

pub use line::first_line;
pub use number::{decimal_number, split_digits};
pub use word::{blank_count, first_word, is_blank, is_silent, words};
