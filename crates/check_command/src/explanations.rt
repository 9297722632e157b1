//! The errors and warnings that `check --explain` explains. Written by tools/dev/write_explanations from explanations.txt.

use crate::explanations_0::{part_0, part_1, part_2, part_3};
use crate::explanations_1::{part_4, part_5, part_6, part_7};
use crate::explanations_2::{part_8, part_9, part_10};

/// An error or a warning.
pub struct Explanation {
    /// The number of an error, or the name of an error or a warning.
    pub name: &'static str,
    /// What it is, where it comes from, and what it means: one line, without its end.
    pub head: &'static str,
    /// Further sentences, what the message marks, and examples with the sentence of the message: lines, each with its end.
    pub rest: &'static str,
    /// What to say to someone who wrote a name near this one; empty for a number.
    pub advice: &'static str,
}

/// The number of parts.
pub const PARTS: usize = 11;

/// The errors and warnings of a part, counted from 0; none beyond the last.
pub fn part(number: usize) -> &'static [Explanation] {
    match number {
        0 => part_0(),
        1 => part_1(),
        2 => part_2(),
        3 => part_3(),
        4 => part_4(),
        5 => part_5(),
        6 => part_6(),
        7 => part_7(),
        8 => part_8(),
        9 => part_9(),
        10 => part_10(),
        _ => &[],
    }
}
