//! The library for C on board: it judges table files and needs no memory.
#![tactic(auto)]

mod verdict;

pub use verdict::{Verdict, needlemauve_validate};
