//! Texts as editors see them: positions in lines and UTF-16 units, changes of ranges, and what an outline of a text has: classed words,
//! symbols, folds, choices and hovers (Language Server Protocol 3.17).
#![tactic(auto)]

mod change;
pub mod laws;
mod outline;
mod position;

pub use change::{Replacement, replace, replacements_between};
pub use outline::{Choice, ClassedWord, Fold, Hover, Symbol, WordClass};
pub use position::{UnitPlace, Walk, offset_at};
