//! What an editor shows of a rule text, also of one with faults: names and their uses, symbols, folds, classed words, what may stand at a
//! place, and what is said of a word.
#![tactic(auto)]

mod choices;
mod classes;
mod details;
mod explaining;
mod folds;
mod hovers;
mod item_hover;
mod item_parts;
mod keywords;
mod names;
mod offers;
mod outline;
mod renaming;
mod symbols;

pub use names::NameUse;
pub use outline::Outline;
pub use renaming::RenameFault;
