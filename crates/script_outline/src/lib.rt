//! What an editor shows of a schedule or a scenario: classed words, symbols, folds, what may stand at a place, what is said of a word.
#![tactic(auto)]

mod blocks;
mod choices;
mod classes;
mod explanation;
mod hovers;
mod outline;
mod part;
mod statement;
mod symbols;
mod word;

pub use outline::{ScriptKind, ScriptName, ScriptNames, ScriptOutline};
