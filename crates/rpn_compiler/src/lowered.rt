//! Rules in compiled form, before they are written into tables (this project's own).

use lc_model::Term;

/// The watchpoints of rules, and the words of each rule's condition.
#[derive(Drop)]
pub struct Lowered {
    /// The watchpoints that the rules mention, each once, in order of first mention.
    pub terms: Vec<Term>,
    /// For each rule the words of its condition, without EQUAL, which the table's writer adds.
    pub words: Vec<Vec<u16>>,
}
