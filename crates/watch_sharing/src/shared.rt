//! The result of sharing: watchpoints, and each rule's mentions of them.

use lc_model::Term;

/// The distinct watchpoints of some rules, and which of them each rule mentions.
#[derive(Debug, Drop)]
pub struct Shared {
    /// Each watchpoint once, in the order of first mention over all rules; at most 176.
    pub terms: Vec<Term>,
    /// For each rule, the numbers of the watchpoints that it mentions: indices into `terms`, from left to right.
    pub mentions: Vec<Vec<u16>>,
}
