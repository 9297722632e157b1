//! A warning, before it is put into words.

use crate::lint::Lint;
use diagnostics::{Many, Message};
use std::alloc::{AllocError, Global};

/// A warning and its place.
#[derive(Clone, Copy)]
pub struct Warning {
    /// The kind of warning.
    pub lint: Lint,
    /// The place, in bytes from the text's first.
    pub at: usize,
    /// The index of what it is about: of the rule, of a pair's other rule or of the spare comparison among the judgements, or of the name in
    /// a comment; of fields that overlap, the place of the earlier one's name; else 0.
    pub about: usize,
}

/// The warnings about a rule text.
#[derive(Drop)]
pub struct Warnings {
    /// Those that no comment keeps quiet, in their order.
    pub messages: Vec<Message>,
    /// The number of pairs of rules of which it is not known whether they are related, since the allowed steps did not suffice.
    pub unsettled_pairs: usize,
    /// The number of comparisons of which it is not known, for this reason, whether their rules can do without them.
    pub unsettled_comparisons: usize,
}

impl Warnings {
    /// The parts of the text's rules that were not looked at to the end; `None` if there are none.
    fn undecided_parts(&self, alloc: Global) -> Result<Option<String>, AllocError> {
        let pairs = Many(self.unsettled_pairs, "pair");
        let comparisons = Many(self.unsettled_comparisons, "comparison");
        match (self.unsettled_pairs, self.unsettled_comparisons) {
            (0, 0) => Ok(None),
            (_, 0) => Ok(Some(format!(in alloc; "{pairs} of rules")?)),
            (0, _) => Ok(Some(format!(in alloc; "{comparisons}")?)),
            _ => Ok(Some(format!(in alloc; "{pairs} of rules and {comparisons}")?)),
        }
    }

    /// The line about what was not looked at to the end; `None` if there is nothing.
    pub fn undecided_line(&self, alloc: Global) -> Result<Option<String>, AllocError> {
        let Some(parts) = self.undecided_parts(alloc)? else {
            return Ok(None);
        };
        let count = self
            .unsettled_pairs
            .saturating_add(self.unsettled_comparisons);
        let verb = if count == 1 { "was" } else { "were" };
        Ok(Some(format!(in alloc; "{parts} {verb} not looked at to the end")?))
    }
}
