//! The results of a comparison of two rule texts.

use crate::condition_change::ConditionChange;
use crate::sequences::RequestedSequence;
use lc_model::{ApMode, EventKind, ReportMaxima};

/// The parts of a rule that changed, apart from its condition: old and new value of each.
#[derive(Clone, Copy, Debug, PartialEq, Eq)]
pub struct ChangedParts {
    /// The state that the rule begins in.
    pub mode: Option<(ApMode, ApMode)>,
    /// The failures in a row that lead to the sequence request.
    pub fails: Option<(u16, u16)>,
    /// The number of the requested sequence.
    pub sequence: Option<(u16, u16)>,
    /// The type of the event at the sequence request.
    pub event_kind: Option<(EventKind, EventKind)>,
    /// The id of that event.
    pub event_id: Option<(u16, u16)>,
    /// Whether the text of that event changed.
    pub is_text: bool,
    /// The most other events of the rule.
    pub report: Option<(ReportMaxima, ReportMaxima)>,
}

/// How a rule of the new text came about. Rules are numbered from 0.
#[derive(Debug, Drop)]
pub enum RuleChange {
    /// The old text has a rule with this name.
    Kept {
        /// Its number in the old text.
        old: usize,
        /// The parts that changed, apart from the condition.
        parts: ChangedParts,
        /// How the conditions are related.
        condition: ConditionChange,
    },
    /// It is a rule of the old text with another name: it has the same parts, and a condition that is true after the same histories.
    Renamed {
        /// Its number in the old text.
        old: usize,
    },
    /// The old text has no such rule.
    New,
}

/// What changed from one rule text to another.
#[derive(Debug, Drop)]
pub struct Changes {
    /// How each rule of the new text came about, in their order.
    pub rules: Vec<RuleChange>,
    /// The numbers of the old rules that are gone: none of the new ones has their name, or is one of them renamed.
    pub gone: Vec<usize>,
    /// The sequences that rules of either text request.
    pub sequences: Vec<RequestedSequence>,
    /// Whether the texts are known to say the same (`say_the_same`).
    pub is_same: bool,
}
