//! Compares two rule texts: what the changed one does that the old one does not, for every stream.
#![tactic(auto)]

mod comparisons;
mod condition_change;
mod forms;
mod known;
pub mod laws;
mod matching;
mod rewording;
mod rule_change;
mod seeking;
mod sequences;
mod settling;
mod situation;
mod ties;

pub use condition_change::{Chance, ConditionChange, Unsettled};
pub use forms::same_by_form;
pub use matching::changes;
pub use rewording::say_the_same;
pub use rule_change::{ChangedParts, Changes, RuleChange};
pub use sequences::{RequestedSequence, SequenceChange};
pub use settling::judge_change;
pub use situation::Situation;
