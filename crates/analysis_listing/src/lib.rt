//! The analysis of a rule text before any packet comes, as lines for a flight team in the words of the rule language.
#![tactic(auto)]

mod error;
mod fields;
mod lines;
mod listing;
mod marking;
mod said;
mod schedule;
mod tables;

pub use error::ListingError;
pub use fields::{FieldNames, compares};
pub use lines::{FieldName, NameSource, ShownTerm, Values};
pub use listing::{LineChoice, goes_both_ways, list_outcomes, terms_in, why, write_outcome_of};
pub use marking::list_actionpoints;
pub use said::{RuleFindings, said_of};
pub use schedule::unsampled_rules;
pub use tables::{condition_at, terms_of};
