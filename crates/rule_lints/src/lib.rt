//! The warnings about a valid rule text. Each has a place, and a name by which a comment keeps it quiet.
#![tactic(auto)]

mod comments;
mod declarations;
mod fields;
mod groups;
mod judged_rules;
mod judging;
pub mod laws;
mod lint;
mod sentences;
mod warned;
mod warning;

pub use warned::warnings;
pub use warning::Warnings;
