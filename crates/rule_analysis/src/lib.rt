//! Judges rules before any packet comes: whether they can fail and pass, and how they are related.
#![tactic(auto)]

mod alike;
mod bits;
mod boundary;
mod chance;
mod classes;
mod conditions;
mod counting;
mod deciding;
mod fields;
mod finding;
mod judging;
pub mod laws;
mod numbers;
mod open;
mod outcomes;
mod packets;
mod pairs;
mod reach;
mod samples;
mod seen;
mod spare;
mod thresholds;
mod walk;

pub use bits::bits_read;
pub use conditions::but_not;
pub use deciding::{Decision, decide};
pub use fields::{Field, field_of};
pub use finding::{
    ComparisonJudgement, Constancy, Finding, Judgement, PairJudgement, PairJudgements, Relation,
    RuleJudgement, SpareComparison, SpareJudgements, UnknownReason,
};
pub use judging::{RULE_STEPS, can_be_true, comparisons_of, judge, judge_condition};
pub use packets::lay_out;
pub use pairs::{TEXT_STEPS, judge_pairs};
pub use reach::never_sampled;
pub use seen::{are_telemetry, last_of, value_in, value_with};
pub use spare::spare_comparisons;
