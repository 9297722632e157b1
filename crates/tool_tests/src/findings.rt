//! Why it is not known of a rule whether it fails or passes. No rule of a text has so many comparisons that the steps are too few.

use crate::claims::same;
use analysis_listing::{RuleFindings, said_of};
use rule_analysis::{Finding, RuleJudgement, UnknownReason};
use std::process::Abort;

/// The reasons why it is not known whether a rule fails, and whether it passes, as they are said.
fn reasons_said(judged: &RuleJudgement) -> (Option<UnknownReason>, Option<UnknownReason>) {
    match said_of(judged) {
        RuleFindings::FailsUnknown(reason) => (Some(reason), None),
        RuleFindings::PassesUnknown(reason) => (None, Some(reason)),
        _ => (None, None),
    }
}

#[test]
fn each_reason_is_said(rt: HostRuntime) {
    for reason in [UnknownReason::Overlap, UnknownReason::Steps] {
        let judged = RuleJudgement {
            fails: Finding::Unknown(reason),
            passes: Finding::Possible(Vec::new(rt.alloc())),
            comparisons: Vec::new(rt.alloc()),
        };
        same(&rt, "fails", reasons_said(&judged), (Some(reason), None));
        let judged = RuleJudgement {
            fails: Finding::Possible(Vec::new(rt.alloc())),
            passes: Finding::Unknown(reason),
            comparisons: Vec::new(rt.alloc()),
        };
        same(&rt, "passes", reasons_said(&judged), (None, Some(reason)));
    }
}
