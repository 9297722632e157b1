//! The judgements of a text's rules.

ghost use Rattle.std.specs.Prelude.{◌≡◌, IfOk};
ghost use Rattle.rule_lints.specs.Warned.{IsJudged, unsampled};

use crate::groups::grouped;
use crate::judging::Judged;
use analysis_listing::unsampled_rules;
use lc_model::Rules;
use rule_analysis::{judge, judge_pairs, spare_comparisons};
use schedules::Schedule;
use std::alloc::{AllocError, Global};

/// The numbers of the rules that the schedule never samples; none without a schedule.
fn unsampled_numbers(
    alloc: Global,
    plan: Option<&Schedule>,
    rules: usize,
) -> Result<Vec<usize>, AllocError>
    ensures { IfOk result (λ numbers. numbers.items ≡ unsampled plan.entry rules) }
{
    match plan {
        Some(plan) => unsampled_rules(alloc, rules, plan),
        None => Ok(Vec::new(alloc)),
    }
}

/// Judges rules by themselves, in pairs and by a schedule. The only error is a lack of memory.
pub(crate) fn judge_all(
    alloc: Global,
    rules: &Rules,
    plan: Option<&Schedule>,
) -> Result<Judged, AllocError>
    ensures { IfOk result (IsJudged rules.now plan.entry) }
{
    let judgement = judge(alloc, rules)?;
    let pairs = judge_pairs(alloc, rules)?;
    let spare = spare_comparisons(alloc, rules)?;
    let unsampled = unsampled_numbers(alloc, plan, rules.as_slice().len())?;
    let groups = grouped(alloc, &judgement.rules, &pairs.related)?;
    Ok(Judged {
        rules: judgement.rules,
        pairs: pairs.related,
        unsettled_pairs: pairs.unsettled,
        groups,
        spare: spare.spare,
        unsettled_comparisons: spare.unsettled,
        unsampled,
    })
}
