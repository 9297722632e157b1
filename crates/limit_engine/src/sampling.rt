//! A sample of rules, in order: each result is counted, and its requests and events are listed (cFS Limit Checker user's guide,
//! actionpoint evaluation).

ghost use Rattle.std.specs.Prelude.{◌≡◌, ◌+◌, ◌*◌, ◌≤◌, ℕ, List, [], ◌++◌, ◌<◌, length, map, slice_get, Some, vec_len, vec_capacity};
ghost use Rattle.lc_model.specs.declared.field.Term.{Term};
ghost use Rattle.lc_model.specs.Rule.{Actionpoint};
ghost use Rattle.lc_model.specs.Kept.Effort.{sampled_words};
ghost use Rattle.lc_model.specs.Kept.Next.{by_counts};
ghost use Rattle.lc_model.specs.LimitChecker.Steps.{sampled_point, sampled_points};
ghost use Rattle.lc_model.specs.Tables.Image.{words_in, WideActionpoints};
ghost use Rattle.lc_model.specs.Kept.Summary.{WatchResult as ResultIn};
ghost use Rattle.limit_engine.specs.Entry.{HasTruth, rule_in};
ghost use Rattle.limit_engine.specs.Reactions.{requests_in, requests_of, AreInOrder};
ghost use Rattle.limit_engine.specs.Tables.{AreFound};

use crate::actionpoint::{Point, RuleEntry, result_of_truth};
use crate::plan::Plan;
use crate::reaction::{Asked, Reactions};
use lc_model::{LcMode, SampleRequest, TABLE_ENTRIES, Truth};

/// Adds a rule's reactions to the list, if it has any.
fn note(asked: &mut Vec<Asked>, rule: u16, reactions: Reactions)
    requires { vec_len asked.old < vec_capacity asked.old }
    ensures requests { (rules : List Actionpoint) (this : Actionpoint) →
        slice_get rules rule ≡ Some this
        → requests_in rules asked.new.items ≡ requests_in rules asked.old.items ++ requests_of this
        rule reactions }
    ensures order { AreInOrder 0 rule asked.old.items → AreInOrder 0 (rule + 1) asked.new.items }
    ensures len { vec_len asked.new ≤ vec_len asked.old + 1 }
    ensures capacity { vec_capacity asked.new ≡ vec_capacity asked.old }
{
    match (reactions.turn, reactions.failure) {
        (None, None) => {}
        _ => asked.push_reserved(Asked { rule, reactions }),
    }
}

/// Samples the rule with this number, whose condition has this truth, and adds its reactions to the list, if it has any.
fn sample_rule(
    entry: &RuleEntry,
    truth: Truth,
    mode: LcMode,
    rule: u16,
    point: &mut Point,
    asked: &mut Vec<Asked>,
)
    requires { vec_len asked.old < vec_capacity asked.old }
    ensures point { (terms : List Term) (words : List ℕ) (watch : List ResultIn) →
        HasTruth terms words watch entry.now truth
        → point.new ≡ (sampled_point by_counts terms mode watch rule
        (rule_in terms words entry.now) point.old).0 }
    ensures requests { (terms : List Term) (words : List ℕ) (watch : List ResultIn) (rules : List Actionpoint) →
        HasTruth terms words watch entry.now truth
        → slice_get rules rule ≡ Some (rule_in terms words entry.now)
        → requests_in rules asked.new.items ≡ requests_in rules asked.old.items
        ++ (sampled_point by_counts terms mode watch rule (rule_in terms words entry.now)
        point.old).1 }
    ensures order { AreInOrder 0 rule asked.old.items → AreInOrder 0 (rule + 1) asked.new.items }
    ensures len { vec_len asked.new ≤ vec_len asked.old + 1 }
    ensures capacity { vec_capacity asked.new ≡ vec_capacity asked.old }
{
    let outcome = result_of_truth(truth);
    if point.store_quiet(entry, outcome) {
        return;
    }
    let reactions = point.react(entry, mode, outcome);
    note(asked, rule, reactions);
}

/// Samples the active and passive rules that the request takes, in order, by the truths of the evaluated plan. Returns the
/// number of words of their equations, EQUAL included.
pub(crate) fn sample_rules(
    request: &SampleRequest,
    mode: LcMode,
    entries: &[RuleEntry],
    plan: &Plan,
    points: &mut [Point],
    asked: &mut Vec<Asked>,
) -> usize
    requires tables { (terms : List Term) × (words : List ℕ) × (watch : List ResultIn) ×
        AreFound request.now terms watch entries.now points.old words plan.now }
    requires none { asked.old.items ≡ [] }
    requires room { TABLE_ENTRIES ≤ vec_capacity asked.old }
    ensures points { (terms : List Term) (words : List ℕ) (watch : List ResultIn) →
        AreFound request.now terms watch entries.now points.old words plan.now
        → points.new ≡ (sampled_points by_counts request.now terms mode watch 0
        (map (rule_in terms words) entries.now) points.old).0 }
    ensures requests { (terms : List Term) (words : List ℕ) (watch : List ResultIn) →
        AreFound request.now terms watch entries.now points.old words plan.now
        → requests_in (map (rule_in terms words) entries.now) asked.new.items
        ≡ (sampled_points by_counts request.now terms mode watch 0
        (map (rule_in terms words) entries.now) points.old).1 }
    ensures steps { (terms : List Term) (words : List ℕ) (watch : List ResultIn) →
        AreFound request.now terms watch entries.now points.old words plan.now
        → result ≡ sampled_words request.now 0 (map (rule_in terms words) entries.now)
        points.old }
    ensures few { result ≤ words_in WideActionpoints * length entries.now }
    ensures order { AreInOrder 0 (length entries.now) asked.new.items }
    ensures capacity { vec_capacity asked.new ≡ vec_capacity asked.old }
{
    let mut steps = 0;
    for (rule, entry) in entries.iter().enumerate() {
        if request.takes(rule) && points[rule].is_sampled() {
            steps += entry.end - entry.start + 1;
            let truth = plan.truth(rule);
            sample_rule(entry, truth, mode, rule as u16, &mut points[rule], asked);
        }
    }
    steps
}
