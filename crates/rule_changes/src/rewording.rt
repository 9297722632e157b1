//! Texts that say the same in other words.

ghost use Rattle.std.specs.Prelude.{◌≡◌, ◌==◌, ◌+◌, ◌&&◌, nat_le, IsTrue, IfOk, OnOk, ◌++◌, flat_map, List};
ghost use Rattle.std.specs.List.{AllByRecursion, AllZip, list_any};
ghost use Rattle.lc_model.specs.Condition.{condition_of};
ghost use Rattle.lc_model.specs.Field.{width};
ghost use Rattle.lc_model.specs.Rule.{actions, rule_of, rules_of};
ghost use Rattle.lc_model.specs.Tables.HalvesAndBytes.{Text};
ghost use Rattle.lc_model.specs.Laws.Reworded.{SaysTheSame};
ghost use Rattle.lc_model.specs.Laws.Tables.{IsReworded};
ghost use Rattle.rule_changes.specs.RuleChanges.{reaches, mentions_of};

use crate::forms::same_by_form;
use lc_model::{Rule, Rules, Term};
use rule_analysis::comparisons_of;
use std::alloc::{AllocError, Global};

/// Whether the rules have the same parts apart from name and condition.
pub(crate) fn have_same_parts(old: &Rule, new: &Rule) -> bool
    ensures parts { IsTrue result → (rule_of new.now).action ≡
        record (rule_of old.now).action { condition = condition_of new.now.cond } }
    ensures itself { rule_of old.now ≡ rule_of new.now → IsTrue result }
{
    old.mode.code() == new.mode.code()
        && old.fails == new.fails
        && old.sequence == new.sequence
        && old.event_kind.code() == new.event_kind.code()
        && old.event_id == new.event_id
        && old.text.as_slice() == new.text.as_slice()
        && old.report == new.report
}

/// Whether the rules have the same parts, and conditions that have the same truth by their form.
fn is_reworded(old: &Rule, new: &Rule) -> bool
    ensures reworded { IsTrue result →
        IsReworded (rule_of old.now).action (rule_of new.now).action }
    ensures itself { rule_of old.now ≡ rule_of new.now → IsTrue result }
{
    have_same_parts(old, new) && same_by_form(&old.cond, &new.cond)
}

/// The same of rules in their order.
fn are_reworded(old: &[Rule], new: &[Rule]) -> bool
    ensures reworded { IsTrue result → AllZip IsReworded
        (actions (rules_of old.now)) (actions (rules_of new.now)) }
    ensures itself { rules_of old.now ≡ rules_of new.now → IsTrue result }
{
    if old.len() != new.len() {
        return false;
    }
    for i in 0..old.len() {
        if !is_reworded(&old[i], &new[i]) {
            return false;
        }
    }
    true
}

/// The comparisons of rules, in the order of the text.
fn mentions_of(alloc: Global, rules: &[Rule]) -> Result<Vec<Term>, AllocError>
    ensures { IfOk result (λ terms. terms.items ≡ mentions_of (rules_of rules.now)) }
{
    let mut terms = Vec::new(alloc);
    for rule in rules {
        terms.extend_from_slice(&comparisons_of(alloc, &rule.cond)?)?;
    }
    Ok(terms)
}

/// Whether the other term reads the same packets, and its field ends no sooner.
fn reaches(term: &Term, other: &Term) -> bool
    ensures { result ≡ reaches term.now other.now }
{
    other.mid == term.mid
        && term.offset as usize + term.kind.width() <= other.offset as usize + other.kind.width()
}

/// Whether some of the terms reaches as far as this one.
fn is_reached(term: &Term, terms: &[Term]) -> bool
    ensures { result ≡ list_any (reaches term.now) terms.now }
{
    for other in terms {
        if reaches(term, other) {
            return true;
        }
    }
    false
}

/// Whether each packet that is too short for one of the terms is too short for one of the others.
fn are_reached(terms: &[Term], others: &[Term]) -> bool
    ensures only { IsTrue result →
        AllByRecursion (λ t. IsTrue (list_any (reaches t) others.now)) terms.now }
    ensures all { AllByRecursion (λ t. IsTrue (list_any (reaches t) others.now)) terms.now →
        IsTrue result }
{
    for term in terms {
        if !is_reached(term, others) {
            return false;
        }
    }
    true
}

/// Whether the texts have the same rules in the same order, up to names and to the form of conditions, and the same packets are too
/// short for a field of one as for a field of the other. Then each run writes the same bytes with either, if its other texts are none of
/// them, and no raw table file of its stream has the hash of either. The only error is a lack of memory.
pub fn say_the_same(alloc: Global, old: &Rules, new: &Rules) -> Result<bool, AllocError>
    ensures same { IfOk result (λ same. IsTrue same → (a b : Text) →
        a.rules ≡ old.now → b.rules ≡ new.now → SaysTheSame a b) }
    ensures itself { IfOk result (λ same. old.now ≡ new.now → IsTrue same) }
{
    let (old, new) = (old.as_slice(), new.as_slice());
    if !are_reworded(old, new) {
        return Ok(false);
    }
    let terms = mentions_of(alloc, old)?;
    let others = mentions_of(alloc, new)?;
    let (terms, others) = (terms.as_slice(), others.as_slice());
    if !are_reached(terms, others) {
        return Ok(false);
    }
    Ok(are_reached(others, terms))
}
