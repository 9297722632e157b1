//! How often two texts request a sequence, whatever stream comes.

ghost use Rattle.std.specs.Prelude.{◌≡◌, ◌<◌, ℕ, List, IfOk, IsTrue, OnOk, Some, slice_get};
ghost use Rattle.std.specs.List.{AllByRecursion, AllZip};
ghost use Rattle.lc_model.specs.Condition.{Condition as Tree};
ghost use Rattle.lc_model.specs.Rule.{Actionpoint, NamedRule, rules_of};
ghost use Rattle.rule_changes.specs.ConditionChanges.{IsConditionChange};
ghost use Rattle.rule_changes.specs.RuleChanges.{ArePartsOf, IsChangeOf, IsValueChange};
ghost use Rattle.rule_changes.specs.Sequences.{AreNoneOf, BothFit, ConditionsFit, CountsFit, IsFitAt, IsNoneOf, IsRequested, IsSequenceChange, RulesFit, is_sequence};

use crate::condition_change::ConditionChange;
use crate::rule_change::{ChangedParts, RuleChange};
use lc_model::{Rule, Rules};
use std::alloc::{AllocError, Global};

/// How often the new text requests a sequence, over any stream without table files of the two texts.
#[derive(Clone, Copy, Debug, PartialEq, Eq)]
pub enum SequenceChange {
    /// As often as the old text, at each record.
    Same,
    /// No more often than the old text, up to each record, unless a command makes the Limit Checker passive.
    NoMoreOften,
    /// No less often than the old text, up to each record, unless a command makes the Limit Checker passive.
    NoLessOften,
    /// It isn't known.
    Unknown,
}

/// Whether the change of the failures that a rule counts fits this.
fn counts_fit(claim: SequenceChange, fails: Option<(u16, u16)>) -> bool
    ensures { (old new : ℕ) → IsValueChange old new fails → IsTrue result → CountsFit claim old new }
{
    match fails {
        None => true,
        Some((old, new)) => match claim {
            SequenceChange::NoMoreOften => old <= new,
            SequenceChange::NoLessOften => new <= old,
            SequenceChange::Same | SequenceChange::Unknown => false,
        },
    }
}

/// Whether the change of a rule's condition fits this.
fn condition_fits(claim: SequenceChange, condition: &ConditionChange) -> bool
    ensures { (old new : Tree) → IsConditionChange old new condition.now → IsTrue result →
        ConditionsFit claim old new }
{
    match condition {
        ConditionChange::Same
        | ConditionChange::SameButForStaleAndError
        | ConditionChange::FailsAlike => true,
        ConditionChange::FailsOnlyWhere(_) => matches!(claim, SequenceChange::NoMoreOften),
        ConditionChange::FailsWherever(_) => matches!(claim, SequenceChange::NoLessOften),
        ConditionChange::Differs { .. } | ConditionChange::NotKnown { .. } => false,
    }
}

/// Whether state and sequence are as they were.
fn are_kept(parts: &ChangedParts) -> bool
    ensures { (old new : Actionpoint) → ArePartsOf old new parts.now → IsTrue result →
        (old.mode ≡ new.mode) × (old.sequence ≡ new.sequence) }
{
    match (parts.mode, parts.sequence) {
        (None, None) => true,
        (Some(_), _) | (None, Some(_)) => false,
    }
}

/// Whether a rule with these changes fits this.
fn kept_fits(claim: SequenceChange, parts: &ChangedParts, condition: &ConditionChange) -> bool
    ensures { (old new : Actionpoint) → ArePartsOf old new parts.now →
        IsConditionChange old.condition new.condition condition.now → IsTrue result →
        RulesFit claim old new }
{
    if !are_kept(parts) {
        return false;
    }
    if !counts_fit(claim, parts.fails) {
        return false;
    }
    condition_fits(claim, condition)
}

/// Whether the change is that of one rule with this number in both texts, and fits this.
fn rule_fits(claim: SequenceChange, change: &RuleChange, number: usize) -> bool
    ensures { (olds : List NamedRule) (rule : NamedRule) → IsChangeOf olds rule change.now →
        IsTrue result → BothFit claim (slice_get olds number) (Some rule) }
{
    match change {
        RuleChange::Kept {
            old,
            parts,
            condition,
        } => *old == number && kept_fits(claim, parts, condition),
        RuleChange::Renamed { old } => *old == number,
        RuleChange::New => false,
    }
}

/// Whether both rules with this number are one, of which the change fits this.
fn change_fits(claim: SequenceChange, changes: &[RuleChange], number: usize) -> bool
    ensures { (olds news : List NamedRule) → AllZip (IsChangeOf olds) news changes.now →
        IsTrue result → BothFit claim (slice_get olds number) (slice_get news number) }
{
    match changes.get(number) {
        Some(change) => rule_fits(claim, change, number),
        None => false,
    }
}

/// Whether there is no rule with this number, or one that requests another sequence.
fn is_other_at(rules: &[Rule], number: usize, sequence: u16) -> bool
    ensures { IsTrue result →
        IsNoneOf (is_sequence sequence) (slice_get (rules_of rules.now) number) }
{
    match rules.get(number) {
        Some(rule) => rule.sequence != sequence,
        None => true,
    }
}

/// Whether none of the rules with this number requests the sequence, as far as that matters.
fn are_others(
    claim: SequenceChange,
    old: &[Rule],
    new: &[Rule],
    number: usize,
    sequence: u16,
) -> bool
    ensures { IsTrue result → AreNoneOf claim (is_sequence sequence)
        (slice_get (rules_of old.now) number) (slice_get (rules_of new.now) number) }
{
    match claim {
        SequenceChange::Same => is_other_at(old, number, sequence)
            && is_other_at(new, number, sequence),
        SequenceChange::NoMoreOften => is_other_at(new, number, sequence),
        SequenceChange::NoLessOften => is_other_at(old, number, sequence),
        SequenceChange::Unknown => true,
    }
}

/// Whether the rules with this number fit this.
fn fit_at(
    claim: SequenceChange,
    old: &[Rule],
    new: &[Rule],
    changes: &[RuleChange],
    number: usize,
    sequence: u16,
) -> bool
    requires { AllZip (IsChangeOf (rules_of old.now)) (rules_of new.now) changes.now }
    ensures { IsTrue result → IsFitAt claim (is_sequence sequence)
        (slice_get (rules_of old.now) number) (slice_get (rules_of new.now) number) }
{
    change_fits(claim, changes, number) || are_others(claim, old, new, number, sequence)
}

/// Whether all rules fit this.
fn fits(
    claim: SequenceChange,
    old: &[Rule],
    new: &[Rule],
    changes: &[RuleChange],
    sequence: u16,
) -> bool
    requires { AllZip (IsChangeOf (rules_of old.now)) (rules_of new.now) changes.now }
    ensures { IsTrue result →
        IsSequenceChange (rules_of old.now) (rules_of new.now) sequence claim }
{
    for number in 0..old.len().max(new.len()) {
        if !fit_at(claim, old, new, changes, number, sequence) {
            return false;
        }
    }
    true
}

/// How often the new text requests this sequence, by what changed from the old text.
fn sequence_change(
    old: &Rules,
    new: &Rules,
    changes: &[RuleChange],
    sequence: u16,
) -> SequenceChange
    requires { AllZip (IsChangeOf old.now) new.now changes.now }
    ensures { IsSequenceChange old.now new.now sequence result }
{
    let (old, new) = (old.as_slice(), new.as_slice());
    if fits(SequenceChange::Same, old, new, changes, sequence) {
        SequenceChange::Same
    } else if fits(SequenceChange::NoMoreOften, old, new, changes, sequence) {
        SequenceChange::NoMoreOften
    } else if fits(SequenceChange::NoLessOften, old, new, changes, sequence) {
        SequenceChange::NoLessOften
    } else {
        SequenceChange::Unknown
    }
}

/// A sequence that a rule of one of the texts requests, and how often the new text requests it.
#[derive(Clone, Copy, Debug, PartialEq, Eq)]
pub struct RequestedSequence {
    /// The number of the sequence.
    pub sequence: u16,
    /// How often the new text requests it.
    pub change: SequenceChange,
}

/// Adds this sequence, if it isn't there.
fn add_sequence(
    old: &Rules,
    new: &Rules,
    changes: &[RuleChange],
    sequence: u16,
    found: &mut Vec<RequestedSequence>,
) -> Result<(), AllocError>
    requires { AllZip (IsChangeOf old.now) new.now changes.now }
    ensures { AllByRecursion (IsRequested old.now new.now) found.old.items →
        OnOk result (AllByRecursion (IsRequested old.now new.now) found.new.items) }
{
    if !found.iter().any(|other| other.sequence == sequence) {
        found.push(RequestedSequence {
            sequence,
            change: sequence_change(old, new, changes, sequence),
        })?;
    }
    Ok(())
}

/// The sequences that rules of the texts request, in the order of their first rule in the old text, then in the new one.
pub(crate) fn sequences_of(
    alloc: Global,
    old: &Rules,
    new: &Rules,
    changes: &[RuleChange],
) -> Result<Vec<RequestedSequence>, AllocError>
    requires { AllZip (IsChangeOf old.now) new.now changes.now }
    ensures { IfOk result
        (λ found. AllByRecursion (IsRequested old.now new.now) found.items) }
{
    let mut found = Vec::new(alloc);
    for rule in old.as_slice() {
        add_sequence(old, new, changes, rule.sequence, &mut found)?;
    }
    for rule in new.as_slice() {
        add_sequence(old, new, changes, rule.sequence, &mut found)?;
    }
    Ok(found)
}
