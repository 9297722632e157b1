//! What changed from one rule text to another, rule by rule.

ghost use Rattle.std.specs.Prelude.{◌≡◌, ◌<◌, ℕ, Contains, IfOk, IfSome, IsFalse, IsTrue, None, OnOk, length};
ghost use Rattle.std.specs.List.{AllByRecursion, AllZip, list_any};
ghost use Rattle.lc_model.specs.Condition.{condition_of};
ghost use Rattle.lc_model.specs.Rule.{rule_of, rules_of};
ghost use Rattle.lc_model.specs.Tables.HalvesAndBytes.{Text};
ghost use Rattle.lc_model.specs.Laws.Reworded.{SaysTheSame};
ghost use Rattle.rule_changes.specs.RuleChanges.{AreGone, ArePartsOf, FailAlike, IsChangeOf, IsFormer, IsGone, IsNumberOf, IsRenamed, IsValueChange, has_name, is_of};
ghost use Rattle.rule_changes.specs.Sequences.{IsRequested};

use crate::condition_change::ConditionChange;
use crate::rewording::{have_same_parts, say_the_same};
use crate::rule_change::{ChangedParts, Changes, RuleChange};
use crate::sequences::sequences_of;
use crate::settling::{CALL_STEPS, settle};
use lc_model::{Cond, Rule, Rules};
use std::alloc::{AllocError, Global};

/// Whether the rule has this name.
fn has_name(rule: &Rule, name: &[u8]) -> bool
    ensures { result ≡ has_name name.now (rule_of rule.now) }
{
    rule.name.as_slice() == name
}

/// Whether one of the rules has this name.
fn is_named(rules: &[Rule], name: &[u8]) -> bool
    ensures { result ≡ list_any (has_name name.now) (rules_of rules.now) }
{
    for rule in rules {
        if has_name(rule, name) {
            return true;
        }
    }
    false
}

/// The number of the first rule with this name.
fn number_of(rules: &[Rule], name: &[u8]) -> Option<usize>
    ensures some { IfSome result (λ number. IsNumberOf (rules_of rules.now) name.now number) }
    ensures none { result ≡ None → IsFalse (list_any (has_name name.now) (rules_of rules.now)) }
{
    for number in 0..rules.len() {
        if has_name(&rules[number], name) {
            return Some(number);
        }
    }
    None
}

/// The old and the new number, if they differ.
fn number_change(old: u16, new: u16) -> Option<(u16, u16)>
    ensures { IsValueChange old new result }
{
    if old == new { None } else { Some((old, new)) }
}

/// The parts that changed from one rule to another, apart from the condition.
fn parts_of(old: &Rule, new: &Rule) -> ChangedParts
    ensures { ArePartsOf (rule_of old.now).action (rule_of new.now).action result }
{
    ChangedParts {
        mode: if old.mode.code() == new.mode.code() {
            None
        } else {
            Some((old.mode, new.mode))
        },
        fails: number_change(old.fails, new.fails),
        sequence: number_change(old.sequence, new.sequence),
        event_kind: if old.event_kind.code() == new.event_kind.code() {
            None
        } else {
            Some((old.event_kind, new.event_kind))
        },
        event_id: number_change(old.event_id, new.event_id),
        is_text: old.text.as_slice() != new.text.as_slice(),
        report: if old.report == new.report {
            None
        } else {
            Some((old.report, new.report))
        },
    }
}

/// Whether the change is about the old rule with this number.
fn is_of(change: &RuleChange, number: usize) -> bool
    ensures { result ≡ is_of number change.now }
{
    match change {
        RuleChange::Kept { old, .. } | RuleChange::Renamed { old } => *old == number,
        RuleChange::New => false,
    }
}

/// Whether one of the changes is about the old rule with this number.
fn is_listed(changes: &[RuleChange], number: usize) -> bool
    ensures { result ≡ list_any (is_of number) changes.now }
{
    for change in changes {
        if is_of(change, number) {
            return true;
        }
    }
    false
}

/// Whether none of the changes is about the old rule with this number, and no new rule has its name.
fn is_gone(old: &[Rule], new: &[Rule], changes: &[RuleChange], number: usize) -> bool
    requires { number < length old.now }
    ensures only { IsTrue result →
        IsGone (rules_of old.now) (rules_of new.now) changes.now number }
    ensures all { IsGone (rules_of old.now) (rules_of new.now) changes.now number →
        IsTrue result }
{
    let former = &old[number];
    if is_listed(changes, number) {
        return false;
    }
    !is_named(new, former.name.as_slice())
}

/// Whether it is known that the conditions are true after the same histories.
fn fail_alike(alloc: Global, old: &Cond, new: &Cond, steps: &mut u32) -> Result<bool, AllocError>
    ensures { IfOk result (λ alike. IsTrue alike →
        FailAlike (condition_of old.now) (condition_of new.now)) }
{
    match settle(alloc, old, new, steps)? {
        ConditionChange::Same
        | ConditionChange::SameButForStaleAndError
        | ConditionChange::FailsAlike => Ok(true),
        _ => Ok(false),
    }
}

/// Whether the new rule is known to be the old one, with any name.
fn is_renamed(alloc: Global, old: &Rule, new: &Rule, steps: &mut u32) -> Result<bool, AllocError>
    ensures { IfOk result (λ renamed. IsTrue renamed →
        IsRenamed (rule_of old.now).action (rule_of new.now).action) }
{
    if !have_same_parts(old, new) {
        return Ok(false);
    }
    fail_alike(alloc, &old.cond, &new.cond, steps)
}

/// The number of the first old rule of which this new one is known to be a renamed one. It is in none of the changes, and no new rule
/// has its name.
fn former_of(
    alloc: Global,
    old: &[Rule],
    new: &[Rule],
    rule: &Rule,
    changes: &[RuleChange],
    steps: &mut u32,
) -> Result<Option<usize>, AllocError>
    ensures { IfOk result (λ found. IfSome found (IsFormer (rules_of old.now) (rule_of rule.now))) }
{
    for number in 0..old.len() {
        if is_gone(old, new, changes, number) && is_renamed(alloc, &old[number], rule, steps)? {
            return Ok(Some(number));
        }
    }
    Ok(None)
}

/// How the new rule came about, which has the name of the old rule with this number.
fn kept_rule(
    alloc: Global,
    old: &[Rule],
    number: usize,
    rule: &Rule,
    steps: &mut u32,
) -> Result<RuleChange, AllocError>
    requires { IsNumberOf (rules_of old.now) rule.now.name number }
    ensures { IfOk result (IsChangeOf (rules_of old.now) (rule_of rule.now)) }
{
    let former = &old[number];
    Ok(RuleChange::Kept {
        old: number,
        parts: parts_of(former, rule),
        condition: settle(alloc, &former.cond, &rule.cond, steps)?,
    })
}

/// How this new rule came about. The changes are those of the rules before it.
fn change_of(
    alloc: Global,
    old: &[Rule],
    new: &[Rule],
    rule: &Rule,
    changes: &[RuleChange],
    steps: &mut u32,
) -> Result<RuleChange, AllocError>
    ensures { IfOk result (IsChangeOf (rules_of old.now) (rule_of rule.now)) }
{
    if let Some(number) = number_of(old, rule.name.as_slice()) {
        return kept_rule(alloc, old, number, rule, steps);
    }
    match former_of(alloc, old, new, rule, changes, steps)? {
        Some(former) => Ok(RuleChange::Renamed { old: former }),
        None => Ok(RuleChange::New),
    }
}

/// How each new rule came about.
fn changes_of(alloc: Global, old: &[Rule], new: &[Rule]) -> Result<Vec<RuleChange>, AllocError>
    ensures { IfOk result (λ changes.
        AllZip (IsChangeOf (rules_of old.now)) (rules_of new.now) changes.items) }
{
    let mut steps = CALL_STEPS;
    let mut changes = Vec::new(alloc);
    for rule in new {
        let change = change_of(alloc, old, new, rule, &changes, &mut steps)?;
        changes.push(change)?;
    }
    Ok(changes)
}

/// Appends the number of this old rule, if it is gone.
fn push_gone(
    old: &[Rule],
    new: &[Rule],
    changes: &[RuleChange],
    number: usize,
    numbers: &mut Vec<usize>,
) -> Result<(), AllocError>
    requires { number < length old.now }
    ensures each { OnOk result (
        AllByRecursion (IsGone (rules_of old.now) (rules_of new.now) changes.now) numbers.old.items
        → AllByRecursion (IsGone (rules_of old.now) (rules_of new.now) changes.now)
        numbers.new.items) }
    ensures own { OnOk result (IsGone (rules_of old.now) (rules_of new.now) changes.now number →
        Contains numbers.new.items number) }
    ensures others { OnOk result ((n : ℕ) → Contains numbers.old.items n →
        Contains numbers.new.items n) }
{
    if is_gone(old, new, changes, number) {
        numbers.push(number)?;
    }
    Ok(())
}

/// The numbers of the old rules that are gone.
fn gone_numbers(
    alloc: Global,
    old: &[Rule],
    new: &[Rule],
    changes: &[RuleChange],
) -> Result<Vec<usize>, AllocError>
    ensures { IfOk result (λ gone.
        AreGone (rules_of old.now) (rules_of new.now) changes.now gone.items) }
{
    let mut numbers = Vec::new(alloc);
    for number in 0..old.len() {
        push_gone(old, new, changes, number, &mut numbers)?;
    }
    Ok(numbers)
}

/// What changed from the old rules to the new ones, how often sequences are requested, and whether the texts are known to say the same.
/// The questions about all rules share 2^21 steps; one with at most twelve different comparisons and known-comparisons is always decided.
/// The only error is a lack of memory.
pub fn changes(alloc: Global, old: &Rules, new: &Rules) -> Result<Changes, AllocError>
    ensures rules { IfOk result (λ found.
        AllZip (IsChangeOf old.now) new.now found.rules.items) }
    ensures gone { IfOk result (λ found.
        AreGone old.now new.now found.rules.items found.gone.items) }
    ensures sequences { IfOk result (λ found.
        AllByRecursion (IsRequested old.now new.now) found.sequences.items) }
    ensures same { IfOk result (λ found. IsTrue found.is_same → (a b : Text) →
        a.rules ≡ old.now → b.rules ≡ new.now → SaysTheSame a b) }
    ensures itself { IfOk result (λ found. old.now ≡ new.now → IsTrue found.is_same) }
{
    let is_same = say_the_same(alloc, old, new)?;
    let rules = changes_of(alloc, old.as_slice(), new.as_slice())?;
    let gone = gone_numbers(alloc, old.as_slice(), new.as_slice(), &rules)?;
    let sequences = sequences_of(alloc, old, new, &rules)?;
    Ok(Changes {
        rules,
        gone,
        sequences,
        is_same,
    })
}
