//! A walk over the fields of a condition, with a few candidate values for each.

ghost use Rattle.std.specs.Prelude.{◌≡◌, ◌≤◌, ◌<◌, ◌+◌, length, IfOk, IsFalse, IsTrue, OnOk};
ghost use Rattle.std.specs.List.{AllByRecursion};
ghost use Rattle.lc_model.specs.Condition.{condition_of};
ghost use Rattle.lc_model.specs.LimitChecker.Watch.{truth_by};
ghost use Rattle.rule_analysis.specs.declared.walk.Outcome.TheVariants.{Excluded, Spent};
ghost use Rattle.rule_analysis.specs.Fields.{field_number};
ghost use Rattle.rule_analysis.specs.Open.{left_of};
ghost use Rattle.rule_analysis.specs.Search.{AreReady, AreRepresented, Extends, IsDeadEnd, IsLeftWith, IsNever, IsWalked, found_so_far};
ghost use Rattle.rule_analysis.specs.Steps.{AreNotMany, IsWithin};

use crate::fields::{Field, number};
use crate::open::{Left, Open, are_same, is_contradiction, settle};
use crate::outcomes::outcome;
use lc_model::{Cond, Term, Truth};
use std::alloc::{AllocError, Global};

/// The result of a walk.
#[derive(Clone, Copy)]
pub(crate) enum Outcome {
    /// The chosen bits make the condition true.
    Found,
    /// No candidates make the condition true.
    Excluded,
    /// The walk needs more steps than are left.
    Spent,
}

/// What was left of a condition at some part of a walk, and no values make true.
#[derive(Drop)]
pub(crate) struct DeadEnd {
    /// The number of the first field without bits.
    field: usize,
    left: Open,
}

/// The most dead ends that are kept in mind.
const MOST_DEAD_ENDS: usize = 512;

/// The truth of a condition if the first fields have these bits and the others are stale.
pub(crate) fn evaluate(cond: &Cond, fields: &[Field], chosen: &[u32]) -> Truth
    ensures { result ≡
        truth_by (found_so_far (field_number fields.now) chosen.now) (condition_of cond.now) }
{
    match cond {
        Cond::Watch(term) => match chosen.get(number(fields, term)) {
            None => Truth::Stale,
            Some(bits) => outcome(term, *bits),
        },
        Cond::Not(operand) => evaluate(operand, fields, chosen).not(),
        Cond::And(operands) => {
            evaluate(&operands.0, fields, chosen).and(evaluate(&operands.1, fields, chosen))
        }
        Cond::Or(operands) => {
            evaluate(&operands.0, fields, chosen).or(evaluate(&operands.1, fields, chosen))
        }
        Cond::Xor(operands) => {
            evaluate(&operands.0, fields, chosen).xor(evaluate(&operands.1, fields, chosen))
        }
    }
}

/// Takes a step if there are two candidates or more; returns false if no step is left for it.
fn may_choose(numbers: usize, steps: &mut u32) -> bool
    ensures some { IsTrue result → 1 ≤ numbers → steps.old < steps.new + numbers }
    ensures none { IsTrue result → numbers ≡ 0 → steps.new ≡ steps.old }
    ensures spent { IsFalse result → (steps.new ≡ 0) × (steps.old ≡ 0) }
{
    if numbers <= 1 {
        return true;
    }
    if *steps == 0 {
        return false;
    }
    *steps -= 1;
    true
}

/// Whether what is left is known to be true for no values, since it contradicts itself or was left before.
fn leads_nowhere(dead: &[DeadEnd], field: usize, left: &Open, fields: &[Field]) -> bool
    requires { AllByRecursion (IsDeadEnd (field_number fields.now)) dead.now }
    ensures { IsTrue result → IsNever (field_number fields.now) (left_of left.now) }
{
    if is_contradiction(left) {
        return true;
    }
    for end in dead {
        if end.field == field && are_same(&end.left, left) {
            return true;
        }
    }
    false
}

/// Keeps in mind that no values make true what is left, unless there is no more room for it.
fn keep_in_mind(
    dead: &mut Vec<DeadEnd>,
    field: usize,
    left: Open,
    fields: &[Field],
) -> Result<(), AllocError>
    requires never { IsNever (field_number fields.now) (left_of left) }
    requires ends { AllByRecursion (IsDeadEnd (field_number fields.now)) dead.old.items }
    ensures { OnOk result (AllByRecursion (IsDeadEnd (field_number fields.now)) dead.new.items) }
{
    if dead.len() < MOST_DEAD_ENDS {
        dead.push(DeadEnd { field, left })?;
    }
    Ok(())
}

/// States that a field is left without bits.
fn a_field_is_left(
    fields: &[Field],
    terms: &[Term],
    candidates: &[Vec<u32>],
    left: &Open,
    chosen: &[u32],
)
    requires { AreReady (field_number fields.now) terms.now
        (length chosen.now) (length candidates.now) left.now }
    ensures { length chosen.now < length candidates.now }
{}

/// What a candidate for the field with this number leaves of a condition; `Known(false)` also if it is known that no values make it
/// true.
fn left_with(
    alloc: Global,
    fields: &[Field],
    terms: &[Term],
    candidates: &[Vec<u32>],
    left: &Open,
    field: usize,
    candidate: u32,
    dead: &[DeadEnd],
) -> Result<Left, AllocError>
    requires inside { field < length candidates.now }
    requires ready { AreReady (field_number fields.now) terms.now
        field (length candidates.now) left.now }
    requires ends { AllByRecursion (IsDeadEnd (field_number fields.now)) dead.now }
    ensures { IfOk result (IsLeftWith (field_number fields.now) terms.now
        field (length candidates.now) left.now candidate) }
{
    match settle(alloc, left, field, candidate)? {
        Left::Known(value) => Ok(Left::Known(value)),
        Left::Open(rest) => if leads_nowhere(dead, field + 1, &rest, fields) {
            Ok(Left::Known(false))
        } else {
            Ok(Left::Open(rest))
        },
    }
}

/// Continues from the bits chosen so far, with what they leave of the condition: finds bits for the next fields that make it true, or
/// shows that none do, in at most `steps` steps. `terms` are all comparisons of the condition.
pub(crate) fn walk(
    alloc: Global,
    fields: &[Field],
    terms: &[Term],
    candidates: &[Vec<u32>],
    left: &Open,
    chosen: &mut Vec<u32>,
    dead: &mut Vec<DeadEnd>,
    steps: &mut u32,
) -> Result<Outcome, AllocError>
    requires ready { AreReady (field_number fields.now) terms.now
        (length chosen.old.items) (length candidates.now) left.now }
    requires represented { AreRepresented (field_number fields.now) terms.now candidates.now }
    requires few { AreNotMany (field_number fields.now) terms.now candidates.now }
    requires ends { AllByRecursion (IsDeadEnd (field_number fields.now)) dead.old.items }
    ensures walked { IfOk result (λ outcome.
        IsWalked (field_number fields.now) (left_of left.now) chosen.new.items outcome) }
    ensures extends { IfOk result (λ outcome. Extends chosen.old.items chosen.new.items) }
    ensures taken { IfOk result (λ outcome. IsWithin (field_number fields.now) terms.now
        (length chosen.old.items) steps.old steps.new) }
    ensures few { IfOk result (λ outcome. length chosen.new.items ≤ length candidates.now) }
    ensures back { IfOk result (λ outcome. outcome ≡ Excluded → chosen.new.items ≡
        chosen.old.items) }
    ensures spent { IfOk result (λ outcome. outcome ≡ Spent → steps.new ≡ 0) }
    ensures ends { IfOk result (λ outcome.
        AllByRecursion (IsDeadEnd (field_number fields.now)) dead.new.items) }
{
    a_field_is_left(fields, terms, candidates, left, chosen);
    let field = chosen.len();
    let row = &candidates[field];
    if !may_choose(row.len(), steps) {
        return Ok(Outcome::Spent);
    }
    for candidate in row {
        match left_with(
            alloc, fields, terms, candidates, left, field, *candidate, dead,
        )? {
            Left::Known(false) => continue,
            Left::Known(true) => {
                chosen.push(*candidate)?;
                return Ok(Outcome::Found);
            }
            Left::Open(rest) => {
                chosen.push(*candidate)?;
                match walk(alloc, fields, terms, candidates, &rest, chosen, dead, steps)? {
                    Outcome::Excluded => {}
                    other => return Ok(other),
                }
                chosen.pop();
                keep_in_mind(dead, field + 1, rest, fields)?;
            }
        }
    }
    Ok(Outcome::Excluded)
}
