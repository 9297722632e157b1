//! Rules that are alike, and what tells two conditions apart.

ghost use Rattle.std.specs.Prelude.{◌≡◌, ◌<◌, IfOk, IsTrue, Some, length, slice_get};
ghost use Rattle.lc_model.specs.Condition.{And, Join, Not, condition_of};
ghost use Rattle.lc_model.specs.declared.rule.Rule.{Rule as AnyRule};
ghost use Rattle.rule_analysis.specs.Findings.{AreFirsts, IsFirst};
ghost use Rattle.rule_analysis.specs.Judgement.{AreAlike, HoldsForSome};

use crate::conditions::{are_equal, copy_condition};
use crate::deciding::{Decision, decide, is_never};
use crate::samples::{Samples, are_apart_with};
use lc_model::{Cond, Rule};
use std::alloc::{AllocError, Global};

/// The most steps for one question about two rules.
pub(crate) const PAIR_STEPS: u32 = 1 << 14;

/// What is known of where two conditions differ.
#[derive(Clone, Copy)]
pub(crate) struct Difference {
    /// They have the same result, whatever values their fields have.
    pub(crate) is_none: bool,
    /// Some values make the first one true and the second one false.
    pub(crate) is_first: bool,
    /// Some values make the second one true and the first one false.
    pub(crate) is_second: bool,
}

/// Looks for values that make one of the conditions true and the other one false, in at most `PAIR_STEPS` of the steps.
pub(crate) fn seek_difference(
    alloc: Global,
    first: &Cond,
    second: &Cond,
    steps: &mut u32,
) -> Result<Difference, AllocError>
    ensures none { IfOk result (λ found. IsTrue found.is_none →
        AreAlike (condition_of first.now) (condition_of second.now)) }
    ensures first { IfOk result (λ found. IsTrue found.is_first →
        HoldsForSome (Join And (condition_of first.now) (Not (condition_of second.now)))) }
    ensures second { IfOk result (λ found. IsTrue found.is_second →
        HoldsForSome (Join And (condition_of second.now) (Not (condition_of first.now)))) }
{
    let one = copy_condition(alloc, first)?;
    let other = copy_condition(alloc, second)?;
    let differ = Cond::Xor(Box::new(alloc, (one, other))?);
    let given = PAIR_STEPS.min(*steps);
    let mut left = given;
    let decision = decide(alloc, &differ, &mut left)?;
    *steps -= given.saturating_sub(left).min(*steps);
    let (is_first, is_second) = match &decision {
        Decision::Holds { fields, bits } => (
            are_apart_with(first, second, fields, bits),
            are_apart_with(second, first, fields, bits),
        ),
        Decision::Never | Decision::Spent => (false, false),
    };
    Ok(Difference {
        is_none: is_never(&decision),
        is_first,
        is_second,
    })
}

/// Whether it is known that the conditions have the same result, whatever values their fields have.
fn are_alike(
    alloc: Global,
    first: &Cond,
    second: &Cond,
    steps: &mut u32,
) -> Result<bool, AllocError>
    ensures { IfOk result (λ alike. IsTrue alike →
        AreAlike (condition_of first.now) (condition_of second.now)) }
{
    if are_equal(first, second) {
        return Ok(true);
    }
    let found = seek_difference(alloc, first, second, steps)?;
    Ok(found.is_none)
}

/// The number of the first rule that is known to be alike; the rule's own number if none is. `firsts` are those of the rules before it.
fn first_of(
    alloc: Global,
    rules: &[Rule],
    samples: &Samples,
    firsts: &[usize],
    rule: usize,
    steps: &mut u32,
) -> Result<usize, AllocError>
    requires { rule < length rules.now }
    ensures { IfOk result (λ first. IsFirst rules.now first rule) }
{
    if let Some(other) = samples.first_like(firsts, rule) {
        if other < rule && are_alike(alloc, &rules[other].cond, &rules[rule].cond, steps)? {
            return Ok(other);
        }
    }
    Ok(rule)
}

/// For each rule the number of the first one that is known to be alike.
pub(crate) fn firsts_of(
    alloc: Global,
    rules: &[Rule],
    samples: &Samples,
    steps: &mut u32,
) -> Result<Vec<usize>, AllocError>
    ensures { IfOk result (λ firsts. AreFirsts rules.now firsts.items) }
{
    let mut firsts = Vec::new(alloc);
    for rule in 0..rules.len() {
        let first = first_of(alloc, rules, samples, &firsts, rule, steps)?;
        firsts.push(first)?;
    }
    Ok(firsts)
}

/// Whether it is known that the rules of these numbers are alike.
pub(crate) fn are_known_alike(rules: &[Rule], firsts: &[usize], first: usize, second: usize) -> bool
    requires { AreFirsts rules.now firsts.now }
    ensures { IsTrue result → (a b : AnyRule) →
        slice_get rules.now first ≡ Some a → slice_get rules.now second ≡ Some b →
        AreAlike (condition_of a.cond) (condition_of b.cond) }
{
    match (firsts.get(first), firsts.get(second)) {
        (Some(one), Some(other)) => *one == *other,
        _ => false,
    }
}
