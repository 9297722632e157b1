//! Judges pairs of rules.

ghost use Rattle.std.specs.Prelude.{◌≡◌, ◌⊎◌, ◌+◌, ◌≤◌, ◌<◌, ℕ, Contains, IfOk, IfSome, IsFalse, IsTrue, None, OnOk, Some, false, length, true};
ghost use Rattle.std.specs.List.{AllByRecursion};
ghost use Rattle.lc_model.specs.Condition.{And, Join, Not, Xor, condition_of};
ghost use Rattle.lc_model.specs.Rule.{rule_of, rules_of};
ghost use Rattle.rule_analysis.specs.declared.finding.PairJudgement.{PairJudgement as Pair};
ghost use Rattle.rule_analysis.specs.Fields.{read_one_field};
ghost use Rattle.rule_analysis.specs.Findings.{AreBefore, AreFirsts, AreInOrder, AreSettled, IsPair, IsRelated, IsRelationSettled, IsSettledAt, MayDiffer, are_near, least_pair_steps};
ghost use Rattle.rule_analysis.specs.Judgement.{AreAlike, FailsWherever, HoldsForSome, NeverFails};
ghost use Rattle.rule_analysis.specs.Steps.{AreFewByNames};

use crate::alike::{Difference, PAIR_STEPS, are_known_alike, firsts_of, seek_difference};
use crate::conditions::{are_equal, but_not};
use crate::counting::{count_one, count_some};
use crate::deciding::holds_for_some;
use crate::fields::{field_of, is_read};
use crate::finding::{PairJudgement, PairJudgements, Relation};
use crate::judging::comparisons_of;
use crate::samples::{Samples, samples_of};
use lc_model::{Cond, Rule, Rules, Term};
use std::alloc::{AllocError, Global};

/// How many samples are sought with which a rule fails, and how many with which it passes.
const PAIR_SAMPLES: usize = 4;

/// The steps that each question has even after `TEXT_STEPS` is used up: enough for eight different comparisons.
const LEAST_PAIR_STEPS: u32 = 1 << 8;

/// The steps shared by all questions of one call, about pairs or about spare comparisons. A question gets at least 2^8 steps even
/// after these are used up.
pub const TEXT_STEPS: u32 = 1 << 21;

/// Whether some values make the condition true; `None` if it isn't known. Takes at most `PAIR_STEPS` of the steps; `least` steps may
/// be taken even if fewer are left.
pub(crate) fn ask(
    alloc: Global,
    cond: &Cond,
    least: u32,
    steps: &mut u32,
) -> Result<Option<bool>, AllocError>
    ensures some { IfOk result (λ some. some ≡ Some true → HoldsForSome (condition_of cond.now)) }
    ensures never { IfOk result (λ some. some ≡ Some false → NeverFails (condition_of cond.now)) }
    ensures none { IfOk result (λ some. some ≡ None → AreFewByNames (condition_of cond.now) least) }
{
    let given = PAIR_STEPS.min(*steps).max(least);
    let mut left = given;
    let some = holds_for_some(alloc, cond, &mut left)?;
    *steps -= given.saturating_sub(left).min(*steps);
    Ok(some)
}

/// Whether for some values the first condition is true and the second one false; `None` if it isn't known.
fn are_apart(
    alloc: Global,
    first: &Cond,
    second: &Cond,
    steps: &mut u32,
) -> Result<Option<bool>, AllocError>
    ensures some { IfOk result (λ some. some ≡ Some true →
        HoldsForSome (Join And (condition_of first.now) (Not (condition_of second.now)))) }
    ensures never { IfOk result (λ some. some ≡ Some false →
        NeverFails (Join And (condition_of first.now) (Not (condition_of second.now)))) }
    ensures none { IfOk result (λ some. some ≡ None →
        AreFewByNames (Join And (condition_of first.now) (Not (condition_of second.now)))
        least_pair_steps) }
{
    let apart = but_not(alloc, first, second)?;
    ask(alloc, &apart, LEAST_PAIR_STEPS, steps)
}

/// What is known of where the conditions differ: `known` where that says anything, and else what a search finds.
fn find_difference(
    alloc: Global,
    first: &Cond,
    second: &Cond,
    known: Difference,
    steps: &mut u32,
) -> Result<Difference, AllocError>
    requires none { IsTrue known.is_none →
        AreAlike (condition_of first.now) (condition_of second.now) }
    requires first { IsTrue known.is_first →
        HoldsForSome (Join And (condition_of first.now) (Not (condition_of second.now))) }
    requires second { IsTrue known.is_second →
        HoldsForSome (Join And (condition_of second.now) (Not (condition_of first.now))) }
    ensures none { IfOk result (λ found. IsTrue found.is_none →
        AreAlike (condition_of first.now) (condition_of second.now)) }
    ensures first { IfOk result (λ found. IsTrue found.is_first →
        HoldsForSome (Join And (condition_of first.now) (Not (condition_of second.now)))) }
    ensures second { IfOk result (λ found. IsTrue found.is_second →
        HoldsForSome (Join And (condition_of second.now) (Not (condition_of first.now)))) }
{
    if known.is_none || known.is_first || known.is_second {
        return Ok(known);
    }
    seek_difference(alloc, first, second, steps)
}

/// Whether the second condition is known to be true whenever the first one is true and all fields are known; `apart` if it is known
/// that it isn't. Counts in `unsettled` if it isn't known whether it is.
fn follows(
    alloc: Global,
    first: &Cond,
    second: &Cond,
    apart: bool,
    steps: &mut u32,
    unsettled: &mut usize,
) -> Result<bool, AllocError>
    requires { IsTrue apart →
        HoldsForSome (Join And (condition_of first.now) (Not (condition_of second.now))) }
    ensures follows { IfOk result (λ follows. IsTrue follows →
        FailsWherever (condition_of first.now) (condition_of second.now)) }
    ensures differ { IfOk result (λ follows. IsFalse follows →
        MayDiffer unsettled.new (condition_of first.now) (condition_of second.now)) }
    ensures grows { unsettled.old ≤ unsettled.new }
{
    if apart {
        return Ok(false);
    }
    match are_apart(alloc, first, second, steps)? {
        Some(apart) => Ok(!apart),
        None => {
            count_one(unsettled);
            Ok(false)
        }
    }
}

/// How the conditions are related; `None` if they aren't, or if it isn't known. `known` is what is known before any search. Counts in
/// `unsettled` what isn't known.
fn relation(
    alloc: Global,
    first: &Cond,
    second: &Cond,
    known: Difference,
    steps: &mut u32,
    unsettled: &mut usize,
) -> Result<Option<Relation>, AllocError>
    requires none { IsTrue known.is_none →
        AreAlike (condition_of first.now) (condition_of second.now) }
    requires first { IsTrue known.is_first →
        HoldsForSome (Join And (condition_of first.now) (Not (condition_of second.now))) }
    requires second { IsTrue known.is_second →
        HoldsForSome (Join And (condition_of second.now) (Not (condition_of first.now))) }
    ensures related { IfOk result (λ found. IfSome found (λ relation.
        IsRelated (condition_of first.now) (condition_of second.now) relation)) }
    ensures settled { IfOk result (λ found.
        IsRelationSettled unsettled.new (condition_of first.now) (condition_of second.now) found) }
{
    if are_equal(first, second) {
        return Ok(Some(Relation::Same));
    }
    let found = find_difference(alloc, first, second, known, steps)?;
    if found.is_none {
        return Ok(Some(Relation::Same));
    }
    let second_follows = follows(alloc, first, second, found.is_first, steps, unsettled)?;
    let first_follows = follows(alloc, second, first, found.is_second, steps, unsettled)?;
    match (first_follows, second_follows) {
        (true, true) => Ok(Some(Relation::Same)),
        (true, false) => Ok(Some(Relation::FirstFollows)),
        (false, true) => Ok(Some(Relation::SecondFollows)),
        (false, false) => Ok(None),
    }
}

/// Whether some term of the first list reads the same field as one of the second.
fn read_one_field(first: &[Term], second: &[Term]) -> bool
    ensures { result ≡ read_one_field first.now second.now }
{
    for term in first {
        if is_read(second, &field_of(term)) {
            return true;
        }
    }
    false
}

/// Whether the rules request one sequence, or read a common field.
fn are_near(alloc: Global, first: &Rule, second: &Rule) -> Result<bool, AllocError>
    ensures { IfOk result (λ near. near ≡ are_near (rule_of first.now) (rule_of second.now)) }
{
    let own = comparisons_of(alloc, &first.cond)?;
    let other = comparisons_of(alloc, &second.cond)?;
    Ok(first.sequence == second.sequence || read_one_field(&own, &other))
}

/// Appends the two rules to the pairs, if they are near and known to be related. Counts the pair in `unsettled` if it isn't known how.
fn judge_pair(
    alloc: Global,
    rules: &[Rule],
    samples: &Samples,
    firsts: &[usize],
    first: usize,
    second: usize,
    steps: &mut u32,
    unsettled: &mut usize,
    pairs: &mut Vec<PairJudgement>,
) -> Result<(), AllocError>
    requires order { first < second }
    requires inside { second < length rules.now }
    requires firsts { AreFirsts rules.now firsts.now }
    ensures sound { OnOk result (AllByRecursion (IsPair (rules_of rules.now)) pairs.old.items →
        AllByRecursion (IsPair (rules_of rules.now)) pairs.new.items) }
    ensures kept { OnOk result ((p : Pair) → Contains pairs.old.items p →
        Contains pairs.new.items p) }
    ensures settled { OnOk result (
        IsSettledAt unsettled.new (rules_of rules.now) pairs.new.items first second) }
    ensures grows { unsettled.old ≤ unsettled.new }
    ensures order { OnOk result (AreBefore pairs.old.items first second →
        AreBefore pairs.new.items (first + 1) second) }
{
    if !are_near(alloc, &rules[first], &rules[second])? {
        return Ok(());
    }
    let (one, other) = (&rules[first].cond, &rules[second].cond);
    let known = Difference {
        is_none: are_known_alike(rules, firsts, first, second),
        is_first: samples.is_apart(one, other, (first, second)),
        is_second: samples.is_apart(other, one, (second, first)),
    };
    let mut unknown = 0;
    let found = relation(alloc, one, other, known, steps, &mut unknown)?;
    count_some(unsettled, unknown);
    match found {
        Some(relation) => Ok(pairs.push(PairJudgement {
            first,
            second,
            relation,
        })?),
        None => Ok(()),
    }
}

/// Appends a rule's pairs with the rules before it, and counts those of which it isn't known how they are related.
fn judge_with_earlier(
    alloc: Global,
    rules: &[Rule],
    samples: &Samples,
    firsts: &[usize],
    second: usize,
    steps: &mut u32,
    unsettled: &mut usize,
    pairs: &mut Vec<PairJudgement>,
) -> Result<(), AllocError>
    requires inside { second < length rules.now }
    requires firsts { AreFirsts rules.now firsts.now }
    ensures sound { OnOk result (AllByRecursion (IsPair (rules_of rules.now)) pairs.old.items →
        AllByRecursion (IsPair (rules_of rules.now)) pairs.new.items) }
    ensures kept { OnOk result ((p : Pair) → Contains pairs.old.items p →
        Contains pairs.new.items p) }
    ensures settled { OnOk result ((first : ℕ) → first < second →
        IsSettledAt unsettled.new (rules_of rules.now) pairs.new.items first second) }
    ensures grows { unsettled.old ≤ unsettled.new }
    ensures order { OnOk result (AreBefore pairs.old.items 0 second →
        AreBefore pairs.new.items 0 (second + 1)) }
{
    for first in 0..second {
        judge_pair(
            alloc, rules, samples, firsts, first, second, steps, unsettled, pairs,
        )?;
    }
    Ok(())
}

/// The pairs of rules where one fails whenever the other does, among those that request the same sequence or share a field. A pair with
/// at most eight different comparisons is always found; others only within `TEXT_STEPS` steps for all, and those of which it isn't known
/// how they are related are counted. Each pair is listed once, by the second rule and then by the first. The only error is a lack of
/// memory.
pub fn judge_pairs(alloc: Global, rules: &Rules) -> Result<PairJudgements, AllocError>
    ensures sound { IfOk result (λ found. AllByRecursion (IsPair rules.now) found.related.items) }
    ensures settled { IfOk result (λ found.
        AreSettled found.unsettled rules.now found.related.items) }
    ensures once { IfOk result (λ found. AreInOrder found.related.items) }
{
    let rules = rules.as_slice();
    let samples = samples_of(alloc, rules, PAIR_SAMPLES)?;
    let mut steps = TEXT_STEPS;
    let firsts = firsts_of(alloc, rules, &samples, &mut steps)?;
    let mut unsettled = 0;
    let mut pairs = Vec::new(alloc);
    for second in 0..rules.len() {
        judge_with_earlier(
            alloc,
            rules,
            &samples,
            &firsts,
            second,
            &mut steps,
            &mut unsettled,
            &mut pairs,
        )?;
    }
    Ok(PairJudgements {
        related: pairs,
        unsettled,
    })
}
