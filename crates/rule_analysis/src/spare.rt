//! Comparisons that a rule can do without.

ghost use Rattle.std.specs.Prelude.{◌≡◌, ◌≢◌, ◌⊎◌, ◌+◌, ◌≤◌, ◌<◌, ℕ, Contains, IfOk, IfSome, IsFalse, IsTrue, None, OnOk, Some, length, slice_get};
ghost use Rattle.std.specs.List.{AllByRecursion};
ghost use Rattle.lc_model.specs.declared.field.Term.{Term as Comparison};
ghost use Rattle.lc_model.specs.Condition.{Join, Xor, condition_of};
ghost use Rattle.lc_model.specs.Rule.{rules_of};
ghost use Rattle.lc_model.specs.Tables.Equation.{mentions};
ghost use Rattle.rule_analysis.specs.declared.finding.SpareComparison.{SpareComparison as Spare};
ghost use Rattle.rule_analysis.specs.Spare.{AreOfRulesBefore, AreOfTermsBefore, AreOnce, AreToldOrNeeded, AreToldUpTo, CanDoWithout, IsOf, IsSpare, IsToldAtMost, IsToldOrNeeded, MayBeNeeded, MayMatter, constant, least_spare_steps, replaced};
ghost use Rattle.rule_analysis.specs.Judgement.{HoldsForSome, NeverFails};
ghost use Rattle.rule_analysis.specs.Steps.{AreFewByNames};

use crate::conditions::{are_one, copy_condition};
use crate::counting::{count_one, count_some};
use crate::finding::{SpareComparison, SpareJudgements};
use crate::judging::comparisons_of;
use crate::pairs::{TEXT_STEPS, ask};
use crate::samples::{Samples, samples_of};
use lc_model::{Cond, Rule, Rules, Term};
use std::alloc::{AllocError, Global};

/// How many samples are sought with which a rule fails, and how many with which it passes.
const SPARE_SAMPLES: usize = 16;

/// The steps that each question has even after `TEXT_STEPS` is used up: enough for eight different comparisons.
const LEAST_SPARE_STEPS: u32 = 1 << 8;

/// A condition that has this value whenever the term is known.
fn constant(alloc: Global, term: &Term, value: bool) -> Result<Cond, AllocError>
    ensures { IfOk result (λ cond. condition_of cond ≡ constant value term.now) }
{
    let other = Cond::Not(Box::new(alloc, Cond::Watch(*term))?);
    let both = Box::new(alloc, (Cond::Watch(*term), other))?;
    if value {
        Ok(Cond::Or(both))
    } else {
        Ok(Cond::And(both))
    }
}

/// The condition with this value in the place of a term.
fn replace_term(alloc: Global, cond: &Cond, term: &Term, value: bool) -> Result<Cond, AllocError>
    ensures { IfOk result (λ other. condition_of other ≡
        replaced term.now (constant value term.now) (condition_of cond.now)) }
{
    match cond {
        Cond::Watch(own) => if are_one(own, term) {
            constant(alloc, term, value)
        } else {
            Ok(Cond::Watch(*own))
        },
        Cond::Not(operand) => {
            let operand = replace_term(alloc, operand, term, value)?;
            Ok(Cond::Not(Box::new(alloc, operand)?))
        }
        Cond::And(operands) => {
            let first = replace_term(alloc, &operands.0, term, value)?;
            let second = replace_term(alloc, &operands.1, term, value)?;
            Ok(Cond::And(Box::new(alloc, (first, second))?))
        }
        Cond::Or(operands) => {
            let first = replace_term(alloc, &operands.0, term, value)?;
            let second = replace_term(alloc, &operands.1, term, value)?;
            Ok(Cond::Or(Box::new(alloc, (first, second))?))
        }
        Cond::Xor(operands) => {
            let first = replace_term(alloc, &operands.0, term, value)?;
            let second = replace_term(alloc, &operands.1, term, value)?;
            Ok(Cond::Xor(Box::new(alloc, (first, second))?))
        }
    }
}

/// The condition that a fixed value in the place of a term changes the result.
fn difference(alloc: Global, cond: &Cond, term: &Term, value: bool) -> Result<Cond, AllocError>
    ensures { IfOk result (λ both. condition_of both ≡ Join Xor (condition_of cond.now)
        (replaced term.now (constant value term.now) (condition_of cond.now))) }
{
    let first = copy_condition(alloc, cond)?;
    let second = replace_term(alloc, cond, term, value)?;
    Ok(Cond::Xor(Box::new(alloc, (first, second))?))
}

/// Whether it is known that no values make the condition true. Counts in `unsettled` if it isn't known whether some do.
fn is_never_true(
    alloc: Global,
    cond: &Cond,
    samples: &Samples,
    steps: &mut u32,
    unsettled: &mut usize,
) -> Result<bool, AllocError>
    ensures never { IfOk result (λ never. IsTrue never → NeverFails (condition_of cond.now)) }
    ensures other { IfOk result (λ never. IsFalse never →
        HoldsForSome (condition_of cond.now) ⊎
        (AreFewByNames (condition_of cond.now) least_spare_steps × (0 < unsettled.new))) }
    ensures grows { unsettled.old ≤ unsettled.new }
{
    if samples.is_shown_true(cond) {
        return Ok(false);
    }
    match ask(alloc, cond, LEAST_SPARE_STEPS, steps)? {
        Some(some) => Ok(!some),
        None => {
            count_one(unsettled);
            Ok(false)
        }
    }
}

/// Whether the rule is known to have the same result with this value in the place of the term.
fn does_without(
    alloc: Global,
    cond: &Cond,
    samples: &Samples,
    term: &Term,
    value: bool,
    steps: &mut u32,
    unsettled: &mut usize,
) -> Result<bool, AllocError>
    requires { Contains (mentions (condition_of cond.now)) term.now }
    ensures without { IfOk result (λ spare. IsTrue spare →
        CanDoWithout (condition_of cond.now) term.now value) }
    ensures matters { IfOk result (λ spare. IsFalse spare →
        MayMatter unsettled.new (condition_of cond.now) term.now value) }
    ensures grows { unsettled.old ≤ unsettled.new }
{
    let both = difference(alloc, cond, term, value)?;
    is_never_true(alloc, &both, samples, steps, unsettled)
}

/// The value that can stand in the place of the term; `None` if none is known. Counts in `unsettled` what isn't known.
fn taken_as(
    alloc: Global,
    cond: &Cond,
    samples: &Samples,
    term: &Term,
    steps: &mut u32,
    unsettled: &mut usize,
) -> Result<Option<bool>, AllocError>
    requires { Contains (mentions (condition_of cond.now)) term.now }
    ensures without { IfOk result (λ found. IfSome found (λ value.
        CanDoWithout (condition_of cond.now) term.now value)) }
    ensures needed { IfOk result (λ found. found ≡ None →
        MayBeNeeded unsettled.new (condition_of cond.now) term.now) }
{
    if does_without(alloc, cond, samples, term, true, steps, unsettled)? {
        return Ok(Some(true));
    }
    if does_without(alloc, cond, samples, term, false, steps, unsettled)? {
        return Ok(Some(false));
    }
    Ok(None)
}

/// Appends the term if it is known that the rule can do without it. Counts it in `unsettled` if that isn't known.
fn judge_term(
    alloc: Global,
    rules: &[Rule],
    samples: &Samples,
    rule: usize,
    term: &Term,
    steps: &mut u32,
    unsettled: &mut usize,
    spare: &mut Vec<SpareComparison>,
) -> Result<(), AllocError>
    requires inside { rule < length rules.now }
    requires own { IsOf (rules_of rules.now) rule term.now }
    ensures sound { OnOk result (AllByRecursion (IsSpare (rules_of rules.now)) spare.old.items →
        AllByRecursion (IsSpare (rules_of rules.now)) spare.new.items) }
    ensures kept { OnOk result ((s : Spare) → Contains spare.old.items s →
        Contains spare.new.items s) }
    ensures told { OnOk result (
        IsToldOrNeeded unsettled.new (rules_of rules.now) spare.new.items rule term.now) }
    ensures grows { unsettled.old ≤ unsettled.new }
    ensures once { OnOk result (IsToldAtMost spare.old.items spare.new.items rule term.now) }
{
    let mut unknown = 0;
    match taken_as(alloc, &rules[rule].cond, samples, term, steps, &mut unknown)? {
        Some(taken_as) => Ok(spare.push(SpareComparison {
            rule,
            term: *term,
            taken_as,
        })?),
        None => {
            count_some(unsettled, unknown);
            Ok(())
        }
    }
}

/// Whether an earlier one of the terms is the same.
fn is_again(terms: &[Term], at: usize) -> bool
    requires { at < length terms.now }
    ensures again { IsTrue result →
        (i : ℕ) × (i < at) × (slice_get terms.now i ≡ slice_get terms.now at) }
    ensures first { IsFalse result →
        (i : ℕ) → i < at → slice_get terms.now i ≢ slice_get terms.now at }
{
    for i in 0..at {
        if are_one(&terms[i], &terms[at]) {
            return true;
        }
    }
    false
}

/// Appends one of a rule's terms if it is known that the rule can do without it, unless the same term came before.
fn judge_at(
    alloc: Global,
    rules: &[Rule],
    samples: &Samples,
    rule: usize,
    terms: &[Term],
    at: usize,
    steps: &mut u32,
    unsettled: &mut usize,
    spare: &mut Vec<SpareComparison>,
) -> Result<(), AllocError>
    requires rule { rule < length rules.now }
    requires at { at < length terms.now }
    requires own { (t : Comparison) → slice_get terms.now at ≡ Some t →
        IsOf (rules_of rules.now) rule t }
    ensures sound { OnOk result (AllByRecursion (IsSpare (rules_of rules.now)) spare.old.items →
        AllByRecursion (IsSpare (rules_of rules.now)) spare.new.items) }
    ensures kept { OnOk result ((s : Spare) → Contains spare.old.items s →
        Contains spare.new.items s) }
    ensures told { OnOk result (
        AreToldUpTo unsettled.old (rules_of rules.now) spare.old.items rule terms.now at →
        AreToldUpTo unsettled.new (rules_of rules.now) spare.new.items rule terms.now (at + 1)) }
    ensures grows { unsettled.old ≤ unsettled.new }
    ensures once { OnOk result (AreOfTermsBefore spare.old.items rule terms.now at →
        AreOfTermsBefore spare.new.items rule terms.now (at + 1)) }
{
    if is_again(terms, at) {
        return Ok(());
    }
    judge_term(
        alloc, rules, samples, rule, &terms[at], steps, unsettled, spare,
    )?;
    Ok(())
}

/// Appends the terms of a rule that it can do without.
fn judge_terms(
    alloc: Global,
    rules: &[Rule],
    rule: usize,
    steps: &mut u32,
    unsettled: &mut usize,
    spare: &mut Vec<SpareComparison>,
) -> Result<(), AllocError>
    requires { rule < length rules.now }
    ensures sound { OnOk result (AllByRecursion (IsSpare (rules_of rules.now)) spare.old.items →
        AllByRecursion (IsSpare (rules_of rules.now)) spare.new.items) }
    ensures kept { OnOk result ((s : Spare) → Contains spare.old.items s →
        Contains spare.new.items s) }
    ensures told { OnOk result ((t : Comparison) → IsOf (rules_of rules.now) rule t →
        IsToldOrNeeded unsettled.new (rules_of rules.now) spare.new.items rule t) }
    ensures grows { unsettled.old ≤ unsettled.new }
    ensures once { OnOk result (AreOfRulesBefore spare.old.items rule →
        AreOfRulesBefore spare.new.items (rule + 1)) }
{
    let terms = comparisons_of(alloc, &rules[rule].cond)?;
    let samples = samples_of(alloc, &rules[rule..rule + 1], SPARE_SAMPLES)?;
    for at in 0..terms.len() {
        judge_at(
            alloc, rules, &samples, rule, &terms, at, steps, unsettled, spare,
        )?;
    }
    Ok(())
}

/// The comparisons that their rules can do without, rule by rule, each once. In a rule with at most eight different comparisons each is
/// found; in others only within `TEXT_STEPS` steps for all, and those of which it isn't known are counted. The only error is a lack of
/// memory.
pub fn spare_comparisons(alloc: Global, rules: &Rules) -> Result<SpareJudgements, AllocError>
    ensures sound { IfOk result (λ found. AllByRecursion (IsSpare rules.now) found.spare.items) }
    ensures told { IfOk result (λ found.
        AreToldOrNeeded found.unsettled rules.now found.spare.items) }
    ensures once { IfOk result (λ found. AreOnce found.spare.items) }
{
    let rules = rules.as_slice();
    let mut steps = TEXT_STEPS;
    let mut unsettled = 0;
    let mut spare = Vec::new(alloc);
    for rule in 0..rules.len() {
        judge_terms(alloc, rules, rule, &mut steps, &mut unsettled, &mut spare)?;
    }
    Ok(SpareJudgements { spare, unsettled })
}
