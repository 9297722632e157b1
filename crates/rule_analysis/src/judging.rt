//! Judges conditions and rules, each by itself.

ghost use Rattle.std.specs.Prelude.{◌≡◌, IfOk, IsFalse, IsTrue, length};
ghost use Rattle.lc_model.specs.Condition.{Not, Watch, condition_of};
ghost use Rattle.rule_analysis.specs.declared.finding.Constancy.TheVariants.{Always, Never, Varies};
ghost use Rattle.lc_model.specs.Rule.{rules_of};
ghost use Rattle.lc_model.specs.Tables.Equation.{mentions};
ghost use Rattle.rule_analysis.specs.Judgement.{HoldsForSome, NeverFails};
ghost use Rattle.rule_analysis.specs.Findings.{AreComparisons, AreJudged, IsConstancy, IsFound, IsRuleJudged, rule_steps};

use crate::boundary::at_boundary;
use crate::conditions::negation;
use crate::deciding::{Decision, decide, holds_for_some};
use crate::fields::collect;
use crate::finding::{
    ComparisonJudgement, Constancy, Finding, Judgement, RuleJudgement, UnknownReason,
};
use crate::packets::lay_out;
use crate::seen::shows;
use lc_model::{Cond, Rule, Rules, Term};
use std::alloc::{AllocError, Global};

/// The most steps for each question about a rule or a comparison: enough for any rule of at most twenty different comparisons.
pub const RULE_STEPS: u32 = 1 << 20;

/// Returns whether the condition can be true. A step chooses a value for one of its fields; 2^n steps are enough for n different
/// comparisons. The only error is a lack of memory.
pub fn can_be_true(alloc: Global, cond: &Cond, steps: u32) -> Result<Finding, AllocError>
    ensures { IfOk result (λ finding. IsFound (condition_of cond.now) steps finding) }
{
    let mut left = steps;
    match decide(alloc, cond, &mut left)? {
        Decision::Never => Ok(Finding::Never),
        Decision::Spent => Ok(Finding::Unknown(UnknownReason::Steps)),
        Decision::Holds { fields, bits } => {
            let packets = lay_out(alloc, &fields, &bits)?;
            if shows(cond, &packets) {
                Ok(Finding::Possible(packets))
            } else {
                Ok(Finding::Unknown(UnknownReason::Overlap))
            }
        }
    }
}

/// Whether some values make a condition of one comparison true.
fn is_possible(alloc: Global, cond: &Cond) -> Result<bool, AllocError>
    requires { length (mentions (condition_of cond.now)) ≡ 1 }
    ensures some { IfOk result (λ some. IsTrue some → HoldsForSome (condition_of cond.now)) }
    ensures never { IfOk result (λ some. IsFalse some → NeverFails (condition_of cond.now)) }
{
    let mut steps = RULE_STEPS;
    match holds_for_some(alloc, cond, &mut steps)? {
        Some(some) => Ok(some),
        // Unreachable: one comparison takes fewer steps.
        None => Ok(true),
    }
}

/// Whether the comparison is true for some value of its field.
fn holds(alloc: Global, term: &Term) -> Result<bool, AllocError>
    ensures some { IfOk result (λ some. IsTrue some → HoldsForSome (Watch term.now)) }
    ensures never { IfOk result (λ some. IsFalse some → NeverFails (Watch term.now)) }
{
    let cond = Cond::Watch(*term);
    is_possible(alloc, &cond)
}

/// Whether the comparison is false for some value of its field.
fn misses(alloc: Global, term: &Term) -> Result<bool, AllocError>
    ensures some { IfOk result (λ some. IsTrue some → HoldsForSome (Not (Watch term.now))) }
    ensures never { IfOk result (λ some. IsFalse some → NeverFails (Not (Watch term.now))) }
{
    let cond = Cond::Watch(*term);
    let other = negation(alloc, &cond)?;
    is_possible(alloc, &other)
}

/// The constancy of a comparison that can be true (`holds`) and can be false (`misses`).
fn says(holds: bool, misses: bool) -> Constancy
    ensures never { result ≡ Never → IsFalse holds }
    ensures always { result ≡ Always → IsFalse misses }
    ensures varies { result ≡ Varies → IsTrue holds × IsTrue misses }
{
    match (holds, misses) {
        (false, _) => Constancy::Never,
        (true, false) => Constancy::Always,
        (true, true) => Constancy::Varies,
    }
}

/// The constancy of a comparison over all values of its field.
fn constancy(alloc: Global, term: &Term) -> Result<Constancy, AllocError>
    ensures { IfOk result (λ constancy. IsConstancy term.now constancy) }
{
    let holds = holds(alloc, term)?;
    let misses = misses(alloc, term)?;
    Ok(says(holds, misses))
}

/// The judgements of comparisons, in their order.
fn comparisons(alloc: Global, terms: &[Term]) -> Result<Vec<ComparisonJudgement>, AllocError>
    ensures { IfOk result (λ judged. AreComparisons terms.now judged.items) }
{
    let mut judged = Vec::new(alloc);
    for term in terms {
        let says = constancy(alloc, term)?;
        judged.push(ComparisonJudgement { term: *term, says })?;
    }
    Ok(judged)
}

/// The comparisons of a condition, from left to right. The only error is a lack of memory.
pub fn comparisons_of(alloc: Global, cond: &Cond) -> Result<Vec<Term>, AllocError>
    ensures { IfOk result (λ terms. terms.items ≡ mentions (condition_of cond.now)) }
{
    let mut terms = Vec::new(alloc);
    collect(cond, &mut terms)?;
    Ok(terms)
}

/// Judges a condition: whether it can be true, whether it can be false, and its comparisons, with at most `RULE_STEPS` steps for
/// each question. Packets with which it is true and false differ in one field where such are found. The only error is a lack of memory.
pub fn judge_condition(alloc: Global, cond: &Cond) -> Result<RuleJudgement, AllocError>
    ensures { IfOk result (λ judged. IsRuleJudged (condition_of cond.now) judged) }
{
    let other = negation(alloc, cond)?;
    let fails = can_be_true(alloc, cond, RULE_STEPS)?;
    let passes = can_be_true(alloc, &other, RULE_STEPS)?;
    let (fails, passes) = at_boundary(alloc, cond, &other, fails, passes)?;
    let terms = comparisons_of(alloc, cond)?;
    let comparisons = comparisons(alloc, &terms)?;
    Ok(RuleJudgement {
        fails,
        passes,
        comparisons,
    })
}

/// The judgements of rules, each by itself.
fn judge_rules(alloc: Global, rules: &[Rule]) -> Result<Vec<RuleJudgement>, AllocError>
    ensures { IfOk result (λ judged. AreJudged (rules_of rules.now) judged.items) }
{
    let mut judged = Vec::new(alloc);
    for rule in rules {
        judged.push(judge_condition(alloc, &rule.cond)?)?;
    }
    Ok(judged)
}

/// Judges the rules of a text, each by itself; the judgements hold for every stream. The only error is a lack of memory.
pub fn judge(alloc: Global, rules: &Rules) -> Result<Judgement, AllocError>
    ensures { IfOk result (λ judgement. AreJudged rules.now judgement.rules.items) }
{
    let rules = judge_rules(alloc, rules.as_slice())?;
    Ok(Judgement { rules })
}
