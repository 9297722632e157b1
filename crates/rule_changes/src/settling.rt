//! Settles how a changed condition is related to the old one.

ghost use Rattle.std.specs.Prelude.{◌≡◌, ◌≤◌, IfOk, IsTrue, false, length, true};
ghost use Rattle.std.specs.List.{list_any};
ghost use Rattle.lc_model.specs.Condition.{Condition as Tree, Not, condition_of};
ghost use Rattle.lc_model.specs.Laws.Lagging.{IsTrueOnlyWhere};
ghost use Rattle.rule_analysis.specs.Findings.{IsDecided};
ghost use Rattle.rule_changes.specs.Known.{is_of_no_packet, most_comparisons, only_first, terms_of_both};
ghost use Rattle.rule_changes.specs.ConditionChanges.{IsChance, IsConditionChange, least_steps};

use crate::condition_change::{Chance, ConditionChange, Unsettled};
use crate::forms::same_by_form;
use crate::known::{MOST_COMPARISONS, is_any_of_no_packet, only_first, size_of, terms_of_both};
use crate::seeking::seek;
use crate::ties::with_ties;
use lc_model::{Cond, Term};
use rule_analysis::{Decision, decide};
use std::alloc::{AllocError, Global};

/// The most steps for one question.
const QUESTION_STEPS: u32 = 1 << 18;

/// The steps that each question has even after the others are used up: enough for twelve different comparisons.
const LEAST_STEPS: u32 = 1 << 12;

/// The steps shared by all questions of one call.
pub(crate) const CALL_STEPS: u32 = 1 << 21;

/// Decides whether the question can be true, for fields and known-comparisons that are all free. Takes at most `QUESTION_STEPS` of the
/// steps.
fn ask(alloc: Global, question: &Cond, steps: &mut u32) -> Result<Decision, AllocError>
    ensures { IfOk result (IsDecided (condition_of question.now) least_steps) }
{
    let given = QUESTION_STEPS.min(*steps).max(LEAST_STEPS);
    let mut left = given;
    let decision = decide(alloc, question, &mut left)?;
    *steps -= given.saturating_sub(left).min(*steps);
    Ok(decision)
}

/// Whether the first condition can be true where the second one is not, by the question with ties.
fn tied_chance(
    alloc: Global,
    first: &Cond,
    second: &Cond,
    terms: &[Term],
    question: Cond,
    steps: &mut u32,
) -> Result<Chance, AllocError>
    requires few { length terms.now ≤ most_comparisons }
    requires terms { terms.now ≡ terms_of_both (condition_of first.now) (condition_of second.now) }
    requires none { list_any is_of_no_packet terms.now ≡ false }
    requires question { condition_of question ≡
        only_first terms.now true (condition_of first.now) (condition_of second.now) }
    ensures { IfOk result (IsChance (condition_of first.now) (condition_of second.now)) }
{
    let tied = with_ties(alloc, terms, question)?;
    match ask(alloc, &tied, steps)? {
        Decision::Never => Ok(Chance::Never),
        Decision::Spent => Ok(Chance::Unknown(Unsettled::Steps)),
        Decision::Holds { fields, bits } => {
            match seek(alloc, first, second, terms, &fields, &bits)? {
                Some(situation) => Ok(Chance::Possible(situation)),
                None => Ok(Chance::Unknown(Unsettled::Situation)),
            }
        }
    }
}

/// Whether the first condition can be true where the second one is not. `terms` are the comparisons of both.
fn chance_over(
    alloc: Global,
    first: &Cond,
    second: &Cond,
    terms: &[Term],
    steps: &mut u32,
) -> Result<Chance, AllocError>
    requires few { length terms.now ≤ most_comparisons }
    requires terms { terms.now ≡ terms_of_both (condition_of first.now) (condition_of second.now) }
    requires none { list_any is_of_no_packet terms.now ≡ false }
    ensures { IfOk result (IsChance (condition_of first.now) (condition_of second.now)) }
{
    let question = only_first(alloc, terms, true, first, second)?;
    match ask(alloc, &question, steps)? {
        Decision::Never => Ok(Chance::Never),
        Decision::Spent => match seek(alloc, first, second, terms, &[], &[])? {
            Some(situation) => Ok(Chance::Possible(situation)),
            None => Ok(Chance::Unknown(Unsettled::Steps)),
        },
        Decision::Holds { fields, bits } => {
            match seek(alloc, first, second, terms, &fields, &bits)? {
                Some(situation) => Ok(Chance::Possible(situation)),
                None => tied_chance(alloc, first, second, terms, question, steps),
            }
        }
    }
}

/// Whether the first condition can be true where the second one is not.
fn chance(alloc: Global, first: &Cond, second: &Cond, steps: &mut u32) -> Result<Chance, AllocError>
    ensures { IfOk result (IsChance (condition_of first.now) (condition_of second.now)) }
{
    let terms = terms_of_both(alloc, first, second)?;
    let terms = terms.as_slice();
    if is_any_of_no_packet(terms) {
        return Ok(Chance::Unknown(Unsettled::NoTelemetry));
    }
    if size_of(first) + size_of(second) > MOST_COMPARISONS {
        return Ok(Chance::Unknown(Unsettled::Size));
    }
    chance_over(alloc, first, second, terms, steps)
}

/// Whether it is known that the first condition is false only where the second one is.
fn is_false_only_where(
    alloc: Global,
    first: &Cond,
    second: &Cond,
    steps: &mut u32,
) -> Result<bool, AllocError>
    ensures { IfOk result (λ known. IsTrue known →
        IsTrueOnlyWhere (Not (condition_of first.now)) (Not (condition_of second.now))) }
{
    let terms = terms_of_both(alloc, first, second)?;
    let terms = terms.as_slice();
    if is_any_of_no_packet(terms) || terms.len() > MOST_COMPARISONS {
        return Ok(false);
    }
    let question = only_first(alloc, terms, false, first, second)?;
    match ask(alloc, &question, steps)? {
        Decision::Never => Ok(true),
        Decision::Holds { .. } | Decision::Spent => Ok(false),
    }
}

/// How two conditions are related, if each is true only where the other one is.
fn change_of_alike(
    alloc: Global,
    old: &Cond,
    new: &Cond,
    steps: &mut u32,
) -> Result<ConditionChange, AllocError>
    requires lost { IsTrueOnlyWhere (condition_of old.now) (condition_of new.now) }
    requires gained { IsTrueOnlyWhere (condition_of new.now) (condition_of old.now) }
    ensures { IfOk result (IsConditionChange (condition_of old.now) (condition_of new.now)) }
{
    let is_same = is_false_only_where(alloc, old, new, steps)?
        && is_false_only_where(alloc, new, old, steps)?;
    if is_same {
        Ok(ConditionChange::SameButForStaleAndError)
    } else {
        Ok(ConditionChange::FailsAlike)
    }
}

/// How a changed condition is related to the old one, by both directions.
fn change_by(lost: Chance, gained: Chance) -> ConditionChange
    ensures { (old new : Tree) → IsChance old new lost → IsChance new old gained →
        IsConditionChange old new result }
{
    match (lost, gained) {
        (Chance::Never, Chance::Never) => ConditionChange::FailsAlike,
        (Chance::Possible(lost), Chance::Never) => ConditionChange::FailsOnlyWhere(lost),
        (Chance::Never, Chance::Possible(gained)) => ConditionChange::FailsWherever(gained),
        (Chance::Possible(lost), Chance::Possible(gained)) => ConditionChange::Differs {
            lost,
            gained,
        },
        (lost, gained) => ConditionChange::NotKnown { lost, gained },
    }
}

/// How a changed condition is related to the old one, in at most these steps, but at least `LEAST_STEPS` a question. Subtracts the
/// steps that it takes.
pub(crate) fn settle(
    alloc: Global,
    old: &Cond,
    new: &Cond,
    steps: &mut u32,
) -> Result<ConditionChange, AllocError>
    ensures { IfOk result (IsConditionChange (condition_of old.now) (condition_of new.now)) }
{
    if same_by_form(old, new) {
        return Ok(ConditionChange::Same);
    }
    let lost = chance(alloc, old, new, steps)?;
    let gained = chance(alloc, new, old, steps)?;
    match (&lost, &gained) {
        (Chance::Never, Chance::Never) => change_of_alike(alloc, old, new, steps),
        _ => Ok(change_by(lost, gained)),
    }
}

/// How a changed condition is related to the old one, for every history of packets and agings. A question with at most twelve different
/// comparisons and known-comparisons is always decided. The only error is a lack of memory.
pub fn judge_change(alloc: Global, old: &Cond, new: &Cond) -> Result<ConditionChange, AllocError>
    ensures { IfOk result (IsConditionChange (condition_of old.now) (condition_of new.now)) }
{
    let mut steps = CALL_STEPS;
    settle(alloc, old, new, &mut steps)
}
