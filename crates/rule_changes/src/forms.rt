//! Conditions that have the same truth by their form, whatever packets come.

ghost use Rattle.std.specs.Prelude.{◌≡◌, ◌≤◌, ◌+◌, IsTrue};
ghost use Rattle.lc_model.specs.Condition.{Join, Xor, condition_of};
ghost use Rattle.rule_changes.specs.Forms.{AreSame, Covers, equal_trees, signed};

use crate::comparisons::{are_one, say_the_same};
use lc_model::Cond;

/// The most pairs of conditions that are compared.
const FORM_STEPS: u32 = 1 << 16;

/// Takes a step, if one is left.
fn take_step(steps: &mut u32) -> bool
    ensures kept { steps.new ≤ steps.old }
    ensures taken { IsTrue result → steps.new + 1 ≡ steps.old }
{
    if *steps == 0 {
        return false;
    }
    *steps -= 1;
    true
}

/// Whether an operand of the first condition, which is a chain of `and` (for `all`) or of `or`, has the same truth as the second
/// condition. A condition that is no such chain is its own operand.
#[cycle(forms)]
fn has(
    all: bool,
    whole: &Cond,
    whole_negated: bool,
    operand: &Cond,
    operand_negated: bool,
    steps: &mut u32,
) -> bool
    ensures covers { IsTrue result → Covers all (signed whole_negated (condition_of whole.now))
        (signed operand_negated (condition_of operand.now)) }
    ensures kept { steps.new ≤ steps.old }
{
    if !take_step(steps) {
        return false;
    }
    match whole {
        Cond::Not(opposite) => has(
            all,
            opposite,
            !whole_negated,
            operand,
            operand_negated,
            steps,
        ),
        Cond::And(parts) if all != whole_negated => {
            has(
                all,
                &parts.0,
                whole_negated,
                operand,
                operand_negated,
                steps,
            ) || has(
                all,
                &parts.1,
                whole_negated,
                operand,
                operand_negated,
                steps,
            )
        }
        Cond::Or(parts) if all == whole_negated => {
            has(
                all,
                &parts.0,
                whole_negated,
                operand,
                operand_negated,
                steps,
            ) || has(
                all,
                &parts.1,
                whole_negated,
                operand,
                operand_negated,
                steps,
            )
        }
        _ => are_same(whole, whole_negated, operand, operand_negated, steps),
    }
}

/// Whether each operand of the second condition has the same truth as an operand of the first one. Both are chains of `and` (for `all`)
/// or of `or`; a condition that is none is its own operand.
#[cycle(forms)]
fn has_all(
    all: bool,
    whole: &Cond,
    whole_negated: bool,
    part: &Cond,
    part_negated: bool,
    steps: &mut u32,
) -> bool
    ensures covers { IsTrue result → Covers all (signed whole_negated (condition_of whole.now))
        (signed part_negated (condition_of part.now)) }
    ensures kept { steps.new ≤ steps.old }
{
    if !take_step(steps) {
        return false;
    }
    match part {
        Cond::Not(opposite) => has_all(all, whole, whole_negated, opposite, !part_negated, steps),
        Cond::And(parts) if all != part_negated => {
            has_all(all, whole, whole_negated, &parts.0, part_negated, steps)
                && has_all(all, whole, whole_negated, &parts.1, part_negated, steps)
        }
        Cond::Or(parts) if all == part_negated => {
            has_all(all, whole, whole_negated, &parts.0, part_negated, steps)
                && has_all(all, whole, whole_negated, &parts.1, part_negated, steps)
        }
        _ => has(all, whole, whole_negated, part, part_negated, steps),
    }
}

/// Whether each operand of either condition has the same truth as one of the other, in chains of `and` (for `all`) or of `or`.
#[cycle(forms)]
fn are_same_chains(
    all: bool,
    first: &Cond,
    first_negated: bool,
    second: &Cond,
    second_negated: bool,
    steps: &mut u32,
) -> bool
    ensures same { IsTrue result → AreSame (signed first_negated (condition_of first.now))
        (signed second_negated (condition_of second.now)) }
    ensures kept { steps.new ≤ steps.old }
{
    take_step(steps)
        && has_all(all, first, first_negated, second, second_negated, steps)
        && has_all(all, second, second_negated, first, first_negated, steps)
}

/// Whether the operands of two `xor` have the same truths in this order, or opposite ones.
#[cycle(forms)]
fn are_same_pairs(
    left: &Cond,
    right: &Cond,
    is_negated: bool,
    other_left: &Cond,
    other_right: &Cond,
    other_negated: bool,
    steps: &mut u32,
) -> bool
    ensures same { IsTrue result →
        AreSame (signed is_negated (Join Xor (condition_of left.now) (condition_of right.now)))
        (signed other_negated
        (Join Xor (condition_of other_left.now) (condition_of other_right.now))) }
    ensures kept { steps.new ≤ steps.old }
{
    if !take_step(steps) {
        return false;
    }
    if are_same(left, is_negated, other_left, other_negated, steps)
        && are_same(right, false, other_right, false, steps)
    {
        return true;
    }
    are_same(left, !is_negated, other_left, other_negated, steps)
        && are_same(right, true, other_right, false, steps)
}

/// Whether the condition, or its negation, is a chain of `and` (for `all`) or of `or`.
fn is_chain(all: bool, cond: &Cond, is_negated: bool) -> bool {
    match cond {
        Cond::And(_) => all != is_negated,
        Cond::Or(_) => all == is_negated,
        Cond::Watch(_) | Cond::Not(_) | Cond::Xor(_) => false,
    }
}

/// Whether the conditions, or their negations, have the same truth by their form. Operands of `and`, `or` and `xor` may come in any
/// order, those of chains of `and` and of `or` also several times and in any grouping.
#[cycle(forms)]
fn are_same(
    first: &Cond,
    first_negated: bool,
    second: &Cond,
    second_negated: bool,
    steps: &mut u32,
) -> bool
    ensures same { IsTrue result → AreSame (signed first_negated (condition_of first.now))
        (signed second_negated (condition_of second.now)) }
    ensures kept { steps.new ≤ steps.old }
{
    if !take_step(steps) {
        return false;
    }
    match (first, second) {
        (Cond::Not(opposite), _) => are_same(
            opposite,
            !first_negated,
            second,
            second_negated,
            steps,
        ),
        (_, Cond::Not(opposite)) => are_same(
            first,
            first_negated,
            opposite,
            !second_negated,
            steps,
        ),
        (Cond::Watch(one), Cond::Watch(other)) => say_the_same(
            one,
            first_negated,
            other,
            second_negated,
        ),
        (Cond::Xor(one), Cond::Xor(other)) => {
            are_same_pairs(
                &one.0,
                &one.1,
                first_negated,
                &other.0,
                &other.1,
                second_negated,
                steps,
            ) || are_same_pairs(
                &one.0,
                &one.1,
                first_negated,
                &other.1,
                &other.0,
                second_negated,
                steps,
            )
        }
        _ => {
            let all = is_chain(true, first, first_negated)
                || is_chain(true, second, second_negated);
            let any = is_chain(false, first, first_negated)
                || is_chain(false, second, second_negated);
            (all || any)
                && are_same_chains(all, first, first_negated, second, second_negated, steps)
        }
    }
}

/// Whether the conditions are equal as trees.
fn are_equal(first: &Cond, second: &Cond) -> bool
    ensures { result ≡ equal_trees (condition_of first.now) (condition_of second.now) }
{
    match (first, second) {
        (Cond::Watch(one), Cond::Watch(other)) => are_one(one, other),
        (Cond::Not(one), Cond::Not(other)) => are_equal(one, other),
        (Cond::And(one), Cond::And(other)) => {
            are_equal(&one.0, &other.0) && are_equal(&one.1, &other.1)
        }
        (Cond::Or(one), Cond::Or(other)) => {
            are_equal(&one.0, &other.0) && are_equal(&one.1, &other.1)
        }
        (Cond::Xor(one), Cond::Xor(other)) => {
            are_equal(&one.0, &other.0) && are_equal(&one.1, &other.1)
        }
        _ => false,
    }
}

/// Whether the conditions have the same truth by their form, in at most `FORM_STEPS` steps. If not, they may still have.
pub fn same_by_form(first: &Cond, second: &Cond) -> bool
    ensures same { IsTrue result → AreSame (condition_of first.now) (condition_of second.now) }
    ensures itself { IsTrue (equal_trees (condition_of first.now) (condition_of second.now)) →
        IsTrue result }
{
    if are_equal(first, second) {
        return true;
    }
    let mut steps = FORM_STEPS;
    are_same(first, false, second, false, &mut steps)
}
