//! Conditions made of others.

ghost use Rattle.std.specs.Prelude.{◌≡◌, IfOk, IsTrue};
ghost use Rattle.lc_model.specs.Condition.{And, Join, Not, condition_of};
ghost use Rattle.lc_model.specs.Tables.Equation.{same_term};

use lc_model::{Cond, Term};
use std::alloc::{AllocError, Global};

/// A copy of a condition. The only error is a lack of memory.
pub(crate) fn copy_condition(alloc: Global, cond: &Cond) -> Result<Cond, AllocError>
    ensures { IfOk result (λ copy. condition_of copy ≡ condition_of cond.now) }
{
    match cond {
        Cond::Watch(term) => Ok(Cond::Watch(*term)),
        Cond::Not(operand) => {
            let operand = copy_condition(alloc, operand)?;
            Ok(Cond::Not(Box::new(alloc, operand)?))
        }
        Cond::And(operands) => {
            let first = copy_condition(alloc, &operands.0)?;
            let second = copy_condition(alloc, &operands.1)?;
            Ok(Cond::And(Box::new(alloc, (first, second))?))
        }
        Cond::Or(operands) => {
            let first = copy_condition(alloc, &operands.0)?;
            let second = copy_condition(alloc, &operands.1)?;
            Ok(Cond::Or(Box::new(alloc, (first, second))?))
        }
        Cond::Xor(operands) => {
            let first = copy_condition(alloc, &operands.0)?;
            let second = copy_condition(alloc, &operands.1)?;
            Ok(Cond::Xor(Box::new(alloc, (first, second))?))
        }
    }
}

/// Whether the terms are equal.
pub(crate) fn are_one(one: &Term, other: &Term) -> bool
    ensures { result ≡ same_term one.now other.now }
{
    one.kind.code() == other.kind.code()
        && one.mid == other.mid
        && one.offset == other.offset
        && one.mask == other.mask
        && one.stale == other.stale
        && one.op.code() == other.op.code()
        && one.value == other.value
}

/// Whether the conditions are the same, comparison by comparison.
pub(crate) fn are_equal(first: &Cond, second: &Cond) -> bool
    ensures { IsTrue result → condition_of first.now ≡ condition_of second.now }
{
    match (first, second) {
        (Cond::Watch(one), Cond::Watch(other)) => are_one(one, other),
        (Cond::Not(one), Cond::Not(other)) => are_equal(one, other),
        (Cond::And(one), Cond::And(other)) => {
            are_equal(&one.0, &other.0) && are_equal(&one.1, &other.1)
        }
        (Cond::Or(one), Cond::Or(other)) => {
            are_equal(&one.0, &other.0) && are_equal(&one.1, &other.1)
        }
        (Cond::Xor(one), Cond::Xor(other)) => {
            are_equal(&one.0, &other.0) && are_equal(&one.1, &other.1)
        }
        _ => false,
    }
}

/// The condition's negation.
pub(crate) fn negation(alloc: Global, cond: &Cond) -> Result<Cond, AllocError>
    ensures { IfOk result (λ other. condition_of other ≡ Not (condition_of cond.now)) }
{
    let operand = copy_condition(alloc, cond)?;
    Ok(Cond::Not(Box::new(alloc, operand)?))
}

/// The condition that the first one is true and the second one false. The only error is a lack of memory.
pub fn but_not(alloc: Global, first: &Cond, second: &Cond) -> Result<Cond, AllocError>
    ensures { IfOk result (λ both. condition_of both ≡
        Join And (condition_of first.now) (Not (condition_of second.now))) }
{
    let first = copy_condition(alloc, first)?;
    let second = negation(alloc, second)?;
    Ok(Cond::And(Box::new(alloc, (first, second))?))
}
