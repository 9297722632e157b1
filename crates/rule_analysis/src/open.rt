//! What is left of a condition when some of its fields have bits.

ghost use Rattle.std.specs.Prelude.{◌≡◌, ◌≢◌, ℕ, IfOk, IsTrue};
ghost use Rattle.lc_model.specs.declared.truth.Truth.{Truth as AnyTruth};
ghost use Rattle.lc_model.specs.declared.truth.Truth.TheVariants.{True};
ghost use Rattle.lc_model.specs.declared.field.Term.{Term as Comparison};
ghost use Rattle.lc_model.specs.Condition.{And, Not, Or, Xor, condition_of};
ghost use Rattle.lc_model.specs.Truth.{truth_not};
ghost use Rattle.lc_model.specs.LimitChecker.Watch.{combined, truth_by};
ghost use Rattle.rule_analysis.specs.Fields.{field_number};
ghost use Rattle.rule_analysis.specs.Open.{AreOf, AreOfBoth, AreOfBothLeft, AreOfLeft, Has, HasBits, HasLeft, left_of, truth_left};

use crate::conditions::are_one;
use crate::fields::{Field, number};
use crate::outcomes::holds;
use lc_model::{Cond, Term};
use std::alloc::{AllocError, Global};

/// A condition over fields that have no bits yet.
#[derive(Drop)]
pub(crate) enum Open {
    /// One comparison, with the number of its field.
    Compare { field: usize, term: Term },
    /// The opposite of the operand.
    Not(Box<Open>),
    /// Both operands.
    And(Box<(Open, Open)>),
    /// At least one operand.
    Or(Box<(Open, Open)>),
    /// Exactly one operand.
    Xor(Box<(Open, Open)>),
}

/// What is left of a condition.
#[derive(Drop)]
pub(crate) enum Left {
    /// Nothing: it has this result, whatever the other fields have.
    Known(bool),
    /// A condition over the other fields.
    Open(Open),
}

/// The condition, with the numbers of its fields.
pub(crate) fn open_of(alloc: Global, cond: &Cond, fields: &[Field]) -> Result<Open, AllocError>
    ensures same { IfOk result (λ made. left_of made ≡ condition_of cond.now) }
    ensures numbered { IfOk result (λ made. (at : ℕ) → (t : Comparison) → Has made at t →
        field_number fields.now t ≡ at) }
{
    match cond {
        Cond::Watch(term) => Ok(Open::Compare {
            field: number(fields, term),
            term: *term,
        }),
        Cond::Not(operand) => {
            let operand = open_of(alloc, operand, fields)?;
            Ok(Open::Not(Box::new(alloc, operand)?))
        }
        Cond::And(operands) => {
            let first = open_of(alloc, &operands.0, fields)?;
            let second = open_of(alloc, &operands.1, fields)?;
            Ok(Open::And(Box::new(alloc, (first, second))?))
        }
        Cond::Or(operands) => {
            let first = open_of(alloc, &operands.0, fields)?;
            let second = open_of(alloc, &operands.1, fields)?;
            Ok(Open::Or(Box::new(alloc, (first, second))?))
        }
        Cond::Xor(operands) => {
            let first = open_of(alloc, &operands.0, fields)?;
            let second = open_of(alloc, &operands.1, fields)?;
            Ok(Open::Xor(Box::new(alloc, (first, second))?))
        }
    }
}

/// The opposite of a condition; two negations cancel each other.
fn negated(alloc: Global, operand: Open) -> Result<Open, AllocError>
    ensures truth { IfOk result (λ made. (found : Comparison → AnyTruth) →
        truth_by found (left_of made) ≡ truth_not (truth_by found (left_of operand))) }
    ensures terms { IfOk result (AreOf operand) }
{
    match operand {
        Open::Not(inner) => Ok(Box::into_inner(inner)),
        other => Ok(Open::Not(Box::new(alloc, other)?)),
    }
}

/// The opposite of what is left.
fn not_left(alloc: Global, operand: Left) -> Result<Left, AllocError>
    ensures truth { IfOk result (λ left. (found : Comparison → AnyTruth) →
        truth_left found left ≡ truth_not (truth_left found operand)) }
    ensures terms { IfOk result (AreOfLeft operand) }
{
    match operand {
        Left::Known(value) => Ok(Left::Known(!value)),
        Left::Open(operand) => Ok(Left::Open(negated(alloc, operand)?)),
    }
}

/// Both of what is left.
fn both_left(alloc: Global, first: Left, second: Left) -> Result<Left, AllocError>
    ensures truth { IfOk result (λ left. (found : Comparison → AnyTruth) →
        truth_left found left ≡ combined And (truth_left found first) (truth_left found second)) }
    ensures terms { IfOk result (AreOfBothLeft first second) }
{
    match (first, second) {
        (Left::Known(false), _) => Ok(Left::Known(false)),
        (Left::Known(true), second) => Ok(second),
        (_, Left::Known(false)) => Ok(Left::Known(false)),
        (first, Left::Known(true)) => Ok(first),
        (Left::Open(first), Left::Open(second)) => Ok(Left::Open(Open::And(Box::new(
            alloc,
            (first, second),
        )?))),
    }
}

/// One of what is left, or both.
fn either_left(alloc: Global, first: Left, second: Left) -> Result<Left, AllocError>
    ensures truth { IfOk result (λ left. (found : Comparison → AnyTruth) →
        truth_left found left ≡ combined Or (truth_left found first) (truth_left found second)) }
    ensures terms { IfOk result (AreOfBothLeft first second) }
{
    match (first, second) {
        (Left::Known(true), _) => Ok(Left::Known(true)),
        (Left::Known(false), second) => Ok(second),
        (_, Left::Known(true)) => Ok(Left::Known(true)),
        (first, Left::Known(false)) => Ok(first),
        (Left::Open(first), Left::Open(second)) => Ok(Left::Open(Open::Or(Box::new(
            alloc,
            (first, second),
        )?))),
    }
}

/// One of two conditions and not both. A negation of an operand stands around the whole.
fn one_open(alloc: Global, first: Open, second: Open) -> Result<Open, AllocError>
    ensures truth { IfOk result (λ made. (found : Comparison → AnyTruth) →
        truth_by found (left_of made) ≡
        combined Xor (truth_by found (left_of first)) (truth_by found (left_of second))) }
    ensures terms { IfOk result (AreOfBoth first second) }
{
    match (first, second) {
        (Open::Not(first), Open::Not(second)) => Ok(Open::Xor(Box::new(
            alloc,
            (Box::into_inner(first), Box::into_inner(second)),
        )?)),
        (Open::Not(first), second) => {
            let both = Open::Xor(Box::new(alloc, (Box::into_inner(first), second))?);
            Ok(Open::Not(Box::new(alloc, both)?))
        }
        (first, Open::Not(second)) => {
            let both = Open::Xor(Box::new(alloc, (first, Box::into_inner(second)))?);
            Ok(Open::Not(Box::new(alloc, both)?))
        }
        (first, second) => Ok(Open::Xor(Box::new(alloc, (first, second))?)),
    }
}

/// One of what is left, and not both.
fn one_left(alloc: Global, first: Left, second: Left) -> Result<Left, AllocError>
    ensures truth { IfOk result (λ left. (found : Comparison → AnyTruth) →
        truth_left found left ≡ combined Xor (truth_left found first) (truth_left found second)) }
    ensures terms { IfOk result (AreOfBothLeft first second) }
{
    match (first, second) {
        (Left::Known(false), second) => Ok(second),
        (first, Left::Known(false)) => Ok(first),
        (Left::Known(true), second) => not_left(alloc, second),
        (first, Left::Known(true)) => not_left(alloc, first),
        (Left::Open(first), Left::Open(second)) => Ok(Left::Open(one_open(alloc, first, second)?)),
    }
}

/// What is left of a condition when the field with this number has these bits.
pub(crate) fn settle(
    alloc: Global,
    tree: &Open,
    field: usize,
    bits: u32,
) -> Result<Left, AllocError>
    ensures truth { IfOk result (λ left. (found : Comparison → AnyTruth) →
        HasBits found field bits tree.now →
        truth_left found left ≡ truth_by found (left_of tree.now)) }
    ensures terms { IfOk result (λ left. (at : ℕ) → (t : Comparison) → HasLeft left at t →
        Has tree.now at t × (at ≢ field)) }
{
    match tree {
        Open::Compare { field: own, term } => if *own == field {
            Ok(Left::Known(holds(term, bits)))
        } else {
            Ok(Left::Open(Open::Compare {
                field: *own,
                term: *term,
            }))
        },
        Open::Not(operand) => {
            let operand = settle(alloc, operand, field, bits)?;
            not_left(alloc, operand)
        }
        Open::And(operands) => {
            let first = settle(alloc, &operands.0, field, bits)?;
            let second = settle(alloc, &operands.1, field, bits)?;
            both_left(alloc, first, second)
        }
        Open::Or(operands) => {
            let first = settle(alloc, &operands.0, field, bits)?;
            let second = settle(alloc, &operands.1, field, bits)?;
            either_left(alloc, first, second)
        }
        Open::Xor(operands) => {
            let first = settle(alloc, &operands.0, field, bits)?;
            let second = settle(alloc, &operands.1, field, bits)?;
            one_left(alloc, first, second)
        }
    }
}

/// Whether a condition is true if its fields have these bits; without bits for its field a comparison is false.
pub(crate) fn is_true(tree: &Open, bits: &[u32]) -> bool {
    match tree {
        Open::Compare { field, term } => match bits.get(*field) {
            None => false,
            Some(bits) => holds(term, *bits),
        },
        Open::Not(operand) => !is_true(operand, bits),
        Open::And(operands) => is_true(&operands.0, bits) && is_true(&operands.1, bits),
        Open::Or(operands) => is_true(&operands.0, bits) || is_true(&operands.1, bits),
        Open::Xor(operands) => is_true(&operands.0, bits) != is_true(&operands.1, bits),
    }
}

/// Whether both are the same condition.
pub(crate) fn are_same(first: &Open, second: &Open) -> bool
    ensures { IsTrue result → left_of first.now ≡ left_of second.now }
{
    match (first, second) {
        (Open::Compare { term: one, .. }, Open::Compare { term: other, .. }) => are_one(one, other),
        (Open::Not(one), Open::Not(other)) => are_same(one, other),
        (Open::And(one), Open::And(other)) => are_same(&one.0, &other.0)
            && are_same(&one.1, &other.1),
        (Open::Or(one), Open::Or(other)) => are_same(&one.0, &other.0)
            && are_same(&one.1, &other.1),
        (Open::Xor(one), Open::Xor(other)) => are_same(&one.0, &other.0)
            && are_same(&one.1, &other.1),
        _ => false,
    }
}

/// Whether the first condition is the second one's negation.
fn is_negation(first: &Open, second: &Open) -> bool
    ensures { IsTrue result → left_of first.now ≡ Not (left_of second.now) }
{
    match first {
        Open::Not(operand) => are_same(operand, second),
        Open::Compare { .. } | Open::And(_) | Open::Or(_) | Open::Xor(_) => false,
    }
}

/// Whether both operands of a condition contradict each other, whatever their results are.
pub(crate) fn is_contradiction(tree: &Open) -> bool
    ensures { IsTrue result →
        (found : Comparison → AnyTruth) → truth_by found (left_of tree.now) ≢ True }
{
    match tree {
        Open::And(operands) => {
            is_negation(&operands.0, &operands.1) || is_negation(&operands.1, &operands.0)
        }
        Open::Xor(operands) => are_same(&operands.0, &operands.1),
        Open::Compare { .. } | Open::Not(_) | Open::Or(_) => false,
    }
}
