//! Comparisons that have the same truth, whatever packets come.

ghost use Rattle.std.specs.Prelude.{◌≡◌, ◌==◌, ◌&&◌, not, if◌then◌else◌, ℤ, IsTrue};
ghost use Rattle.std.specs.Ordering.{int_eq};
ghost use Rattle.lc_model.specs.Codes.{operator_code};
ghost use Rattle.lc_model.specs.Condition.{Watch};
ghost use Rattle.lc_model.specs.Field.{compares};
ghost use Rattle.lc_model.specs.Tables.Equation.{same_term};
ghost use Rattle.rule_changes.specs.Forms.{AreSame, signed};

use crate::known::are_known_alike;
use lc_model::{CmpOp, Term};

/// The comparison that is true where this one is false.
fn opposite(op: CmpOp) -> CmpOp
    ensures { (x y : ℤ) → compares result x y ≡ not (compares op x y) }
{
    match op {
        CmpOp::Less => CmpOp::GreaterOrEqual,
        CmpOp::LessOrEqual => CmpOp::Greater,
        CmpOp::NotEqual => CmpOp::Equal,
        CmpOp::Equal => CmpOp::NotEqual,
        CmpOp::GreaterOrEqual => CmpOp::Less,
        CmpOp::Greater => CmpOp::LessOrEqual,
    }
}

/// The same comparison by `<` in place of `<=`, and by `>=` in place of `>`, with the next number.
fn with_next(op: CmpOp, value: i64) -> (CmpOp, i64)
    ensures { (x : ℤ) → compares result.0 x result.1 ≡ compares op x value }
{
    let next = match value.checked_add(1) {
        Some(next) => next,
        None => return (op, value),
    };
    match op {
        CmpOp::LessOrEqual => (CmpOp::Less, next),
        CmpOp::Greater => (CmpOp::GreaterOrEqual, next),
        CmpOp::Less | CmpOp::NotEqual | CmpOp::Equal | CmpOp::GreaterOrEqual => (op, value),
    }
}

/// One form for all comparisons of a field that say the same as this one, or as its negation.
fn form(term: &Term, is_negated: bool) -> (CmpOp, i64)
    ensures { (x : ℤ) → compares result.0 x result.1 ≡
        (if is_negated then not (compares term.now.op x term.now.value)
        else compares term.now.op x term.now.value) }
{
    if is_negated {
        with_next(opposite(term.op), term.value)
    } else {
        with_next(term.op, term.value)
    }
}

/// Whether the terms are equal.
pub(crate) fn are_one(one: &Term, other: &Term) -> bool
    ensures { result ≡ same_term one.now other.now }
{
    are_known_alike(one, other) && one.op.code() == other.op.code() && one.value == other.value
}

/// Whether two forms are equal.
fn are_equal(one: (CmpOp, i64), other: (CmpOp, i64)) -> bool
    ensures { result ≡
        ((operator_code one.0 == operator_code other.0) && int_eq one.1 other.1) }
{
    one.0.code() == other.0.code() && one.1 == other.1
}

/// Whether the terms, or their negations, have the same truth after every history.
pub(crate) fn say_the_same(
    first: &Term,
    first_negated: bool,
    second: &Term,
    second_negated: bool,
) -> bool
    ensures { IsTrue result → AreSame (signed first_negated (Watch first.now))
        (signed second_negated (Watch second.now)) }
{
    if !are_known_alike(first, second) {
        return false;
    }
    let one = form(first, first_negated);
    let other = form(second, second_negated);
    are_equal(one, other)
}
