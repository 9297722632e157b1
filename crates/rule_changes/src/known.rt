//! Questions about two conditions. Each comparison stands together with a known-comparison: one that is true where it is known.

ghost use Rattle.std.specs.Prelude.{◌≡◌, ◌≤◌, ◌+◌, IfOk, length, min, if◌then◌else◌};
ghost use Rattle.std.specs.List.{list_any};
ghost use Rattle.lc_model.specs.Condition.{And, Join, Or, Watch, condition_of};
ghost use Rattle.lc_model.specs.Laws.Lifted.{lifted};
ghost use Rattle.rule_changes.specs.Known.{is_known_alike, is_of_no_packet, known_by, known_number, known_term, lifted_size, most_comparisons, only_first, terms_of_both};

use lc_model::{CmpOp, Cond, FieldType, Term};
use rule_analysis::comparisons_of;
use std::alloc::{AllocError, Global};

/// The message id of known-comparisons. It is no telemetry.
pub(crate) const KNOWN_MID: u16 = 0;

/// The most comparisons that a question may have.
pub(crate) const MOST_COMPARISONS: usize = 4096;

/// Whether both comparisons are known after the same histories: they read one field, and have one stale age.
pub(crate) fn are_known_alike(one: &Term, other: &Term) -> bool
    ensures { result ≡ is_known_alike one.now other.now }
{
    one.kind.code() == other.kind.code()
        && one.mid == other.mid
        && one.offset == other.offset
        && one.mask == other.mask
        && one.stale == other.stale
}

/// The number of the first of the terms that is known after the same histories as this one; their count if none is.
pub(crate) fn known_number(terms: &[Term], term: &Term) -> usize
    ensures exact { result ≡ known_number terms.now term.now }
    ensures few { result ≤ length terms.now }
{
    for i in 0..terms.len() {
        if are_known_alike(term, &terms[i]) {
            return i;
        }
    }
    terms.len()
}

/// The known-comparison of the terms with this number.
pub(crate) fn known_term(number: usize) -> Term
    requires { number ≤ most_comparisons }
    ensures { result ≡ known_term number }
{
    Term {
        kind: FieldType::U8,
        mid: KNOWN_MID,
        offset: number as u32,
        mask: 1,
        stale: 0,
        op: CmpOp::Equal,
        value: 1,
    }
}

/// Both conditions, or at least one.
fn all_or_any(alloc: Global, all: bool, first: Cond, second: Cond) -> Result<Cond, AllocError>
    ensures { IfOk result (λ made. condition_of made ≡
        Join (if all then And else Or) (condition_of first) (condition_of second)) }
{
    let operands = Box::new(alloc, (first, second))?;
    if all {
        Ok(Cond::And(operands))
    } else {
        Ok(Cond::Or(operands))
    }
}

/// The condition that the comparison is known and true; for `wanted` false, known and false.
fn lift_term(alloc: Global, terms: &[Term], wanted: bool, term: &Term) -> Result<Cond, AllocError>
    requires { length terms.now ≤ most_comparisons }
    ensures { IfOk result (λ made. condition_of made ≡
        lifted (known_by terms.now) wanted (Watch term.now)) }
{
    let known = Cond::Watch(known_term(known_number(terms, term)));
    let own = Cond::Watch(*term);
    if wanted {
        all_or_any(alloc, true, known, own)
    } else {
        let opposite = Cond::Not(Box::new(alloc, own)?);
        all_or_any(alloc, true, known, opposite)
    }
}

/// The condition, of two values over known fields, that this one is true; for `wanted` false, that it is false.
fn lift(alloc: Global, terms: &[Term], wanted: bool, cond: &Cond) -> Result<Cond, AllocError>
    requires { length terms.now ≤ most_comparisons }
    ensures { IfOk result (λ made. condition_of made ≡
        lifted (known_by terms.now) wanted (condition_of cond.now)) }
{
    match cond {
        Cond::Watch(term) => lift_term(alloc, terms, wanted, term),
        Cond::Not(operand) => lift(alloc, terms, !wanted, operand),
        Cond::And(operands) => {
            let first = lift(alloc, terms, wanted, &operands.0)?;
            let second = lift(alloc, terms, wanted, &operands.1)?;
            all_or_any(alloc, wanted, first, second)
        }
        Cond::Or(operands) => {
            let first = lift(alloc, terms, wanted, &operands.0)?;
            let second = lift(alloc, terms, wanted, &operands.1)?;
            all_or_any(alloc, !wanted, first, second)
        }
        Cond::Xor(operands) => {
            let is_true = lift(alloc, terms, true, &operands.0)?;
            let fits_true = lift(alloc, terms, !wanted, &operands.1)?;
            let one = all_or_any(alloc, true, is_true, fits_true)?;
            let is_false = lift(alloc, terms, false, &operands.0)?;
            let fits_false = lift(alloc, terms, wanted, &operands.1)?;
            let other = all_or_any(alloc, true, is_false, fits_false)?;
            all_or_any(alloc, false, one, other)
        }
    }
}

/// The question whether the first condition can be true (or false, for `wanted` false) where the second one is not.
pub(crate) fn only_first(
    alloc: Global,
    terms: &[Term],
    wanted: bool,
    first: &Cond,
    second: &Cond,
) -> Result<Cond, AllocError>
    requires { length terms.now ≤ most_comparisons }
    ensures { IfOk result (λ made. condition_of made ≡
        only_first terms.now wanted (condition_of first.now) (condition_of second.now)) }
{
    let first = lift(alloc, terms, wanted, first)?;
    let second = lift(alloc, terms, wanted, second)?;
    let opposite = Cond::Not(Box::new(alloc, second)?);
    all_or_any(alloc, true, first, opposite)
}

/// The number of comparisons of a lifted condition, but no more than one over the most.
pub(crate) fn size_of(cond: &Cond) -> usize
    ensures { result ≡ min (lifted_size (condition_of cond.now)) (most_comparisons + 1) }
{
    match cond {
        Cond::Watch(_) => 2,
        Cond::Not(operand) => size_of(operand),
        Cond::And(operands) | Cond::Or(operands) => {
            (size_of(&operands.0) + size_of(&operands.1)).min(MOST_COMPARISONS + 1)
        }
        Cond::Xor(operands) => {
            (2 * (size_of(&operands.0) + size_of(&operands.1))).min(MOST_COMPARISONS + 1)
        }
    }
}

/// The comparisons of both conditions.
pub(crate) fn terms_of_both(
    alloc: Global,
    first: &Cond,
    second: &Cond,
) -> Result<Vec<Term>, AllocError>
    ensures { IfOk result (λ terms. terms.items ≡
        terms_of_both (condition_of first.now) (condition_of second.now)) }
{
    let mut terms = comparisons_of(alloc, first)?;
    let others = comparisons_of(alloc, second)?;
    terms.extend_from_slice(&others)?;
    Ok(terms)
}

/// Whether one of the comparisons reads packets that are no telemetry, with the message id of known-comparisons.
pub(crate) fn is_any_of_no_packet(terms: &[Term]) -> bool
    ensures { result ≡ list_any is_of_no_packet terms.now }
{
    for term in terms {
        if term.mid == KNOWN_MID {
            return true;
        }
    }
    false
}
