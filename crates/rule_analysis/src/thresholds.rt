//! The numbers at which the outcome of a comparison changes.

ghost use Rattle.std.specs.Prelude.{◌≡◌, ◌≤◌, ◌<◌, ◌^◌, ◌-ℤ◌, ℕ, int_le, int_lt, nat_le, pos, IfOk, OnOk};
ghost use Rattle.std.specs.List.{AllByRecursion};
ghost use Rattle.lc_model.specs.declared.field.Term.{Term as Comparison};
ghost use Rattle.rule_analysis.specs.Classes.{Separates};

use lc_model::Term;
use std::alloc::{AllocError, Global};

/// Greater than any value of a field, of either sign.
const BEYOND: i64 = 1 << 33;

/// The number, or 0 if it is negative.
fn at_least_zero(number: i64) -> u64
    ensures { (n : ℕ) → nat_le result n ≡ int_le number (pos n) }
{
    if number < 0 { 0 } else { number as u64 }
}

/// The least number that, less the shift, is at least the term's value; 2^32 or more if no 32-bit number is.
fn first_from(term: &Term, shift: u64) -> u64
    requires { shift ≤ 2 ^ 32 }
    ensures { (n : ℕ) → n < 2 ^ 32 → nat_le result n ≡ int_le term.now.value (pos n -ℤ pos shift) }
{
    let value = term.value;
    if value > BEYOND {
        BEYOND as u64
    } else if value < -BEYOND {
        0
    } else {
        at_least_zero(value + shift as i64)
    }
}

/// The least number that, less the shift, is greater than the term's value; 2^32 or more if no 32-bit number is.
fn first_above(term: &Term, shift: u64) -> u64
    requires { shift ≤ 2 ^ 32 }
    ensures { (n : ℕ) → n < 2 ^ 32 → nat_le result n ≡ int_lt term.now.value (pos n -ℤ pos shift) }
{
    let value = term.value;
    if value > BEYOND {
        BEYOND as u64
    } else if value < -BEYOND {
        0
    } else {
        at_least_zero(value + 1 + shift as i64)
    }
}

/// The numbers at which the outcome of the term's comparison may change.
fn thresholds(term: &Term) -> [u64; 5]
    ensures { Separates result term.now }
{
    let sign = u64::from(term.kind.sign_weight());
    let shift = 2 * sign;
    [
        sign,
        first_from(term, 0),
        first_above(term, 0),
        first_from(term, shift),
        first_above(term, shift),
    ]
}

/// Appends a term's thresholds.
fn push_thresholds(term: &Term, all: &mut Vec<u64>) -> Result<(), AllocError>
    ensures own { OnOk result (Separates all.new.items term.now) }
    ensures others { OnOk result ((t : Comparison) → Separates all.old.items t →
        Separates all.new.items t) }
{
    all.extend_from_slice(&thresholds(term))?;
    Ok(())
}

/// The numbers at which the outcome of one of the comparisons may change.
pub(crate) fn thresholds_of(alloc: Global, terms: &[Term]) -> Result<Vec<u64>, AllocError>
    ensures { IfOk result (λ thresholds. AllByRecursion (λ t.
        Separates thresholds.items t) terms.now) }
{
    let mut all = Vec::new(alloc);
    for term in terms {
        push_thresholds(term, &mut all)?;
    }
    Ok(all)
}
