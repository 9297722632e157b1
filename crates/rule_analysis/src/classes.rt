//! A few values of a field that stand for all its values.

ghost use Rattle.std.specs.Prelude.{◌≡◌, ◌==◌, ℕ, Contains, IfOk, IsFalse, IsTrue, OnOk, filter, length};
ghost use Rattle.std.specs.List.{AllByRecursion};
ghost use Rattle.rule_analysis.specs.Classes.{Covers, RepresentAll, SaysTheSame};
ghost use Rattle.rule_analysis.specs.Fields.{field_number};
ghost use Rattle.rule_analysis.specs.Search.{AreRepresented};
ghost use Rattle.rule_analysis.specs.Steps.{AreApart, AreNotMany, says_alike};

use crate::fields::{Field, number, reads};
use crate::numbers::next_bits;
use crate::outcomes::says_the_same;
use crate::thresholds::thresholds_of;
use lc_model::Term;
use std::alloc::{AllocError, Global};

/// Whether for one of the numbers kept each comparison has the same outcome as for this one.
fn is_represented(kept: &[u32], terms: &[Term], bits: u32) -> bool
    ensures one { IsTrue result →
        (candidate : ℕ) × Contains kept.now candidate × AllByRecursion (λ t.
        SaysTheSame t candidate bits) terms.now }
    ensures none { IsFalse result → AllByRecursion (λ candidate.
        IsFalse (says_alike terms.now candidate bits)) kept.now }
{
    for one in kept {
        if says_the_same(terms, *one, bits) {
            return true;
        }
    }
    false
}

/// Adds the least number that fits the mask and reaches the threshold to those kept, unless one of them stands for it.
fn keep(kept: &mut Vec<u32>, terms: &[Term], mask: u32, threshold: u64) -> Result<(), AllocError>
    ensures covers { OnOk result (Covers terms.now mask kept.new.items threshold) }
    ensures apart { OnOk result (AreApart terms.now kept.old.items →
        AreApart terms.now kept.new.items) }
    ensures others { OnOk result ((n : ℕ) → Covers terms.now mask kept.old.items n →
        Covers terms.now mask kept.new.items n) }
{
    if let Some(bits) = next_bits(u64::from(mask), threshold) {
        let bits = bits as u32;
        if !is_represented(kept, terms, bits) {
            kept.push(bits)?;
        }
    }
    Ok(())
}

/// A few numbers that stand for all numbers of a field with this mask: for each number its comparisons have the same outcomes as for
/// one of these.
fn candidates(alloc: Global, terms: &[Term], mask: u32) -> Result<Vec<u32>, AllocError>
    requires { AllByRecursion (λ t. t.mask ≡ mask) terms.now }
    ensures represent { IfOk result (λ kept. RepresentAll terms.now kept.items) }
    ensures apart { IfOk result (λ kept. AreApart terms.now kept.items) }
{
    let mut kept = Vec::new(alloc);
    keep(&mut kept, terms, mask, 0)?;
    for threshold in &thresholds_of(alloc, terms)? {
        keep(&mut kept, terms, mask, *threshold)?;
    }
    Ok(kept)
}

/// Whether the term may read the field of this number: a test that is quicker than the search for the term's number.
fn may_read(term: &Term, fields: &[Field], field: usize) -> bool
    ensures { IsFalse result → IsFalse (field_number fields.now term.now == field) }
{
    match fields.get(field) {
        Some(field) => reads(term, field),
        None => true,
    }
}

/// The terms that read the field of this number.
pub(crate) fn readers(
    alloc: Global,
    terms: &[Term],
    fields: &[Field],
    field: usize,
) -> Result<Vec<Term>, AllocError>
    ensures { IfOk result (λ own. own.items ≡ filter (λ t.
        field_number fields.now t == field) terms.now) }
{
    let mut own = Vec::new(alloc);
    for term in terms {
        if may_read(term, fields, field) && number(fields, term) == field {
            own.push(*term)?;
        }
    }
    Ok(own)
}

/// For each field a few numbers that stand for all.
pub(crate) fn rows_of(
    alloc: Global,
    terms: &[Term],
    fields: &[Field],
) -> Result<Vec<Vec<u32>>, AllocError>
    ensures represent { IfOk result (λ rows.
        AreRepresented (field_number fields.now) terms.now rows.items) }
    ensures few { IfOk result (λ rows.
        AreNotMany (field_number fields.now) terms.now rows.items) }
    ensures each { IfOk result (λ rows. length rows.items ≡ length fields.now) }
{
    let mut rows = Vec::new(alloc);
    for field in 0..fields.len() {
        let own = readers(alloc, terms, fields, field)?;
        rows.push(candidates(alloc, &own, fields[field].mask)?)?;
    }
    Ok(rows)
}
