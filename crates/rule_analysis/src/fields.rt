//! The fields that a condition reads.

ghost use Rattle.std.specs.Prelude.{◌≡◌, ◌++◌, Contains, IsTrue, List, length};
ghost use Rattle.std.specs.Prelude.{IfOk, OnOk};
ghost use Rattle.std.specs.List.{AllByRecursion, list_any};
ghost use Rattle.lc_model.specs.Condition.{condition_of};
ghost use Rattle.lc_model.specs.Tables.Equation.{mentions};
ghost use Rattle.lc_model.specs.declared.field.Term.{Term as Comparison};
ghost use Rattle.rule_analysis.specs.Fields.{AreFieldsOf, HasField, field_number, field_read, is_field_of};

use lc_model::{Cond, FieldType, Term};
use std::alloc::{AllocError, Global};

/// A field of packets. Two watchpoints that read the same bits of the same packets have the same field.
#[derive(Clone, Copy, Debug, PartialEq, Eq)]
pub struct Field {
    /// The field's type.
    pub kind: FieldType,
    /// The message id of the packets that have the field.
    pub mid: u16,
    /// The number of bytes from the packet's first byte to the field.
    pub offset: u32,
    /// The bits of the field that are read.
    pub mask: u32,
}

/// The field that the term reads.
pub fn field_of(term: &Term) -> Field
    ensures reads { IsTrue (is_field_of term.now result) }
    ensures exact { result ≡ field_read term.now }
{
    Field {
        kind: term.kind,
        mid: term.mid,
        offset: term.offset,
        mask: term.mask,
    }
}

/// Whether the term reads the field.
pub(crate) fn reads(term: &Term, field: &Field) -> bool
    ensures { result ≡ is_field_of term.now field.now }
{
    // The offset tells most fields apart.
    term.offset == field.offset
        && term.mid == field.mid
        && term.mask == field.mask
        && term.kind.code() == field.kind.code()
}

/// Whether one of the terms reads the field.
pub(crate) fn is_read(terms: &[Term], field: &Field) -> bool
    ensures { result ≡ list_any (λ t. is_field_of t field.now) terms.now }
{
    for term in terms {
        if reads(term, field) {
            return true;
        }
    }
    false
}

/// The index of the field that the term reads; the number of fields if it reads none of them.
pub(crate) fn number(fields: &[Field], term: &Term) -> usize
    ensures { result ≡ field_number fields.now term.now }
{
    for i in 0..fields.len() {
        if reads(term, &fields[i]) {
            return i;
        }
    }
    fields.len()
}

/// Appends the condition's terms from left to right.
pub(crate) fn collect(cond: &Cond, terms: &mut Vec<Term>) -> Result<(), AllocError>
    ensures { OnOk result (terms.new.items ≡ terms.old.items ++ mentions (condition_of cond.now)) }
{
    match cond {
        Cond::Watch(term) => Ok(terms.push(*term)?),
        Cond::Not(operand) => collect(operand, terms),
        Cond::And(operands) | Cond::Or(operands) | Cond::Xor(operands) => {
            collect(&operands.0, terms)?;
            collect(&operands.1, terms)
        }
    }
}

/// Adds the term's field to the others, unless it is among them.
fn add(fields: &mut Vec<Field>, term: &Term) -> Result<(), AllocError>
    ensures there { OnOk result (HasField fields.new.items term.now) }
    ensures others { OnOk result ((t : Term) → HasField fields.old.items t →
        HasField fields.new.items t) }
    ensures exact { OnOk result ((terms : List Comparison) → Contains terms term.now →
        AreFieldsOf terms fields.old.items → AreFieldsOf terms fields.new.items) }
{
    if number(fields, term) == fields.len() {
        fields.push(field_of(term))?;
    }
    Ok(())
}

/// How many of the terms read the same field as each of them.
fn readers(alloc: Global, terms: &[Term]) -> Result<Vec<usize>, AllocError>
    ensures { IfOk result (λ counts. length counts.items ≡ length terms.now) }
{
    let mut counts = Vec::new(alloc);
    for term in terms {
        let field = field_of(term);
        counts.push(terms.iter().filter(|other| reads(other, &field)).count())?;
    }
    Ok(counts)
}

/// The greatest of the counts; 0 if there are none.
fn most_of(counts: &[usize]) -> usize {
    let mut most = 0;
    for count in counts {
        most = (*count).max(most);
    }
    most
}

/// Adds the term's field to the others if `count` terms read it, which are `readers`.
fn add_where(
    fields: &mut Vec<Field>,
    term: &Term,
    readers: usize,
    count: usize,
) -> Result<(), AllocError>
    ensures { OnOk result ((terms : List Comparison) → Contains terms term.now →
        AreFieldsOf terms fields.old.items → AreFieldsOf terms fields.new.items) }
{
    if readers == count {
        add(fields, term)?;
    }
    Ok(())
}

/// Adds the fields that exactly `count` terms read.
fn add_read_by(
    fields: &mut Vec<Field>,
    terms: &[Term],
    readers: &[usize],
    count: usize,
) -> Result<(), AllocError>
    requires each { length readers.now ≡ length terms.now }
    ensures { OnOk result (AreFieldsOf terms.now fields.old.items →
        AreFieldsOf terms.now fields.new.items) }
{
    for i in 0..terms.len() {
        add_where(fields, &terms[i], readers[i], count)?;
    }
    Ok(())
}

/// Adds the fields of all terms to the others.
fn add_all(fields: &mut Vec<Field>, terms: &[Term]) -> Result<(), AllocError>
    ensures all { OnOk result (AllByRecursion (λ t. HasField fields.new.items t) terms.now) }
    ensures exact { OnOk result (AreFieldsOf terms.now fields.old.items →
        AreFieldsOf terms.now fields.new.items) }
{
    for term in terms {
        add(fields, term)?;
    }
    Ok(())
}

/// The fields that the terms read, each once. Those that more terms read come first.
pub(crate) fn fields_of(alloc: Global, terms: &[Term]) -> Result<Vec<Field>, AllocError>
    ensures all { IfOk result (λ fields. AllByRecursion (λ t. HasField fields.items t) terms.now) }
    ensures exact { IfOk result (λ fields. AreFieldsOf terms.now fields.items) }
{
    let readers = readers(alloc, terms)?;
    let most = most_of(&readers);
    let mut fields = Vec::new(alloc);
    for less in 0..most {
        add_read_by(&mut fields, terms, &readers, most - less)?;
    }
    add_all(&mut fields, terms)?;
    Ok(fields)
}
