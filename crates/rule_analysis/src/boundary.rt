//! Values with which a rule fails and passes, next to each other.

ghost use Rattle.std.specs.Prelude.{◌≡◌, IfOk};
ghost use Rattle.lc_model.specs.Condition.{Not, condition_of};
ghost use Rattle.rule_analysis.specs.Findings.{IsFound, rule_steps};

use crate::classes::readers;
use crate::fields::{Field, fields_of, reads};
use crate::finding::Finding;
use crate::judging::comparisons_of;
use crate::numbers::next_bits;
use crate::packets::lay_out;
use crate::seen::{bits_with, shows};
use crate::thresholds::thresholds_of;
use crate::walk::evaluate;
use lc_model::{Cond, Term, Truth};
use std::alloc::{AllocError, Global};

/// A condition with its comparisons and the fields that they read.
#[derive(Clone, Copy)]
struct Subject<'c> {
    cond: &'c Cond,
    terms: &'c [Term],
    fields: &'c [Field],
}

/// The greatest number that is at most `to` and has no bit outside the mask.
fn last_bits(mask: u32, to: u64) -> u32 {
    let mask = u64::from(mask);
    let rest = next_bits(mask, mask.saturating_sub(to)).unwrap_or(mask);
    mask.saturating_sub(rest) as u32
}

/// Bits of a field in packets; 0 if they don't have the field.
fn bits_in(terms: &[Term], field: &Field, packets: &[Vec<u8>]) -> u32 {
    let Some(term) = terms.iter().find(|term| reads(term, field)) else {
        return 0;
    };
    bits_with(term, packets).unwrap_or(0)
}

/// Adds the numbers without a bit outside the mask that are next to a threshold: the greatest below, and the least that reaches it.
fn push_limits(found: &mut Vec<u32>, mask: u32, threshold: u64) -> Result<(), AllocError> {
    found.push(last_bits(mask, threshold.saturating_sub(1)))?;
    if let Some(bits) = next_bits(u64::from(mask), threshold) {
        found.push(bits as u32)?;
    }
    Ok(())
}

impl<'c> Subject<'c> {
    /// The bits of all fields in packets.
    fn bits_in(self, alloc: Global, packets: &[Vec<u8>]) -> Result<Vec<u32>, AllocError> {
        let mut bits = Vec::new(alloc);
        for field in self.fields {
            bits.push(bits_in(self.terms, field, packets))?;
        }
        Ok(bits)
    }

    /// Whether the condition is true if the fields have these bits.
    fn is_true(self, bits: &[u32]) -> bool {
        evaluate(self.cond, self.fields, bits) == Truth::True
    }

    /// The value that bits give the field with this number.
    fn value(self, field: usize, bits: u32) -> i64 {
        match self.fields.get(field) {
            Some(field) => field.kind.signed_value(bits & field.mask),
            None => 0,
        }
    }

    /// The bits of the field with this number at the limits of its comparisons, on both sides, and 0.
    fn bits_at_limits(self, alloc: Global, field: usize) -> Result<Vec<u32>, AllocError> {
        let mut found = Vec::new(alloc);
        found.push(0)?;
        let mask = match self.fields.get(field) {
            Some(field) => field.mask,
            None => return Ok(found),
        };
        let own = readers(alloc, self.terms, self.fields, field)?;
        let thresholds = thresholds_of(alloc, &own)?;
        for threshold in thresholds.as_slice() {
            push_limits(&mut found, mask, *threshold)?;
        }
        Ok(found)
    }

    /// Takes over the bits of `passes`, field by field, until the condition is no more true, and takes the last of them back. Returns
    /// that field's number; `None` if the condition stays true.
    fn last_true(self, bits: &mut [u32], passes: &[u32]) -> Option<usize> {
        for field in 0..bits.len() {
            let before = *bits.get(field)?;
            *bits.get_mut(field)? = *passes.get(field)?;
            if !self.is_true(bits) {
                *bits.get_mut(field)? = before;
                return Some(field);
            }
        }
        None
    }

    /// Whether the condition is true if the field with this number has other bits than these.
    fn is_true_with(self, bits: &mut [u32], field: usize, other: u32) -> bool {
        let Some(place) = bits.get_mut(field) else {
            return false;
        };
        let before = *place;
        *place = other;
        let is_true = self.is_true(bits);
        if let Some(place) = bits.get_mut(field) {
            *place = before;
        }
        is_true
    }

    /// Moves the bits of the field with this number, and those with which the condition is false, towards each other until there is no
    /// limit between them. Returns the latter.
    fn close_in(self, bits: &mut [u32], field: usize, limits: &[u32], passing: u32) -> Option<u32> {
        let mut failing = *bits.get(field)?;
        let mut passing = passing;
        for limit in limits {
            let value = self.value(field, *limit);
            let (one, other) = (self.value(field, failing), self.value(field, passing));
            if value <= one.min(other) || value >= one.max(other) {
                continue;
            }
            if self.is_true_with(bits, field, *limit) {
                failing = *limit;
            } else {
                passing = *limit;
            }
        }
        *bits.get_mut(field)? = failing;
        Some(passing)
    }

    /// How far bits of the field with this number are from zero; a positive value is nearer than its opposite.
    fn distance(self, field: usize, bits: u32) -> u64 {
        let value = self.value(field, bits);
        let sign = u64::from(value < 0);
        value.unsigned_abs().saturating_mul(2).saturating_add(sign)
    }
}

/// Bits of all fields with which a condition is true, and the bits of one field with which it is false.
#[derive(Drop)]
struct Boundary {
    bits: Vec<u32>,
    field: usize,
    passing: u32,
}

impl Boundary {
    /// Whether the condition is true with these bits of another field, and false with those bits of its own.
    fn holds_with(&mut self, subject: Subject<'_>, field: usize, other: u32) -> bool {
        let Some(place) = self.bits.get_mut(field) else {
            return false;
        };
        let before = *place;
        *place = other;
        let is_true = subject.is_true(&self.bits);
        let holds = is_true && !subject.is_true_with(&mut self.bits, self.field, self.passing);
        if let Some(place) = self.bits.get_mut(field) {
            *place = before;
        }
        holds
    }

    /// Gives another field the bits nearest to zero, of these and its own, with which both sides stay as they are.
    fn bring_near(&mut self, subject: Subject<'_>, field: usize, limits: &[u32]) {
        for limit in limits {
            let Some(own) = self.bits.get(field).copied() else {
                return;
            };
            let is_nearer = subject.distance(field, *limit) < subject.distance(field, own);
            if is_nearer && self.holds_with(subject, field, *limit) {
                if let Some(place) = self.bits.get_mut(field) {
                    *place = *limit;
                }
            }
        }
    }

    /// Gives each other field the bits nearest to zero with which both sides stay as they are.
    fn bring_others_near(&mut self, alloc: Global, subject: Subject<'_>) -> Result<(), AllocError> {
        for field in 0..subject.fields.len() {
            if field != self.field {
                let limits = subject.bits_at_limits(alloc, field)?;
                self.bring_near(subject, field, &limits);
            }
        }
        Ok(())
    }

    /// The packets of both sides.
    fn packets(
        mut self,
        alloc: Global,
        fields: &[Field],
    ) -> Result<(Vec<Vec<u8>>, Vec<Vec<u8>>), AllocError> {
        let fails = lay_out(alloc, fields, &self.bits)?;
        if let Some(place) = self.bits.get_mut(self.field) {
            *place = self.passing;
        }
        let passes = lay_out(alloc, fields, &self.bits)?;
        Ok((fails, passes))
    }
}

impl<'c> Subject<'c> {
    /// The boundary between packets with which the condition is true and packets with which it is false; `None` if the values of their
    /// fields don't show it.
    fn boundary(
        self,
        alloc: Global,
        fails: &[Vec<u8>],
        passes: &[Vec<u8>],
    ) -> Result<Option<Boundary>, AllocError> {
        let mut bits = self.bits_in(alloc, fails)?;
        let passing_bits = self.bits_in(alloc, passes)?;
        if !self.is_true(&bits) {
            return Ok(None);
        }
        let Some(field) = self.last_true(&mut bits, &passing_bits) else {
            return Ok(None);
        };
        let Some(passing) = passing_bits.get(field).copied() else {
            return Ok(None);
        };
        let limits = self.bits_at_limits(alloc, field)?;
        let Some(passing) = self.close_in(&mut bits, field, &limits, passing) else {
            return Ok(None);
        };
        let mut found = Boundary {
            bits,
            field,
            passing,
        };
        found.bring_others_near(alloc, self)?;
        Ok(Some(found))
    }
}

/// Packets with which the condition fails and passes, next to each other, from any such packets; `None` if there are none.
fn packets_at_boundary(
    alloc: Global,
    cond: &Cond,
    fails: &[Vec<u8>],
    passes: &[Vec<u8>],
) -> Result<Option<(Vec<Vec<u8>>, Vec<Vec<u8>>)>, AllocError> {
    let terms = comparisons_of(alloc, cond)?;
    let fields = fields_of(alloc, &terms)?;
    let subject = Subject {
        cond,
        terms: &terms,
        fields: &fields,
    };
    match subject.boundary(alloc, fails, passes)? {
        Some(boundary) => Ok(Some(boundary.packets(alloc, &fields)?)),
        None => Ok(None),
    }
}

/// The findings whether a condition can be true and whether its negation `other` can, with packets that differ in one field where such
/// are found: its two values are next to each other, and each other field has a value at a limit of its comparisons, or 0, the one
/// nearest to 0 that serves. The only error is a lack of memory.
pub(crate) fn at_boundary(
    alloc: Global,
    cond: &Cond,
    other: &Cond,
    fails: Finding,
    passes: Finding,
) -> Result<(Finding, Finding), AllocError>
    requires negated { condition_of other.now ≡ Not (condition_of cond.now) }
    requires fails { IsFound (condition_of cond.now) rule_steps fails }
    requires passes { IsFound (Not (condition_of cond.now)) rule_steps passes }
    ensures fails { IfOk result (λ both. IsFound (condition_of cond.now) rule_steps both.0) }
    ensures passes { IfOk result (λ both. IsFound (Not (condition_of cond.now)) rule_steps both.1) }
{
    let found = match (&fails, &passes) {
        (Finding::Possible(fails), Finding::Possible(passes)) => packets_at_boundary(
            alloc, cond, fails, passes,
        )?,
        _ => None,
    };
    match found {
        Some((failing, passing)) if shows(cond, &failing) && shows(other, &passing) => Ok((
            Finding::Possible(failing),
            Finding::Possible(passing),
        )),
        _ => Ok((fails, passes)),
    }
}
