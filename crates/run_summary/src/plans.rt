//! The rules of texts, with what requests and samples need of them.

use crate::texts::{Field, comparisons_of, field_by_name, place_of};
use lc_model::{CmpOp, EventKind};
use rpn_compiler::RuleText;
use rule_parser::{Comparison, Item, RuleItem};
use std::alloc::{AllocError, Global};

/// A comparison of a rule.
#[derive(Clone, Copy)]
pub struct Part {
    /// The index of its field among `Account::seen`.
    pub field: usize,
    /// Its operator.
    pub op: CmpOp,
    /// The number that the field is compared with.
    pub number: i64,
    /// The byte of the rule text at which that number begins, counted from 0.
    pub at: usize,
}

/// A rule: the sequence that it requests, the type of its event, and its comparisons from left to right.
#[derive(Drop)]
pub(crate) struct RulePlan {
    sequence: i64,
    kind: EventKind,
    parts: Vec<Part>,
}

/// The rules of a text.
#[derive(Drop)]
pub(crate) struct RulePlans {
    rules: Vec<RulePlan>,
}

impl RulePlan {
    fn parts(&self) -> &[Part] {
        self.parts.as_slice()
    }

    /// The type of its event.
    pub(crate) fn kind(&self) -> EventKind {
        self.kind
    }

    /// Whether the rule requests this sequence.
    fn requests(&self, sequence: u16) -> bool {
        self.sequence == i64::from(sequence)
    }
}

impl RulePlans {
    /// The rule of this number.
    fn rule(&self, number: usize) -> Option<&RulePlan> {
        self.rules.get(number)
    }
}

/// The rule of this number in the text of this number.
pub(crate) fn planned_at(
    plans: &[RulePlans],
    text: Option<usize>,
    rule: usize,
) -> Option<&RulePlan> {
    match text {
        None => None,
        Some(text) => match plans.get(text) {
            None => None,
            Some(plan) => plan.rule(rule),
        },
    }
}

/// The comparisons of the rule of this number in the text of this number.
pub(crate) fn parts_at(plans: &[RulePlans], text: Option<usize>, rule: usize) -> &[Part] {
    match planned_at(plans, text, rule) {
        None => &[],
        Some(rule) => rule.parts(),
    }
}

/// Whether the rule with this number in the text with this number may have requested a sequence; true if the rule isn't known.
pub(crate) fn may_request(
    plans: &[RulePlans],
    text: Option<usize>,
    rule: usize,
    sequence: u16,
) -> bool {
    match planned_at(plans, text, rule) {
        None => true,
        Some(rule) => rule.requests(sequence),
    }
}

/// A comparison with the index of its field among these, if it names one of them.
fn part_of(text: &RuleText<'_>, comparison: &Comparison<'_>, fields: &[Field<'_>]) -> Option<Part> {
    match field_by_name(text, comparison.field) {
        Some(field) => Some(Part {
            field: place_of(fields, &field).unwrap_or(0),
            op: comparison.op,
            number: comparison.value.value,
            at: comparison.value.at,
        }),
        None => None,
    }
}

/// These comparisons with the indexes of their fields. The only error is a lack of memory.
fn parts_among(
    alloc: Global,
    text: &RuleText<'_>,
    comparisons: &[Comparison<'_>],
    fields: &[Field<'_>],
) -> Result<Vec<Part>, AllocError> {
    let mut parts = Vec::new(alloc);
    for comparison in comparisons {
        if let Some(part) = part_of(text, comparison, fields) {
            parts.push(part)?;
        }
    }
    Ok(parts)
}

/// The comparisons of a rule, from the left. Out of memory is the only error.
fn parts_of(
    alloc: Global,
    text: &RuleText<'_>,
    rule: &RuleItem<'_>,
    fields: &[Field<'_>],
) -> Result<Vec<Part>, AllocError> {
    let comparisons = comparisons_of(alloc, rule)?;
    parts_among(alloc, text, comparisons.as_slice(), fields)
}

/// A rule of a text. Out of memory is the only error.
fn rule_plan(
    alloc: Global,
    text: &RuleText<'_>,
    rule: &RuleItem<'_>,
    fields: &[Field<'_>],
) -> Result<RulePlan, AllocError> {
    Ok(RulePlan {
        sequence: rule.sequence.value,
        kind: rule.event_kind,
        parts: parts_of(alloc, text, rule, fields)?,
    })
}

/// The rules of a text, which compares these fields. Out of memory is the only error.
fn plan_of(
    alloc: Global,
    text: &RuleText<'_>,
    fields: &[Field<'_>],
) -> Result<RulePlans, AllocError> {
    let mut rules = Vec::new(alloc);
    for item in &text.file.items {
        if let Item::Rule(rule) = item {
            rules.push(rule_plan(alloc, text, rule, fields)?)?;
        }
    }
    Ok(RulePlans { rules })
}

/// The rules of texts, which compare these fields. Out of memory is the only error.
pub(crate) fn plans_of(
    alloc: Global,
    texts: &[RuleText<'_>],
    fields: &[Field<'_>],
) -> Result<Vec<RulePlans>, AllocError> {
    let mut plans = Vec::new(alloc);
    for text in texts {
        plans.push(plan_of(alloc, text, fields)?)?;
    }
    Ok(plans)
}
