//! Rules made at random, over fields of a few bits.

use crate::random::Random;
use lc_model::{
    ApMode, Bytes, CmpOp, Cond, EventKind, FieldType, ReportMaxima, Rule, Rules, TABLE_ENTRIES,
    Term,
};
use rule_analysis::Field;
use std::alloc::{AllocError, Global};

/// The most operators above a comparison in a rule of any shape.
const DEPTH: u32 = 3;

/// The number of operators above each comparison of a full rule, which has sixteen comparisons.
const FULL_DEPTH: u32 = 4;

/// The shape of the conditions that are made.
#[derive(Clone, Copy, PartialEq, Eq)]
enum ConditionShape {
    /// Any operators, down to a depth at most.
    Any,
    /// Operators with two operands, down to the depth everywhere.
    Full,
}

/// One of the fields at random; a field of one bit if there are none.
fn one_of(fields: &[Field], random: &mut Random) -> Field {
    let chosen = random.below(fields.len() as u64);
    for (i, field) in fields.iter().enumerate() {
        if i as u64 == chosen {
            return *field;
        }
    }
    Field {
        kind: FieldType::U8,
        mid: 0x0883,
        offset: 12,
        mask: 1,
    }
}

/// One of the six comparisons at random.
fn operator(random: &mut Random) -> CmpOp {
    match random.below(6) {
        0 => CmpOp::Less,
        1 => CmpOp::LessOrEqual,
        2 => CmpOp::NotEqual,
        3 => CmpOp::Equal,
        4 => CmpOp::GreaterOrEqual,
        _ => CmpOp::Greater,
    }
}

/// A number within 1 of some bits of the field's mask, or of those bits less 2^width for a signed type.
fn number(field: &Field, random: &mut Random) -> i64 {
    let bits = i64::from((random.below(0x1_0000) % 0x1_0000) as u32 & field.mask);
    let below = match field.kind {
        FieldType::I8 => bits - 0x100,
        FieldType::I16Be | FieldType::I16Le => bits - 0x1_0000,
        _ => bits,
    };
    let value = if random.below(2) == 0 { bits } else { below };
    let near = (random.below(3) % 3) as i64;
    value.saturating_add(near).saturating_sub(1)
}

/// A comparison of a field with a number near its values.
fn comparison(fields: &[Field], random: &mut Random) -> Cond {
    let field = one_of(fields, random);
    let op = operator(random);
    let value = number(&field, random);
    Cond::Watch(Term {
        kind: field.kind,
        mid: field.mid,
        offset: field.offset,
        mask: field.mask,
        stale: 0,
        op,
        value,
    })
}

/// A condition with at most `depth` operators above each comparison.
fn condition(
    alloc: Global,
    fields: &[Field],
    depth: u32,
    shape: ConditionShape,
    random: &mut Random,
) -> Result<Cond, AllocError> {
    if depth == 0 || shape == ConditionShape::Any && random.below(6) == 0 {
        return Ok(comparison(fields, random));
    }
    let first = condition(alloc, fields, depth - 1, shape, random)?;
    let operator = random.below(4);
    if shape == ConditionShape::Any && operator == 0 {
        return Ok(Cond::Not(Box::new(alloc, first)?));
    }
    let second = condition(alloc, fields, depth - 1, shape, random)?;
    let both = Box::new(alloc, (first, second))?;
    Ok(match operator {
        1 => Cond::And(both),
        2 => Cond::Or(both),
        _ => Cond::Xor(both),
    })
}

/// A rule with a condition made at random.
fn rule(
    alloc: Global,
    fields: &[Field],
    depth: u32,
    shape: ConditionShape,
    random: &mut Random,
) -> Result<Rule, AllocError> {
    Ok(Rule {
        name: Bytes::from_vec(Vec::new(alloc)),
        mode: ApMode::Active,
        fails: 1,
        sequence: 1,
        event_kind: EventKind::Error,
        event_id: 1000,
        text: Bytes::from_vec(Vec::new(alloc)),
        report: ReportMaxima {
            passive: 0,
            pass_to_fail: 0,
            fail_to_pass: 0,
        },
        cond: condition(alloc, fields, depth, shape, random)?,
    })
}

/// Makes two rules over the fields that request the same sequence. The error is a lack of memory.
pub fn two_rules(
    alloc: Global,
    fields: &[Field],
    random: &mut Random,
) -> Result<Rules, AllocError> {
    let mut rules = Vec::new(alloc);
    rules.push(rule(alloc, fields, DEPTH, ConditionShape::Any, random)?)?;
    rules.push(rule(alloc, fields, DEPTH, ConditionShape::Any, random)?)?;
    Ok(Rules::from_vec(rules))
}

/// Makes a table of 176 rules with sixteen comparisons each, which request one sequence or a sequence each. The
/// error is a lack of memory.
pub fn full_table(
    alloc: Global,
    fields: &[Field],
    of_one_sequence: bool,
    random: &mut Random,
) -> Result<Rules, AllocError> {
    let mut rules = Vec::new(alloc);
    for number in 0..TABLE_ENTRIES {
        let mut made = rule(alloc, fields, FULL_DEPTH, ConditionShape::Full, random)?;
        if !of_one_sequence {
            made.sequence = number as u16;
        }
        rules.push(made)?;
    }
    Ok(Rules::from_vec(rules))
}
