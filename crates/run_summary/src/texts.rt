//! The rules of texts as a page shows them, and the fields that they compare.

use lc_model::FieldType;
use rpn_compiler::RuleText;
use rule_lexer::TokenKind;
use rule_parser::{Comparison, Expression, FieldItem, Item, Name, Number, RuleItem};
use std::alloc::{AllocError, Global};

/// A field that a rule compares. Two fields are the same if all of this is equal.
#[derive(Clone, Copy)]
pub struct Field<'a> {
    /// The field's name.
    pub name: &'a [u8],
    /// The name of its packet.
    pub packet: &'a [u8],
    /// The message id of its packet.
    pub mid: u32,
    /// Its type.
    pub kind: FieldType,
    /// The number of bytes from the packet's first byte to the field.
    pub at: u32,
    /// The mask in the text, if there is one.
    pub mask: Option<i64>,
    /// The bits that are read: all of its type without a mask.
    pub bits: u32,
    /// The number of agings after which it is stale; 0 means never.
    pub stale: i64,
}

/// A number's magnitude, in 32 bits.
fn magnitude(number: Number) -> u32 {
    number.value.unsigned_abs() as u32
}

/// The bits of a field that are read.
fn bits_of(field: FieldItem<'_>) -> u32 {
    field.mask.map_or(field.kind.full_mask(), magnitude)
}

/// The number of rules in a text.
pub fn rule_count(text: &RuleText<'_>) -> usize {
    let mut count = 0usize;
    for item in &text.file.items {
        if let Item::Rule(_) = item {
            count = count.saturating_add(1);
        }
    }
    count
}

/// The rule of a text with this number, counted from 0.
pub fn rule_at<'f, 'a>(text: &'f RuleText<'a>, number: usize) -> Option<&'f RuleItem<'a>> {
    let mut left = number;
    for item in &text.file.items {
        if let Item::Rule(rule) = item {
            if left == 0 {
                return Some(rule);
            }
            left -= 1;
        }
    }
    None
}

/// The message id of a text's packet of this name; 0 if there is none.
fn mid_of(text: &RuleText<'_>, name: Name<'_>) -> u32 {
    for item in &text.file.items {
        if let Item::Packet(packet) = item {
            if packet.name.text == name.text {
                return magnitude(packet.mid);
            }
        }
    }
    0
}

/// The field of a text that has this name.
pub(crate) fn field_by_name<'a>(text: &RuleText<'a>, name: Name<'_>) -> Option<Field<'a>> {
    for item in &text.file.items {
        if let Item::Field(field) = item {
            if field.name.text == name.text {
                return Some(field_of(text, *field));
            }
        }
    }
    None
}

/// The field that an item of a text declares.
fn field_of<'a>(text: &RuleText<'a>, field: FieldItem<'a>) -> Field<'a> {
    Field {
        name: field.name.text,
        packet: field.packet.text,
        mid: mid_of(text, field.packet),
        kind: field.kind,
        at: magnitude(field.offset),
        mask: field.mask.map(|mask| mask.value),
        bits: bits_of(field),
        stale: field.stale.map_or(0, |stale| stale.value),
    }
}

/// The bytes of the token that begins at this byte of a text; empty if none does.
pub fn token_bytes<'a>(text: &RuleText<'a>, at: usize) -> &'a [u8] {
    for token in &text.tokens {
        if token.at == at {
            return token.text;
        }
    }
    b""
}

/// The token numbers of a condition: its first token and the `;` after its last. The rule's name begins at byte `at` of the text.
pub fn condition_tokens(text: &RuleText<'_>, at: usize) -> (usize, usize) {
    let name = text.tokens.iter().take_while(|token| token.at < at).count();
    let when = next_token(text, name, TokenKind::When);
    (
        when.saturating_add(1),
        next_token(text, when, TokenKind::Semicolon),
    )
}

/// The number of the first token of this kind, from one on.
fn next_token(text: &RuleText<'_>, from: usize, kind: TokenKind) -> usize {
    for (number, token) in text.tokens.iter().enumerate() {
        if number >= from && token.kind == kind {
            return number;
        }
    }
    text.tokens.len()
}

/// Adds the comparisons of a condition, from the left. Out of memory is the only error.
fn compare<'a>(
    condition: &Expression<'a>,
    found: &mut Vec<Comparison<'a>>,
) -> Result<(), AllocError> {
    match condition {
        Expression::Compare(comparison) => {
            found.push(*comparison)?;
            Ok(())
        }
        Expression::Not(operand) => compare(operand, found),
        Expression::And(operands) | Expression::Or(operands) | Expression::Xor(operands) => {
            compare(&operands.0, found)?;
            compare(&operands.1, found)
        }
    }
}

/// The comparisons of a rule, from the left. Out of memory is the only error.
pub(crate) fn comparisons_of<'a>(
    alloc: Global,
    rule: &RuleItem<'a>,
) -> Result<Vec<Comparison<'a>>, AllocError> {
    let mut comparisons = Vec::new(alloc);
    compare(&rule.condition, &mut comparisons)?;
    Ok(comparisons)
}

/// Whether two masks are equal, or both are absent.
fn is_mask(one: Option<i64>, other: Option<i64>) -> bool {
    match one {
        None => other.is_none(),
        Some(one) => match other {
            None => false,
            Some(other) => one == other,
        },
    }
}

/// Whether two fields are the same.
fn is_same(one: &Field<'_>, other: &Field<'_>) -> bool {
    one.name == other.name
        && one.packet == other.packet
        && one.mid == other.mid
        && one.kind.code() == other.kind.code()
        && one.at == other.at
        && is_mask(one.mask, other.mask)
        && one.stale == other.stale
}

/// The place of a field among others, if it is there.
pub(crate) fn place_of(fields: &[Field<'_>], field: &Field<'_>) -> Option<usize> {
    for (place, other) in fields.iter().enumerate() {
        if is_same(other, field) {
            return Some(place);
        }
    }
    None
}

/// Adds a field, unless it is there. Out of memory is the only error.
fn add_field<'a>(fields: &mut Vec<Field<'a>>, field: Field<'a>) -> Result<(), AllocError> {
    if place_of(fields.as_slice(), &field).is_none() {
        fields.push(field)?;
    }
    Ok(())
}

/// Adds the fields that these comparisons name, each once. Out of memory is the only error.
fn add_fields<'a>(
    text: &RuleText<'a>,
    comparisons: &[Comparison<'a>],
    fields: &mut Vec<Field<'a>>,
) -> Result<(), AllocError> {
    for comparison in comparisons {
        if let Some(field) = field_by_name(text, comparison.field) {
            add_field(fields, field)?;
        }
    }
    Ok(())
}

/// Adds the fields that a rule compares, each once. Out of memory is the only error.
fn add_rule<'a>(
    alloc: Global,
    text: &RuleText<'a>,
    rule: &RuleItem<'a>,
    fields: &mut Vec<Field<'a>>,
) -> Result<(), AllocError> {
    let comparisons = comparisons_of(alloc, rule)?;
    add_fields(text, comparisons.as_slice(), fields)
}

/// Adds the fields that the rules of a text compare, each once. Out of memory is the only error.
fn add_text<'a>(
    alloc: Global,
    text: &RuleText<'a>,
    fields: &mut Vec<Field<'a>>,
) -> Result<(), AllocError> {
    for item in &text.file.items {
        if let Item::Rule(rule) = item {
            add_rule(alloc, text, rule, fields)?;
        }
    }
    Ok(())
}

/// The fields that the rules of all texts compare, in the order of their first comparison. Out of memory is the only error.
pub(crate) fn fields_of<'a>(
    alloc: Global,
    texts: &[RuleText<'a>],
) -> Result<Vec<Field<'a>>, AllocError> {
    let mut fields = Vec::new(alloc);
    for text in texts {
        add_text(alloc, text, &mut fields)?;
    }
    Ok(fields)
}
