//! Tries conditions with all values of their fields, by code that shares nothing with the judgement that is tested.

use lc_model::{CmpOp, Cond, FieldType, Term};

/// The number of bytes in a packet's body, which has all fields: bytes 12 to 19, counted from 0.
pub const BODY: usize = 8;

/// The byte at this place of the body; 0 after its end.
fn byte(body: &[u8; BODY], at: u32) -> u8 {
    match body.get(at as usize) {
        Some(byte) => *byte,
        None => 0,
    }
}

/// The value of a term's field, with its mask and sign.
fn value(term: &Term, body: &[u8; BODY]) -> i64 {
    let at = term.offset.saturating_sub(12).min(100);
    let (here, next) = (byte(body, at), byte(body, at + 1));
    let bits = match term.kind {
        FieldType::U8 | FieldType::I8 => u16::from(here),
        FieldType::U16Be | FieldType::I16Be => u16::from_be_bytes([here, next]),
        _ => u16::from_le_bytes([here, next]),
    };
    let bits = u32::from(bits) & term.mask;
    match term.kind {
        FieldType::I8 if bits >= 0x80 => i64::from(bits) - 0x100,
        FieldType::I16Be | FieldType::I16Le if bits >= 0x8000 => i64::from(bits) - 0x1_0000,
        _ => i64::from(bits),
    }
}

/// Whether the condition is true for a packet with this body.
pub fn is_true(cond: &Cond, body: &[u8; BODY]) -> bool {
    match cond {
        Cond::Watch(term) => {
            let value = value(term, body);
            match term.op {
                CmpOp::Less => value < term.value,
                CmpOp::LessOrEqual => value <= term.value,
                CmpOp::NotEqual => value != term.value,
                CmpOp::Equal => value == term.value,
                CmpOp::GreaterOrEqual => value >= term.value,
                CmpOp::Greater => value > term.value,
            }
        }
        Cond::Not(operand) => !is_true(operand, body),
        Cond::And(operands) => is_true(&operands.0, body) && is_true(&operands.1, body),
        Cond::Or(operands) => is_true(&operands.0, body) || is_true(&operands.1, body),
        Cond::Xor(operands) => is_true(&operands.0, body) != is_true(&operands.1, body),
    }
}

/// The next body with no bits but these; `None` after the last.
fn next_body(body: &[u8; BODY], bits: &[u8; BODY]) -> Option<[u8; BODY]> {
    let mut next = *body;
    for i in 0..BODY {
        if next[i] < bits[i] {
            next[i] = (next[i] | !bits[i]).wrapping_add(1) & bits[i];
            return Some(next);
        }
        next[i] = 0;
    }
    None
}

/// The values that two conditions have over all bodies.
#[derive(Clone, Copy)]
pub struct Tried {
    /// A body makes the first condition true.
    pub first_true: bool,
    /// A body makes the first condition false.
    pub first_false: bool,
    /// A body makes the second condition true.
    pub second_true: bool,
    /// A body makes the second condition false.
    pub second_false: bool,
    /// A body makes the first condition true and the second false.
    pub first_alone: bool,
    /// A body makes the second condition true and the first false.
    pub second_alone: bool,
}

/// Tries two conditions with all bodies that have no bits but these, up to 65,536 bodies.
pub fn try_all(first: &Cond, second: &Cond, bits: &[u8; BODY]) -> Tried {
    let mut tried = Tried {
        first_true: false,
        first_false: false,
        second_true: false,
        second_false: false,
        first_alone: false,
        second_alone: false,
    };
    let mut body = [0; BODY];
    for _ in 0..0x1_0000 {
        let (one, other) = (is_true(first, &body), is_true(second, &body));
        tried.first_true |= one;
        tried.first_false |= !one;
        tried.second_true |= other;
        tried.second_false |= !other;
        tried.first_alone |= one && !other;
        tried.second_alone |= other && !one;
        match next_body(&body, bits) {
            Some(next) => body = next,
            None => return tried,
        }
    }
    tried
}
