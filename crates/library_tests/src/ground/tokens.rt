//! A rule text and its tokens.

use crate::shared::same;
use lc_model::{ApMode, CmpOp, FieldType};
use rule_lexer::{Token, TokenKind, lex};
use std::process::Abort;

const TEXT: &[u8] =
    b"field Volts = Power i16be at 14; # in volts\n rule Low active when Volts <= -5";

/// The tokens of the text: place, bytes and kind.
const TOKENS: &[(usize, &[u8], TokenKind)] = &[
    (0, b"field", TokenKind::Field),
    (6, b"Volts", TokenKind::Name),
    (12, b"=", TokenKind::Equals),
    (14, b"Power", TokenKind::Name),
    (20, b"i16be", TokenKind::FieldKind(FieldType::I16Be)),
    (26, b"at", TokenKind::At),
    (29, b"14", TokenKind::Number(14)),
    (31, b";", TokenKind::Semicolon),
    (45, b"rule", TokenKind::Rule),
    (50, b"Low", TokenKind::Name),
    (54, b"active", TokenKind::State(ApMode::Active)),
    (61, b"when", TokenKind::When),
    (66, b"Volts", TokenKind::Name),
    (72, b"<=", TokenKind::Compare(CmpOp::LessOrEqual)),
    (75, b"-5", TokenKind::Number(-5)),
];

/// Checks that these are the text's tokens.
fn are_tokens<R: Abort>(rt: &R, tokens: &[Token]) {
    same(rt, "the tokens", tokens.len(), TOKENS.len());
    for (token, row) in tokens.iter().zip(TOKENS) {
        same(rt, "a token", (token.at, token.text, token.kind), *row);
    }
}

#[test]
fn of_a_field_and_a_rule(rt: HostRuntime) {
    let tokens = lex(rt.alloc(), TEXT).expect(&rt, "refused");
    are_tokens(&rt, tokens.as_slice());
}
