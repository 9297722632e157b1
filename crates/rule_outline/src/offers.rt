//! What may stand after the first tokens of an item, by the grammar.

use diagnostics::{behind, front};
use lc_model::{EVENT_WORDS, STATE_WORDS, TYPE_WORDS};
use rule_errors::NameKind;
use rule_lexer::{Token, TokenKind};

/// Words and signs that may stand at a place.
type WordList = &'static [&'static [u8]];

/// The tokens of the last item, which has no `;` yet; none after a `;`.
pub fn open_item<'s, 'a>(tokens: &'s [Token<'a>]) -> &'s [Token<'a>] {
    let mut from = 0;
    for (number, token) in tokens.iter().enumerate() {
        match token.kind {
            TokenKind::Semicolon => from = number.saturating_add(1),
            TokenKind::Packet | TokenKind::Field | TokenKind::Rule => from = number,
            _ => {}
        }
    }
    behind(tokens, from)
}

/// How many tokens of this kind an item has.
fn count_of(item: &[Token<'_>], kind: TokenKind) -> usize {
    item.iter().filter(|token| token.kind == kind).count()
}

/// The words after a comparison or a closed parenthesis.
fn after_operand(item: &[Token<'_>]) -> WordList {
    if count_of(item, TokenKind::Open) > count_of(item, TokenKind::Close) {
        &[b"and", b"or", b"xor", b")"]
    } else {
        &[b"and", b"or", b"xor", b";"]
    }
}

/// The words after a name: the one that an item declares, the packet of a field, or a field in a condition.
fn after_name(item: &[Token<'_>]) -> WordList {
    match item {
        [first, _] if first.kind == TokenKind::Rule => STATE_WORDS,
        [_, _] => &[b"="],
        [first, .., before, _]
            if first.kind == TokenKind::Field && before.kind == TokenKind::Equals => TYPE_WORDS,
        [first, ..] if first.kind == TokenKind::Rule && count_of(item, TokenKind::When) > 0 => &[
            b"<", b"<=", b"!=", b"==", b">=", b">",
        ],
        _ => &[],
    }
}

/// The words after one number behind a word or sign of this kind.
fn after_value(item: &[Token<'_>], before: TokenKind) -> WordList {
    match before {
        TokenKind::Mid => &[b"length"],
        TokenKind::Length | TokenKind::Stale => &[b";"],
        TokenKind::At => &[b"mask", b"stale", b";"],
        TokenKind::Mask => &[b"stale", b";"],
        TokenKind::Fails => &[b"sequence"],
        TokenKind::Sequence => &[b"event"],
        TokenKind::Compare(_) => after_operand(item),
        _ => &[],
    }
}

/// The words after a number: one number stands after most words, three after `report`.
fn after_number(item: &[Token<'_>]) -> WordList {
    let count = item
        .iter()
        .rev()
        .take_while(|token| matches!(token.kind, TokenKind::Number(_)))
        .count();
    match front(item, item.len().saturating_sub(count)).last() {
        Some(before) if count == 1 => after_value(item, before.kind),
        Some(before) if count == 3 && before.kind == TokenKind::Report => &[b"when"],
        _ => &[],
    }
}

/// The words that may stand after these tokens of an item; none where a new name, a number or a text has to stand.
pub fn words_after(item: &[Token<'_>]) -> WordList {
    let Some(last) = item.last() else {
        return &[b"packet", b"field", b"rule"];
    };
    match last.kind {
        TokenKind::Name => after_name(item),
        TokenKind::Number(_) => after_number(item),
        TokenKind::Equals if count_of(item, TokenKind::Packet) > 0 => &[b"mid"],
        TokenKind::FieldKind(_) => &[b"at"],
        TokenKind::State(_) => &[b"fails"],
        TokenKind::Event => EVENT_WORDS,
        TokenKind::Text => &[b"report", b"when"],
        TokenKind::Close => after_operand(item),
        kind if begins_operand(kind) => &[b"not", b"("],
        _ => &[],
    }
}

/// Whether an operand of a condition follows tokens of this kind.
fn begins_operand(kind: TokenKind) -> bool {
    matches!(
        kind,
        TokenKind::When
            | TokenKind::And
            | TokenKind::Or
            | TokenKind::Xor
            | TokenKind::Not
            | TokenKind::Open
    )
}

/// The kind of declared names that may stand after these tokens of an item.
pub fn names_after(item: &[Token<'_>]) -> Option<NameKind> {
    match item {
        [first, .., last] if first.kind == TokenKind::Field && last.kind == TokenKind::Equals =>
            Some(NameKind::Packet),
        [.., last] if begins_operand(last.kind) => Some(NameKind::Field),
        _ => None,
    }
}
