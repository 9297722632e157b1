//! The words for what the grammar expects at a place, and for what is there.

use crate::source::{NameKind, Source, TokenRange};
use diagnostics::{around, printable};
use lc_model::{EVENT_WORDS, STATE_WORDS, TYPE_WORDS};
use rule_lexer::{Token, TokenKind};
use rule_parser::{Sign, What, Word};
use std::alloc::{AllocError, Global};

/// The words that begin an item.
pub const ITEM_WORDS: &[&[u8]] = &[b"packet", b"field", b"rule"];

const JOINING_WORDS: &[&[u8]] = &[b"or", b"xor", b"and"];

/// The words that begin an operand.
pub const OPERAND_WORDS: &[&[u8]] = &[b"not"];

/// The words for what is expected, if they differ from the parser's.
fn own_words(what: What) -> Option<&'static str> {
    match what {
        What::Text => Some("a quoted text"),
        What::FieldKind => Some("a type"),
        What::Operand => Some("a field, `not` or `(`"),
        What::Compare => Some("`<`, `<=`, `!=`, `==`, `>=` or `>`"),
        _ => None,
    }
}

/// The words for what is expected.
pub fn describe_wanted(alloc: Global, what: What) -> Result<String, AllocError> {
    match own_words(what) {
        Some(words) => String::from_str(alloc, words),
        None => format!(in alloc; "{what}"),
    }
}

/// Whether the token is a sign.
fn is_sign(kind: TokenKind) -> bool {
    matches!(
        kind,
        TokenKind::Equals
            | TokenKind::Semicolon
            | TokenKind::Open
            | TokenKind::Close
            | TokenKind::Compare(_)
    )
}

/// Whether the token is a word of the language.
pub fn is_reserved(kind: TokenKind) -> bool {
    !is_sign(kind)
        && !matches!(
            kind,
            TokenKind::Name | TokenKind::Number(_) | TokenKind::Text
        )
}

/// The word for the class of a token, which comes before its text.
fn class_of(kind: TokenKind) -> &'static str {
    match kind {
        TokenKind::Name => "the name ",
        TokenKind::Number(_) => "the number ",
        kind if is_sign(kind) => "",
        _ => "the word ",
    }
}

/// The words for a quoted text that is found.
fn found_text(alloc: Global, text: &[u8]) -> Result<String, AllocError> {
    let text = printable(alloc, text)?;
    format!(in alloc; "the quoted text {text}")
}

/// The words for the token that is found, or for the text's end.
pub fn describe_found(alloc: Global, token: Option<Token<'_>>) -> Result<String, AllocError> {
    match token {
        None => String::from_str(alloc, "the end of the file"),
        Some(token) if token.kind == TokenKind::Text => found_text(alloc, token.text),
        Some(token) => around(alloc, class_of(token.kind), token.text, ""),
    }
}

/// The words that may come before the `;` of a field after these tokens.
fn before_end(source: &Source<'_>, part: TokenRange) -> &'static [&'static [u8]] {
    let has_stale = source.first_of(part, TokenKind::Stale).is_some();
    let has_mask = source.first_of(part, TokenKind::Mask).is_some();
    if has_stale {
        &[]
    } else if has_mask {
        &[b"stale"]
    } else {
        &[b"mask", b"stale"]
    }
}

/// The words that the grammar accepts after these tokens of an item if this is expected, including optional ones.
pub fn words_for(source: &Source<'_>, part: TokenRange, what: What) -> &'static [&'static [u8]] {
    match what {
        What::Item => ITEM_WORDS,
        What::FieldKind => TYPE_WORDS,
        What::State => STATE_WORDS,
        What::Level => EVENT_WORDS,
        What::Operand => OPERAND_WORDS,
        What::Word(word) => words_of(word),
        What::Sign(Sign::Semicolon) => match source.kind_of(part) {
            Some(NameKind::Field) => before_end(source, part),
            Some(NameKind::Rule) => JOINING_WORDS,
            _ => &[],
        },
        What::Sign(Sign::Close) => JOINING_WORDS,
        What::Sign(Sign::Equals) | What::Name | What::Number | What::Text | What::Compare => &[],
    }
}

/// The word; for `when` also the optional word before it.
fn words_of(word: Word) -> &'static [&'static [u8]] {
    match word {
        Word::Mid => &[b"mid"],
        Word::Length => &[b"length"],
        Word::At => &[b"at"],
        Word::Mask => &[b"mask"],
        Word::Stale => &[b"stale"],
        Word::Fails => &[b"fails"],
        Word::Sequence => &[b"sequence"],
        Word::Event => &[b"event"],
        Word::Report => &[b"report"],
        Word::When => &[b"report", b"when"],
    }
}
