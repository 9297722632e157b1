//! The parts of an item, as far as its tokens are there, and how they are shown.

use diagnostics::front;
use lc_model::FieldType;
use rule_errors::{Source, TokenRange};
use rule_lexer::{Token, TokenKind};
use std::alloc::{AllocError, Global};
use std::fmt::{self, Display, Formatter, Write};

/// Bytes of a token; they display as they are written.
#[derive(Clone, Copy)]
pub struct TokenBytes<'a>(pub &'a [u8]);

impl Display for TokenBytes<'_> {
    fn fmt<W: Write>(&self, f: &mut Formatter<W>) -> fmt::Result {
        for byte in self.0 {
            let letter = char::from(*byte);
            write!(f, "{letter}")?;
        }
        Ok(())
    }
}

/// Tokens of an item; they display as they are written, without `=` and `;`.
#[derive(Clone, Copy)]
pub struct ItemTokens<'s, 'a>(pub &'s [Token<'a>]);

impl Display for ItemTokens<'_, '_> {
    fn fmt<W: Write>(&self, f: &mut Formatter<W>) -> fmt::Result {
        let mut blank = "";
        for token in self.0 {
            if !matches!(token.kind, TokenKind::Equals | TokenKind::Semicolon) {
                let text = TokenBytes(token.text);
                write!(f, "{blank}{text}")?;
                blank = " ";
            }
        }
        Ok(())
    }
}

/// The tokens before the first of this kind; all if there is none.
pub fn tokens_before<'s, 'a>(tokens: &'s [Token<'a>], kind: TokenKind) -> &'s [Token<'a>] {
    let count = tokens.iter().take_while(|token| token.kind != kind).count();
    front(tokens, count)
}

/// The bytes of a token as a text.
pub fn text_of(alloc: Global, bytes: &[u8]) -> Result<String, AllocError> {
    let bytes = TokenBytes(bytes);
    format!(in alloc; "{bytes}")
}

/// The place after a token's last byte.
pub fn end_of(token: Token<'_>) -> usize {
    token.at.saturating_add(token.text.len())
}

/// The number after the first word of this kind, as it is written.
pub fn number_in<'a>(
    source: &Source<'a>,
    part: TokenRange,
    word: TokenKind,
) -> Option<TokenBytes<'a>> {
    let token = source.first_number(part, word)?;
    match token.kind {
        TokenKind::Number(_) => Some(TokenBytes(token.text)),
        _ => None,
    }
}

/// The value of the number after the first word of this kind.
pub fn value_in(source: &Source<'_>, part: TokenRange, word: TokenKind) -> Option<i64> {
    match source.first_number(part, word)?.kind {
        TokenKind::Number(value) => Some(value),
        _ => None,
    }
}

/// The name of the packet that a field names.
pub fn packet_in<'a>(source: &Source<'a>, field: TokenRange) -> Option<&'a [u8]> {
    let token = source.first_number(field, TokenKind::Equals)?;
    match token.kind {
        TokenKind::Name => Some(token.text),
        _ => None,
    }
}

/// The type of a field.
pub fn type_in(source: &Source<'_>, field: TokenRange) -> Option<FieldType> {
    for token in source.tokens_of(field) {
        if let TokenKind::FieldKind(kind) = token.kind {
            return Some(kind);
        }
    }
    None
}
