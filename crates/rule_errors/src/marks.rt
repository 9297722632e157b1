//! Marks under tokens and names.

ghost use Rattle.std.specs.Prelude.{◌≡◌};

use crate::advice::ByteSpan;
use crate::source::Declaration;
use diagnostics::Mark;
use rule_lexer::{Token, TokenKind};
use std::alloc::{AllocError, Global};

/// The bytes of a token.
pub fn span(token: Token<'_>) -> ByteSpan {
    ByteSpan::new(token.at, token.text.len())
}

/// A mark under a token.
pub fn mark(token: Token<'_>, label: String) -> Mark
    ensures { result.at ≡ token.entry.at }
{
    Mark {
        at: token.at,
        size: token.text.len(),
        label,
    }
}

/// A mark under a token, if there is one.
pub fn token_mark(
    alloc: Global,
    token: Option<Token<'_>>,
    label: &str,
) -> Result<Option<Mark>, AllocError> {
    match token {
        Some(token) => Ok(Some(mark(token, String::from_str(alloc, label)?))),
        None => Ok(None),
    }
}

/// A mark under a name that is declared, if there is one.
pub fn declared_mark(
    alloc: Global,
    name: Option<Declaration<'_>>,
    label: &str,
) -> Result<Option<Mark>, AllocError> {
    match name {
        Some(name) => Ok(Some(Mark {
            at: name.at,
            size: name.text.len(),
            label: String::from_str(alloc, label)?,
        })),
        None => Ok(None),
    }
}

/// The bytes of a token; empty for `None`.
pub fn text_of<'a>(token: Option<Token<'a>>) -> &'a [u8] {
    match token {
        Some(token) => token.text,
        None => &[],
    }
}

/// The value of a number token; 0 for any other token.
pub fn value_of(token: Token<'_>) -> i64 {
    match token.kind {
        TokenKind::Number(value) => value,
        _ => 0,
    }
}
