//! New names for packets, fields and rules.

use crate::names::NameUse;
use crate::outline::Outline;
use rule_lexer::{LexError, TokenKind, lex};
use std::alloc::{AllocError, Global};

/// Why a name can't be given another.
#[derive(Clone, Copy, Debug, PartialEq, Eq)]
pub enum RenameFault {
    /// The new name is no name.
    NoName,
    /// The new name is a reserved word.
    Reserved,
    /// The new name has over 32 bytes.
    TooLong,
    /// The text has the new name already.
    Taken,
}

/// Whether these are a letter or `_`, and then letters, digits and `_`.
fn is_word(bytes: &[u8]) -> bool {
    match bytes {
        [first, ..] => !first.is_ascii_digit()
            && bytes
                .iter()
                .all(|byte| byte.is_ascii_alphanumeric() || *byte == b'_'),
        [] => false,
    }
}

/// Why this isn't a name, if it isn't. A word is one token, or too long.
fn name_fault(alloc: Global, word: &[u8]) -> Result<Option<RenameFault>, AllocError> {
    if !is_word(word) {
        return Ok(Some(RenameFault::NoName));
    }
    match lex(alloc, word) {
        Ok(tokens) => match tokens.as_slice() {
            [token] if token.kind == TokenKind::Name => Ok(None),
            _ => Ok(Some(RenameFault::Reserved)),
        },
        Err(LexError::Memory) => Err(AllocError),
        Err(_) => Ok(Some(RenameFault::TooLong)),
    }
}

impl<'a> Outline<'a> {
    /// Whether the text has this name, declared or not.
    fn has_name(&self, name: &[u8]) -> bool {
        self.source.tokens.iter().any(|token| token.kind == TokenKind::Name && token.text == name)
    }

    /// Why a name can't be given this new one; `None` if it can.
    pub fn rename_fault(
        &self,
        alloc: Global,
        name: NameUse<'a>,
        new: &[u8],
    ) -> Result<Option<RenameFault>, AllocError> {
        match name_fault(alloc, new)? {
            None if name.text != new && self.has_name(new) => Ok(Some(RenameFault::Taken)),
            fault => Ok(fault),
        }
    }
}
