//! Why a rule text gets no layout.

ghost use Rattle.std.specs.Prelude.{◌≡◌};
ghost use Rattle.rule_layout.specs.declared.error.FormatError.TheVariants.{Memory};

use rule_lexer::LexError;
use rule_parser::ParseError;
use std::alloc::{AllocError, AllocFailed};
use thiserror::Error;

/// Why a rule text is not formatted.
#[derive(Clone, Copy, Debug, PartialEq, Eq, Error)]
pub enum FormatError {
    /// The text doesn't split into tokens.
    #[error("{0}")]
    Lex(LexError),
    /// The text's tokens are no items.
    #[error("{0}")]
    Parse(ParseError),
    /// With its blanks in place the text would have over 65,536 bytes.
    #[error("the formatted text would have over 65,536 bytes")]
    TooLong,
    /// There is no memory for the text or its parts.
    #[error("out of memory")]
    Memory,
}

impl<T: Drop> From<AllocFailed<T>> for FormatError {
    ghost from_gives = { λ _ e. e ≡ Memory };

    fn from(_failed: AllocFailed<T>) -> FormatError {
        FormatError::Memory
    }
}

impl From<AllocError> for FormatError {
    ghost from_gives = { λ _ e. e ≡ Memory };

    fn from(_error: AllocError) -> FormatError {
        FormatError::Memory
    }
}
