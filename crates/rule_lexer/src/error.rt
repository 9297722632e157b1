//! The lexer's errors: why a text does not split into tokens.

ghost use Rattle.std.specs.Prelude.{◌≡◌};
ghost use Rattle.rule_lexer.specs.Fault.{error_code};
ghost use Rattle.rule_lexer.specs.declared.error.LexError.TheVariants.{Memory};

use std::alloc::{AllocError, AllocFailed};
use thiserror::Error;

/// The first fault of a text. `at` is the number of the text's bytes before it. The language is this project's own.
#[derive(Clone, Copy, Debug, PartialEq, Eq, Error)]
pub enum LexError {
    /// No token begins with this byte, or it is a lone `-` or `!`.
    #[error("no token begins with the byte at {at}")]
    BadByte { at: usize },
    /// The token begins as a number but isn't one, or its magnitude is 2^32 or more. `at` is its first byte.
    #[error("no number below 2^32 at {at}")]
    BadNumber { at: usize },
    /// A word has more than 32 bytes; `at` is its first byte.
    #[error("the name at {at} has over 32 bytes")]
    NameTooLong { at: usize },
    /// A quote begins no valid string: the string isn't closed, has a byte outside 0x20 to 0x7E, or over 31 bytes.
    #[error("no string of at most 31 printable bytes at {at}")]
    BadString { at: usize },
    /// The text has more than 65,536 bytes, whichever they are.
    #[error("the text has over 65,536 bytes")]
    TextTooLong,
    /// There is no memory for the tokens.
    #[error("out of memory")]
    Memory,
}

impl<T: Drop> From<AllocFailed<T>> for LexError {
    ghost from_gives = { λ _ e. e ≡ Memory };

    fn from(_failed: AllocFailed<T>) -> LexError {
        LexError::Memory
    }
}

impl From<AllocError> for LexError {
    ghost from_gives = { λ _ e. e ≡ Memory };

    fn from(_error: AllocError) -> LexError {
        LexError::Memory
    }
}

impl LexError {
    /// Returns the fault's number, 1 to 5, or `None` for `Memory`: then the text isn't at fault.
    pub fn code(self) -> Option<u8>
        ensures { result ≡ error_code self }
    {
        match self {
            LexError::BadByte { .. } => Some(1),
            LexError::BadNumber { .. } => Some(2),
            LexError::NameTooLong { .. } => Some(3),
            LexError::BadString { .. } => Some(4),
            LexError::TextTooLong => Some(5),
            LexError::Memory => None,
        }
    }
}
