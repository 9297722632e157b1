//! The parser's errors.

ghost use Rattle.std.specs.Prelude.{◌≡◌};
ghost use Rattle.rule_parser.specs.declared.error.ParseError.TheVariants.{Memory};
ghost use Rattle.rule_parser.specs.Fault.{error_code};

use crate::what::What;
use std::alloc::{AllocError, AllocFailed};
use thiserror::Error;

/// The first fault of a text's tokens. `at` is the number of the text's bytes before it.
#[derive(Clone, Copy, Debug, PartialEq, Eq, Error)]
pub enum ParseError {
    /// The token at this place, or the end of the text, is not what the grammar needs. `what` is the expected class; classes of
    /// optional tokens are left out.
    #[error("expected {what} at {at}")]
    Expected { at: usize, what: What },
    /// The 65th token of one condition among `(`, `not`, `and`, `xor` and `or`.
    #[error("over 64 parentheses and operators in one condition, at {at}")]
    TooNested { at: usize },
    /// There is no memory for the items.
    #[error("out of memory")]
    Memory,
}

impl<T: Drop> From<AllocFailed<T>> for ParseError {
    ghost from_gives = { λ _ e. e ≡ Memory };

    fn from(_failed: AllocFailed<T>) -> ParseError {
        ParseError::Memory
    }
}

impl From<AllocError> for ParseError {
    ghost from_gives = { λ _ e. e ≡ Memory };

    fn from(_error: AllocError) -> ParseError {
        ParseError::Memory
    }
}

impl ParseError {
    /// Returns the fault's number, 11 or 12, or `None` for `Memory`: then the text isn't at fault.
    pub fn code(self) -> Option<u8>
        ensures { result ≡ error_code self }
    {
        match self {
            ParseError::Expected { .. } => Some(11),
            ParseError::TooNested { .. } => Some(12),
            ParseError::Memory => None,
        }
    }
}
