//! Why a text does not compile.

ghost use Rattle.std.specs.Prelude.{◌≡◌, option_map};
ghost use Rattle.rpn_compiler.specs.declared.error.CompileError.TheVariants.{Memory};
ghost use Rattle.rpn_compiler.specs.Fault.{code_of, error_of_checker, error_of_lexer, error_of_parser, error_of_sharing, refusal_of};

use field_checker::CheckError;
use rule_lexer::LexError;
use rule_parser::ParseError;
use std::alloc::{AllocError, AllocFailed};
use thiserror::Error;
use watch_sharing::ShareError;

/// Why a text does not compile: the first refusal of the first stage of the compiler that has one, each stage over the whole
/// text.
#[derive(Clone, Copy, Debug, PartialEq, Eq, Error)]
pub enum CompileError {
    /// A bad token, or a text that is too long: 1 to 5.
    #[error("{0}")]
    Lex(LexError),
    /// A token that cannot follow those before it, or the 65th nesting token of a condition: 11 and 12.
    #[error("{0}")]
    Parse(ParseError),
    /// A name, a place or a number that is not valid: 21 to 29.
    #[error("{0}")]
    Check(CheckError),
    /// Over 176 distinct watchpoints: 31.
    #[error("the rules mention over 176 watchpoints")]
    TooManyWatchpoints,
    /// Over 176 rules: 41.
    #[error("there are over 176 rules")]
    TooManyRules,
    /// The first rule, counted from 0, that has over 32 words, EQUAL included: 42.
    #[error("the equation of rule {rule}, counted from 0, has over 32 words")]
    EquationTooLong { rule: usize },
    /// No memory for compiling.
    #[error("out of memory")]
    Memory,
}

impl From<LexError> for CompileError {
    ghost from_gives = { λ e f. f ≡ error_of_lexer e };

    fn from(error: LexError) -> CompileError {
        match error {
            LexError::Memory => CompileError::Memory,
            error => CompileError::Lex(error),
        }
    }
}

impl From<ParseError> for CompileError {
    ghost from_gives = { λ e f. f ≡ error_of_parser e };

    fn from(error: ParseError) -> CompileError {
        match error {
            ParseError::Memory => CompileError::Memory,
            error => CompileError::Parse(error),
        }
    }
}

impl From<CheckError> for CompileError {
    ghost from_gives = { λ e f. f ≡ error_of_checker e };

    fn from(error: CheckError) -> CompileError {
        match error {
            CheckError::Memory => CompileError::Memory,
            error => CompileError::Check(error),
        }
    }
}

impl From<ShareError> for CompileError {
    ghost from_gives = { λ e f. f ≡ error_of_sharing e };

    fn from(error: ShareError) -> CompileError {
        match error {
            ShareError::TooManyWatchpoints => CompileError::TooManyWatchpoints,
            ShareError::Memory => CompileError::Memory,
        }
    }
}

impl From<AllocError> for CompileError {
    ghost from_gives = { λ _ e. e ≡ Memory };

    fn from(_error: AllocError) -> CompileError {
        CompileError::Memory
    }
}

impl<T: Drop> From<AllocFailed<T>> for CompileError {
    ghost from_gives = { λ _ e. e ≡ Memory };

    fn from(_failed: AllocFailed<T>) -> CompileError {
        CompileError::Memory
    }
}

impl CompileError {
    /// The refusal's number, 1 to 42. `Memory` has none, since the text isn't at fault.
    pub fn code(self) -> Option<u8>
        ensures { result ≡ option_map code_of (refusal_of self) }
    {
        match self {
            CompileError::Lex(error) => error.code(),
            CompileError::Parse(error) => error.code(),
            CompileError::Check(error) => error.code(),
            CompileError::TooManyWatchpoints => Some(31),
            CompileError::TooManyRules => Some(41),
            CompileError::EquationTooLong { .. } => Some(42),
            CompileError::Memory => None,
        }
    }
}
