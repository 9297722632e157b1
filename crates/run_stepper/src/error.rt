//! The errors of a run over a stream.

ghost use Rattle.std.specs.Prelude.{◌≡◌};
ghost use Rattle.run_stepper.specs.declared.error.CourseError.TheVariants as error;

use rpn_compiler::CompileError;
use std::alloc::{AllocError, AllocFailed};
use thiserror::Error;

/// Why rule texts weren't run over a stream.
#[derive(Clone, Copy, Debug, PartialEq, Eq, Error)]
pub enum CourseError {
    /// The rule text with this number, from 0, does not compile.
    #[error("text {text}: {error}")]
    Rules { text: usize, error: CompileError },
    /// Out of memory.
    #[error("out of memory")]
    Memory,
}

impl From<AllocError> for CourseError {
    ghost from_gives = { λ _ e. e ≡ error.Memory };

    fn from(_error: AllocError) -> CourseError {
        CourseError::Memory
    }
}

impl<T: Drop> From<AllocFailed<T>> for CourseError {
    ghost from_gives = { λ _ e. e ≡ error.Memory };

    fn from(_error: AllocFailed<T>) -> CourseError {
        CourseError::Memory
    }
}
