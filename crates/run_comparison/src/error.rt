//! Why there is no comparison.

ghost use Rattle.std.specs.Prelude.{◌≡◌};
ghost use Rattle.run_comparison.specs.Errors.{IsOwn, of_watch};
ghost use Rattle.run_comparison.specs.declared.error.ComparisonError.TheVariants.{Memory};

use rpn_compiler::CompileError;
use run_stepper::{CourseError, WatchError};
use std::alloc::{AllocError, AllocFailed};
use std::io::{self, ErrorKind};
use thiserror::Error;

/// Which of the rule texts of a comparison.
#[derive(Clone, Copy, Debug, PartialEq, Eq)]
pub enum Which {
    Old,
    New,
    /// The further text of this number, from 0, which both runs get.
    Further(usize),
}

/// Why a comparison is not, or not wholly, written.
#[derive(Clone, Copy, Debug, PartialEq, Eq, Error)]
pub enum ComparisonError {
    /// A rule text does not compile; nothing was written.
    #[error("{error}")]
    Rules { which: Which, error: CompileError },
    /// Out of memory.
    #[error("out of memory")]
    Memory,
    /// The stream can't be read.
    #[error("a read failed")]
    Read,
    /// The stream has more records than 64 bits count.
    #[error("as many records were handled as may be")]
    Bound,
    /// The comparison can't be written.
    #[error("a write failed")]
    Write,
    /// The runs don't have as many texts.
    #[error("the runs do not have as many rule texts")]
    Uneven,
}

/// Which text it is that has this number in the run of another one.
fn which_of(first: Which, text: usize) -> Which {
    if text == 0 {
        return first;
    }
    Which::Further(text - 1)
}

impl ComparisonError {
    /// Why there is no course of this text, and of the further ones after it.
    pub(crate) fn of(first: Which, error: CourseError) -> ComparisonError {
        match error {
            CourseError::Rules { text, error } => ComparisonError::Rules {
                which: which_of(first, text),
                error,
            },
            CourseError::Memory => ComparisonError::Memory,
        }
    }
}

impl From<AllocError> for ComparisonError {
    ghost from_gives = { λ _ e. e ≡ Memory };

    fn from(_error: AllocError) -> ComparisonError {
        ComparisonError::Memory
    }
}

impl<T: Drop> From<AllocFailed<T>> for ComparisonError {
    ghost from_gives = { λ _ e. e ≡ Memory };

    fn from(_error: AllocFailed<T>) -> ComparisonError {
        ComparisonError::Memory
    }
}

impl From<io::Error> for ComparisonError {
    ghost from_gives = { λ _ e. IsOwn e };

    fn from(error: io::Error) -> ComparisonError {
        if error.kind() == ErrorKind::OutOfMemory {
            ComparisonError::Memory
        } else {
            ComparisonError::Write
        }
    }
}

impl From<WatchError> for ComparisonError {
    ghost from_gives = { λ error e. e ≡ of_watch error };

    fn from(error: WatchError) -> ComparisonError {
        match error {
            WatchError::Memory => ComparisonError::Memory,
            WatchError::Read => ComparisonError::Read,
            WatchError::Write => ComparisonError::Write,
            WatchError::Bound => ComparisonError::Bound,
        }
    }
}
