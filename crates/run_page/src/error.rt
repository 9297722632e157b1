//! The errors of writing a page.

ghost use Rattle.std.specs.Prelude.{⊤};

use rpn_compiler::CompileError;
use run_stepper::{CourseError, WatchError};
use std::alloc::{AllocError, AllocFailed};
use std::io::{self, ErrorKind};
use thiserror::Error;

/// Why a page isn't written, or only in part.
#[derive(Clone, Copy, Debug, PartialEq, Eq, Error)]
pub enum ReportError {
    /// The rule text with this number, counted from 0, doesn't compile; nothing was written.
    #[error("text {text}: {error}")]
    Rules { text: usize, error: CompileError },
    /// There is no memory.
    #[error("out of memory")]
    Memory,
    /// The stream can't be read; nothing was written.
    #[error("a read failed")]
    Read,
    /// The stream has more records, or needs more reads, than 64 bits can count; nothing was written.
    #[error("as many reads were made as may be")]
    Bound,
    /// The writer failed; a part of the page may be written.
    #[error("a write failed")]
    Write,
}

impl From<CourseError> for ReportError {
    ghost from_gives = { λ _ _. ⊤ };

    fn from(error: CourseError) -> ReportError {
        match error {
            CourseError::Rules { text, error } => ReportError::Rules { text, error },
            CourseError::Memory => ReportError::Memory,
        }
    }
}

impl From<WatchError> for ReportError {
    ghost from_gives = { λ _ _. ⊤ };

    fn from(error: WatchError) -> ReportError {
        match error {
            WatchError::Memory => ReportError::Memory,
            WatchError::Read => ReportError::Read,
            WatchError::Write => ReportError::Write,
            WatchError::Bound => ReportError::Bound,
        }
    }
}

impl From<AllocError> for ReportError {
    ghost from_gives = { λ _ _. ⊤ };

    fn from(_error: AllocError) -> ReportError {
        ReportError::Memory
    }
}

impl<T: Drop> From<AllocFailed<T>> for ReportError {
    ghost from_gives = { λ _ _. ⊤ };

    fn from(_error: AllocFailed<T>) -> ReportError {
        ReportError::Memory
    }
}

impl From<io::Error> for ReportError {
    ghost from_gives = { λ _ _. ⊤ };

    fn from(error: io::Error) -> ReportError {
        if error.kind() == ErrorKind::OutOfMemory {
            ReportError::Memory
        } else {
            ReportError::Write
        }
    }
}
