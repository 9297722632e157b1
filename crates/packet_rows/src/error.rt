//! The errors of writing a row.

ghost use Rattle.std.specs.Prelude.{◌≡◌};
ghost use Rattle.packet_rows.specs.declared.error.RowError.TheVariants.{Memory};

use std::alloc::{AllocError, AllocFailed};
use std::io::{self, ErrorKind};
use thiserror::Error;

/// Why a row isn't written, or only in part.
#[derive(Clone, Copy, Debug, PartialEq, Eq, Error)]
pub enum RowError {
    /// There is no memory for the row.
    #[error("out of memory")]
    Memory,
    /// The writer failed with an error of this kind.
    #[error("a write failed")]
    Write(ErrorKind),
}

impl From<AllocError> for RowError {
    ghost from_gives = { λ _ e. e ≡ Memory };

    fn from(_error: AllocError) -> RowError {
        RowError::Memory
    }
}

impl<T: Drop> From<AllocFailed<T>> for RowError {
    ghost from_gives = { λ _ e. e ≡ Memory };

    fn from(_error: AllocFailed<T>) -> RowError {
        RowError::Memory
    }
}

impl From<io::Error> for RowError {
    fn from(error: io::Error) -> RowError {
        match error.kind() {
            ErrorKind::OutOfMemory => RowError::Memory,
            kind => RowError::Write(kind),
        }
    }
}
