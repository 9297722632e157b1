//! The error of sharing watchpoints.

ghost use Rattle.std.specs.Prelude.{◌≡◌};
ghost use Rattle.watch_sharing.specs.Fault.{error_code};
ghost use Rattle.watch_sharing.specs.declared.error.ShareError.TheVariants.{Memory};

use std::alloc::{AllocError, AllocFailed};
use thiserror::Error;

/// Why the rules' watchpoints can't be listed.
#[derive(Clone, Copy, Debug, PartialEq, Eq, Error)]
pub enum ShareError {
    /// The rules mention more than 176 distinct watchpoints.
    #[error("the rules mention over 176 watchpoints")]
    TooManyWatchpoints,
    /// There is no memory for the watchpoints or their numbers.
    #[error("out of memory")]
    Memory,
}

impl<T: Drop> From<AllocFailed<T>> for ShareError {
    ghost from_gives = { λ _ e. e ≡ Memory };

    fn from(_failed: AllocFailed<T>) -> ShareError {
        ShareError::Memory
    }
}

impl From<AllocError> for ShareError {
    ghost from_gives = { λ _ e. e ≡ Memory };

    fn from(_error: AllocError) -> ShareError {
        ShareError::Memory
    }
}

impl ShareError {
    /// Returns the refusal's number, 31, or `None` for `Memory`: then the rules aren't at fault.
    pub fn code(self) -> Option<u8>
        ensures { result ≡ error_code self }
    {
        match self {
            ShareError::TooManyWatchpoints => Some(31),
            ShareError::Memory => None,
        }
    }
}
