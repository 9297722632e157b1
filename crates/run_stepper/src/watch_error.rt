//! The errors of a run that is watched.

ghost use Rattle.std.specs.Prelude.{◌≡◌};
ghost use Rattle.run_stepper.specs.declared.watch_error.WatchError.TheVariants as watch;

use std::alloc::{AllocError, AllocFailed};
use thiserror::Error;

/// Why a run was not watched to the end of its stream.
#[derive(Clone, Copy, Debug, PartialEq, Eq, Error)]
pub enum WatchError {
    /// Out of memory.
    #[error("out of memory")]
    Memory,
    /// The stream can't be read.
    #[error("a read failed")]
    Read,
    /// The observer can't write.
    #[error("a write failed")]
    Write,
    /// The stream has more records than 64 bits count.
    #[error("as many records were handled as may be")]
    Bound,
}

impl From<AllocError> for WatchError {
    ghost from_gives = { λ _ e. e ≡ watch.Memory };

    fn from(_error: AllocError) -> WatchError {
        WatchError::Memory
    }
}

impl<T: Drop> From<AllocFailed<T>> for WatchError {
    ghost from_gives = { λ _ e. e ≡ watch.Memory };

    fn from(_error: AllocFailed<T>) -> WatchError {
        WatchError::Memory
    }
}
