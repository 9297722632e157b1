//! The errors of reading a command line.

ghost use Rattle.std.specs.Prelude.{◌≡◌};
ghost use Rattle.flight_tools_args.specs.declared.error.WordsError.TheVariants.{Memory};

use clap::Error;
use std::alloc::{AllocError, AllocFailed};

/// Why the words of a command line are refused.
#[derive(Debug, Drop)]
pub enum WordsError {
    /// The words aren't a command; the message is `clap`'s.
    Refused(Error),
    /// The command doesn't have this option; what to write in its place.
    Replaced(&'static str, &'static str),
    /// There is no memory.
    Memory,
}

impl From<AllocError> for WordsError {
    ghost from_gives = { λ _ e. e ≡ Memory };

    fn from(_error: AllocError) -> WordsError {
        WordsError::Memory
    }
}

impl<T: Drop> From<AllocFailed<T>> for WordsError {
    ghost from_gives = { λ _ e. e ≡ Memory };

    fn from(_error: AllocFailed<T>) -> WordsError {
        WordsError::Memory
    }
}
