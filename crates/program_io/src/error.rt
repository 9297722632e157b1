//! The errors of calls over files, with the file's name.

ghost use Rattle.std.specs.Prelude.{◌≡◌};
ghost use Rattle.program_io.specs.Error.{error_at};
ghost use Rattle.program_io.specs.declared.error.FileError.TheVariants.{Memory};

use crate::why::{FileFault, Why};
use std::alloc::{AllocError, AllocFailed};

/// The error of a call over files.
#[derive(Clone, Copy)]
pub enum FileError<'a> {
    /// There is no memory.
    Memory,
    /// The file of this name can't be used, and why.
    Unusable(&'a str, Why),
}

impl From<AllocError> for FileError<'_> {
    ghost from_gives = { λ _ e. e ≡ Memory };

    fn from(_error: AllocError) -> Self {
        FileError::Memory
    }
}

impl<T: Drop> From<AllocFailed<T>> for FileError<'_> {
    ghost from_gives = { λ _ e. e ≡ Memory };

    fn from(_error: AllocFailed<T>) -> Self {
        FileError::Memory
    }
}

/// The error of a file of this name.
pub fn error_at(name: &str, fault: FileFault) -> FileError<'_>
    ensures { result ≡ error_at name.entry fault }
{
    match fault {
        FileFault::Memory => FileError::Memory,
        FileFault::Unusable(why) => FileError::Unusable(name, why),
    }
}
