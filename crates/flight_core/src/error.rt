//! The result of a run.

ghost use Rattle.std.specs.Prelude.{◌≡◌};
ghost use Rattle.flight_core.specs.Error.{error_code};
ghost use Rattle.flight_core.specs.declared.error.RunError.TheVariants.{Memory};

use rpn_compiler::CompileError;
use std::alloc::AllocError;
use thiserror::Error;

/// The counts of a run that came to the end of its stream.
#[derive(Clone, Copy, Debug, PartialEq, Eq)]
pub struct Report {
    /// The number of records handled.
    pub records: u64,
    /// The number of bytes written.
    pub bytes: u128,
}

/// Why a run ended before the end of its stream. Records are numbered from 1, texts from 0.
#[derive(Clone, Copy, Debug, PartialEq, Eq, Error)]
pub enum RunError {
    /// A rule text does not compile; nothing was read.
    #[error("text {text}: {error}")]
    Compile { text: usize, error: CompileError },
    /// Record `n` is bad: its kind, its length, its half or its text number is not valid.
    #[error("record {n} is none")]
    BadRecord { n: u64 },
    /// The stream ends inside a record.
    #[error("the stream ends inside record {n}")]
    Truncated { n: u64 },
    /// A read failed. The output of the earlier records has been written.
    #[error("a read failed")]
    Read,
    /// A write failed; the writer took `sent` bytes of this run.
    #[error("a write failed behind {sent} bytes")]
    Write { sent: u128 },
    /// The most reads were made, and the stream has not ended.
    #[error("the stream has not ended after as many reads as may be made")]
    ReadBound,
    /// Out of memory; nothing was read.
    #[error("out of memory")]
    Memory,
}

impl From<AllocError> for RunError {
    ghost from_gives = { λ _ e. e ≡ Memory };

    fn from(_error: AllocError) -> RunError {
        RunError::Memory
    }
}

impl RunError {
    /// Returns the error's number, 141 to 145; `None` for `Memory`, and for `Compile`, which has the compiler's number.
    pub fn code(self) -> Option<u8>
        ensures { result ≡ error_code self }
    {
        match self {
            RunError::BadRecord { .. } => Some(141),
            RunError::Truncated { .. } => Some(142),
            RunError::Read => Some(143),
            RunError::Write { .. } => Some(144),
            RunError::ReadBound => Some(145),
            RunError::Compile { .. } | RunError::Memory => None,
        }
    }
}
