//! Why a text is no schedule.

ghost use Rattle.std.specs.Prelude.{◌≡◌};
ghost use Rattle.schedules.specs.Error.{error_code};
ghost use Rattle.schedules.specs.declared.error.ScheduleError.TheVariants.{Memory};

use std::alloc::AllocError;
use thiserror::Error;

/// Why a text is no schedule, at its first faulty line `n`, counted from 1.
#[derive(Clone, Copy, Debug, PartialEq, Eq, Error)]
pub enum ScheduleError {
    /// The line is not valid at its place; or the text has only blank lines and comments, and `n` is 0.
    #[error("line {n} is no line of a schedule")]
    BadLine { n: usize },
    /// The line asks for more than 64 slots.
    #[error("line {n} asks for over 64 slots")]
    TooManySlots { n: usize },
    /// The line has the ninth entry of its slot.
    #[error("line {n} has the ninth entry of its slot")]
    TooManyEntries { n: usize },
    /// No memory for the slots.
    #[error("out of memory")]
    Memory,
}

impl From<AllocError> for ScheduleError {
    ghost from_gives = { λ _ e. e ≡ Memory };

    fn from(_error: AllocError) -> ScheduleError {
        ScheduleError::Memory
    }
}

impl ScheduleError {
    /// The refusal's number, 131 to 133. `Memory` has none, since the text isn't at fault.
    pub fn code(self) -> Option<u8>
        ensures { result ≡ error_code self }
    {
        match self {
            ScheduleError::BadLine { n: _ } => Some(131),
            ScheduleError::TooManySlots { n: _ } => Some(132),
            ScheduleError::TooManyEntries { n: _ } => Some(133),
            ScheduleError::Memory => None,
        }
    }
}
