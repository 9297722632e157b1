//! Why a call of the event services is refused.

ghost use Rattle.std.specs.Prelude.{◌≡◌};
ghost use Rattle.event_service.specs.Error.{error_code};
ghost use Rattle.event_service.specs.declared.error.EventError.TheVariants.{Memory};

use std::alloc::{AllocError, AllocFailed};
use thiserror::Error;

/// Why a call is refused; it changes nothing then.
#[derive(Clone, Copy, Debug, PartialEq, Eq, Error)]
pub enum EventError {
    /// No sender is registered under the name, or at the seat.
    #[error("no such sender")]
    NotRegistered,
    /// The sender has filters for 16 other ids.
    #[error("the sender has 16 filters")]
    FilterFull,
    /// The seat or the name is taken; `HOST` always is.
    #[error("the seat or the name is taken")]
    AppsFull,
    /// No memory for the places of the senders; only `Events::new` returns it.
    #[error("out of memory")]
    Memory,
}

impl<T: Drop> From<AllocFailed<T>> for EventError {
    ghost from_gives = { λ _ e. e ≡ Memory };

    fn from(_failed: AllocFailed<T>) -> EventError {
        EventError::Memory
    }
}

impl From<AllocError> for EventError {
    ghost from_gives = { λ _ e. e ≡ Memory };

    fn from(_error: AllocError) -> EventError {
        EventError::Memory
    }
}

impl EventError {
    /// Returns the refusal's number, 101 to 103, or `None` for `Memory`: then the call isn't at fault.
    pub fn code(self) -> Option<u8>
        ensures { result ≡ error_code self }
    {
        match self {
            EventError::NotRegistered => Some(101),
            EventError::FilterFull => Some(102),
            EventError::AppsFull => Some(103),
            EventError::Memory => None,
        }
    }
}
