//! Why the bus refuses a call.

ghost use Rattle.std.specs.Prelude.{◌≡◌};
ghost use Rattle.packet_bus.specs.Error.{error_code};
ghost use Rattle.packet_bus.specs.declared.error.BusError.TheVariants.{Memory};

use crate::HeaderFault;
use std::alloc::AllocError;
use thiserror::Error;

/// Why the bus refuses a call, or a lack of memory. A refused call leaves the bus as it was.
#[derive(Clone, Copy, Debug, PartialEq, Eq, Error)]
pub enum BusError {
    /// The bytes are not a packet of this profile; this is the fault.
    #[error("bad packet: {reason}")]
    BadPacket { reason: HeaderFault },
    /// A pipe that is subscribed to the packet's message id holds 72 packets. No pipe gets the packet.
    #[error("a pipe is full")]
    PipeFull,
    /// The seat has no pipe.
    #[error("no pipe on this seat")]
    NoPipe,
    /// The seat has a pipe already.
    #[error("the seat has its pipe")]
    TooManyPipes,
    /// The pipe has 256 subscriptions.
    #[error("the pipe has 256 subscriptions")]
    TooManySubscriptions,
    /// No memory for a bus. Only `Bus::new` returns it.
    #[error("out of memory")]
    Memory,
}

impl From<AllocError> for BusError {
    ghost from_gives = { λ _ e. e ≡ Memory };

    fn from(_refused: AllocError) -> BusError {
        BusError::Memory
    }
}

impl BusError {
    /// Returns the refusal's number, 91 to 95, or `None` for `Memory`: then nothing was refused.
    pub fn code(self) -> Option<u8>
        ensures { result ≡ error_code self }
    {
        match self {
            BusError::BadPacket { reason: _ } => Some(91),
            BusError::PipeFull => Some(92),
            BusError::NoPipe => Some(93),
            BusError::TooManyPipes => Some(94),
            BusError::TooManySubscriptions => Some(95),
            BusError::Memory => None,
        }
    }
}
