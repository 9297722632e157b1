//! Why a text is refused.

ghost use Rattle.std.specs.Prelude.{◌≡◌};
ghost use Rattle.script_errors.specs.declared.refusal.Refusal.TheVariants.{Memory};

use diagnostics::Message;
use std::alloc::AllocError;

/// Why a schedule or a script is refused.
#[derive(Drop)]
pub enum Refusal {
    /// The message about the text's first fault.
    Told(Message),
    /// Out of memory, for the text or for the message.
    Memory,
}

impl From<AllocError> for Refusal {
    ghost from_gives = { λ _ e. e ≡ Memory };

    fn from(_error: AllocError) -> Refusal {
        Refusal::Memory
    }
}
