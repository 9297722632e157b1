//! Why items do not mean rules.

ghost use Rattle.std.specs.Prelude.{◌≡◌};
ghost use Rattle.field_checker.specs.declared.error.CheckError.TheVariants.{Memory};
ghost use Rattle.field_checker.specs.Fault.{error_code, error_of};

use crate::fault::{Check, CheckFault};
use std::alloc::AllocError;
use thiserror::Error;

/// The first fault of a rule text's items, with the number of bytes of the text before it.
#[derive(Clone, Copy, Debug, PartialEq, Eq, Error)]
pub enum CheckError {
    /// The name of a packet, a field or a rule is declared at a lesser place too.
    #[error("the name at {at} is declared before")]
    DuplicateName { at: usize },
    /// A field's packet name names no packet, or a condition's name no field.
    #[error("nothing of that kind has the name at {at}")]
    UnknownName { at: usize },
    /// A message id outside 0x0800 to 0x0FFF, those of telemetry (CCSDS 133.0-B).
    #[error("the message id at {at} isn't one of telemetry, 0x0800 to 0x0FFF")]
    MidRange { at: usize },
    /// The message id of event packets or of the Limit Checker's housekeeping, 0x0808 or 0x08A7.
    #[error("the message id at {at} is one of the host's own, 0x0808 and 0x08A7")]
    ReservedMid { at: usize },
    /// A field begins before its packet's first byte, or ends after the packet's declared length.
    #[error("the field at {at} isn't inside its packet")]
    FieldOutside { at: usize },
    /// A mask without a bit, or with one outside the field's type.
    #[error("the mask at {at} isn't in the field's type: 1 to 0xFF in 8 bits, to 0xFFFF in 16, to 0xFFFFFFFF in 32")]
    MaskRange { at: usize },
    /// A comparison's number outside the range of the field's type.
    #[error("the number at {at} isn't in the field's type: u8 0 to 255, i8 -128 to 127, u16 0 to 65,535, i16 -32,768 to 32,767, u32 0 to 4,294,967,295, i32 -2,147,483,648 to 2,147,483,647")]
    ConstRange { at: usize },
    /// A number of a rule, or a stale age, that is out of its range. `number_at` finds which number it is.
    #[error("the number at {at} is out of range")]
    NumberRange { at: usize },
    /// A packet's length outside 12 to 2,048 bytes.
    #[error("the packet length at {at} isn't from 12 to 2,048")]
    LengthRange { at: usize },
    /// No memory for the names or the rules.
    #[error("out of memory")]
    Memory,
}

impl From<AllocError> for CheckError {
    ghost from_gives = { λ _ e. e ≡ Memory };

    fn from(_error: AllocError) -> CheckError {
        CheckError::Memory
    }
}

impl From<CheckFault> for CheckError {
    ghost from_gives = { λ f e. e ≡ error_of f };

    fn from(fault: CheckFault) -> CheckError {
        let at = fault.at;
        match fault.check {
            Check::DuplicateName => CheckError::DuplicateName { at },
            Check::UnknownName => CheckError::UnknownName { at },
            Check::MidRange => CheckError::MidRange { at },
            Check::ReservedMid => CheckError::ReservedMid { at },
            Check::FieldOutside => CheckError::FieldOutside { at },
            Check::MaskRange => CheckError::MaskRange { at },
            Check::ConstRange => CheckError::ConstRange { at },
            Check::NumberRange => CheckError::NumberRange { at },
            Check::LengthRange => CheckError::LengthRange { at },
        }
    }
}

impl CheckError {
    /// The fault's number, 21 to 29. `Memory` has none, since the text isn't at fault.
    pub fn code(self) -> Option<u8>
        ensures { result ≡ error_code self }
    {
        match self {
            CheckError::DuplicateName { .. } => Some(21),
            CheckError::UnknownName { .. } => Some(22),
            CheckError::MidRange { .. } => Some(23),
            CheckError::ReservedMid { .. } => Some(24),
            CheckError::FieldOutside { .. } => Some(25),
            CheckError::MaskRange { .. } => Some(26),
            CheckError::ConstRange { .. } => Some(27),
            CheckError::NumberRange { .. } => Some(28),
            CheckError::LengthRange { .. } => Some(29),
            CheckError::Memory => None,
        }
    }
}
