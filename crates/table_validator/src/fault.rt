//! The faults by which an image is refused (the codes are this project's own).

ghost use Rattle.std.specs.Prelude.{◌≡◌};
ghost use Rattle.lc_model.specs.Tables.Image.{whole_image};
ghost use Rattle.table_validator.specs.Fault.{code_number};

use thiserror::Error;

/// The entry number of a fault that belongs to the image as a whole.
pub const WHOLE_IMAGE: u16 = 65_535;

/// What is wrong with an image or an entry. The variants' order is that of their numbers, 61 to 81.
#[derive(Clone, Copy, Debug, PartialEq, Eq, Error)]
pub enum FaultCode {
    /// The version isn't that of images with this length.
    #[error("another version")]
    WrongVersion,
    /// The kind is that of another table than the requested one.
    #[error("another table's kind")]
    WrongKind,
    /// The length isn't one of the requested table's images.
    #[error("another length than the table's images have")]
    WrongSize,
    /// A count is over 176, or the two counts of a watchpoint table differ.
    #[error("the counts are over 176 or differ")]
    WrongCounts,
    /// An unused entry isn't 0xFF and zeros, or a watchpoint's zero field isn't 0.
    #[error("an unused entry isn't blank, or a zero field isn't 0")]
    NotBlank,
    /// No field type has the type's number.
    #[error("no such type")]
    UnknownType,
    /// No comparison has the operator's number.
    #[error("no such comparison")]
    UnknownOperator,
    /// The message id isn't telemetry's, or it is one of the host's own.
    #[error("no message id that may be watched")]
    WrongMessageId,
    /// The mask is 0, or has bits outside the type.
    #[error("the mask is 0 or wider than the type")]
    WrongMask,
    /// The comparison value is outside the type's range.
    #[error("the comparison value is outside the type's range")]
    WrongValue,
    /// The default state isn't 1 to 3.
    #[error("no such default state")]
    UnknownState,
    /// The event type isn't 1 to 4, or the event id is below 1,000.
    #[error("no such event type, or an event id below 1000")]
    WrongEvent,
    /// The text field isn't at most 31 bytes from 0x20 to 0x7E without `"`, and then zeros.
    #[error("the event's text is malformed")]
    WrongText,
    /// The equation has no word EQUAL.
    #[error("an equation without EQUAL")]
    NoEqual,
    /// A word after the first EQUAL isn't 0.
    #[error("a word after EQUAL")]
    WordAfterEqual,
    /// A word before EQUAL is neither a number below 176 nor an operator.
    #[error("an unknown word")]
    UnknownWord,
    /// A word is below 176 but not below the watchpoint count.
    #[error("no such watchpoint")]
    UnknownWatchpoint,
    /// An operator, or EQUAL, has fewer operands than it takes.
    #[error("an operand is missing")]
    MissingOperand,
    /// More than eight operands wait at once.
    #[error("more than eight operands wait")]
    TooManyOperands,
    /// More than one operand is left at EQUAL.
    #[error("EQUAL finds more than one operand")]
    OperandsLeft,
    /// The sequence or the number of fails is 0.
    #[error("the sequence or the number of fails is 0")]
    ZeroSequenceOrFails,
}

impl FaultCode {
    /// Returns the code's number, 61 to 81.
    pub fn number(self) -> u8
        ensures { result ≡ code_number self }
    {
        match self {
            FaultCode::WrongVersion => 61,
            FaultCode::WrongKind => 62,
            FaultCode::WrongSize => 63,
            FaultCode::WrongCounts => 64,
            FaultCode::NotBlank => 65,
            FaultCode::UnknownType => 66,
            FaultCode::UnknownOperator => 67,
            FaultCode::WrongMessageId => 68,
            FaultCode::WrongMask => 69,
            FaultCode::WrongValue => 70,
            FaultCode::UnknownState => 71,
            FaultCode::WrongEvent => 72,
            FaultCode::WrongText => 73,
            FaultCode::NoEqual => 74,
            FaultCode::WordAfterEqual => 75,
            FaultCode::UnknownWord => 76,
            FaultCode::UnknownWatchpoint => 77,
            FaultCode::MissingOperand => 78,
            FaultCode::TooManyOperands => 79,
            FaultCode::OperandsLeft => 80,
            FaultCode::ZeroSequenceOrFails => 81,
        }
    }
}

/// The one fault by which an image is refused: that of the image as a whole, if it has one; else the least code of
/// the first entry with a fault.
#[derive(Clone, Copy, Debug, PartialEq, Eq, Error)]
#[error("entry {entry}: {code}")]
pub struct TableFault {
    /// What is wrong; its `number` is 61 to 81.
    pub code: FaultCode,
    /// The entry's number, counted from 0, or `WHOLE_IMAGE`.
    pub entry: u16,
}

impl TableFault {
    /// A fault of the image as a whole.
    pub(crate) fn of_image(code: FaultCode) -> TableFault
        ensures { result ≡ record { code = code; entry = whole_image } }
    {
        TableFault {
            code,
            entry: WHOLE_IMAGE,
        }
    }
}
