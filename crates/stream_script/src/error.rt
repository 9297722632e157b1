//! Why a script is refused.

ghost use Rattle.std.specs.Prelude.{◌≡◌};
ghost use Rattle.stream_script.specs.declared.error.StatementFault.TheVariants.{Line, Memory};
ghost use Rattle.stream_script.specs.declared.error.ScriptError.TheVariants as error;

use std::alloc::{AllocError, AllocFailed};
use thiserror::Error;

/// Why a line of a script is refused.
#[derive(Clone, Copy, Debug, PartialEq, Eq, Error)]
pub enum Reason {
    /// The line isn't a statement: an unknown first word, too few or too many words, or a word that isn't allowed in its place.
    #[error("no statement")]
    UnknownStatement,
    /// A word that has to be a number isn't one, or is out of its range.
    #[error("a number is missing or out of range")]
    BadNumber,
    /// A word that has to be bytes isn't `-` or an even number of hexadecimal digits.
    #[error("bytes are missing")]
    BadBytes,
    /// A word that has to be a kind of record isn't `packet`, `tick`, `file` or `half`.
    #[error("no kind of record")]
    UnknownKind,
    /// A word that has to be a field's type isn't one of the ten types of rule texts.
    #[error("no type of a field")]
    UnknownType,
    /// A field isn't wholly inside its packet, after the headers.
    #[error("a field is outside its packet")]
    OutsidePacket,
    /// A record of this kind can't have this body.
    #[error("no body of a record of this kind")]
    BadBody,
    /// A name is longer than its field.
    #[error("a name is too long")]
    LongName,
}

/// Why a script has no stream; the first faulty line is reported.
#[derive(Clone, Copy, Debug, PartialEq, Eq, Error)]
pub enum ScriptError {
    /// Line `n`, counted from 1, is refused for this reason.
    #[error("line {n}: {reason}")]
    Line { n: usize, reason: Reason },
    /// No memory for the stream.
    #[error("out of memory")]
    Memory,
}

impl<T: Drop> From<AllocFailed<T>> for ScriptError {
    ghost from_gives = { λ _ e. e ≡ error.Memory };

    fn from(_error: AllocFailed<T>) -> ScriptError {
        ScriptError::Memory
    }
}

/// Why a line can't be added to a stream.
#[derive(Clone, Copy)]
pub(crate) enum StatementFault {
    Line(Reason),
    Memory,
}

impl From<AllocError> for StatementFault {
    ghost from_gives = { λ _ e. e ≡ Memory };

    fn from(_error: AllocError) -> StatementFault {
        StatementFault::Memory
    }
}

impl From<Reason> for StatementFault {
    ghost from_gives = { λ reason e. e ≡ Line reason };

    fn from(reason: Reason) -> StatementFault {
        StatementFault::Line(reason)
    }
}
