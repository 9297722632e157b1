//! Why a scenario is refused.

ghost use Rattle.std.specs.Prelude.{◌≡◌};
ghost use Rattle.scenarios.specs.declared.error.LineRefusal.TheVariants as fault;
ghost use Rattle.scenarios.specs.declared.error.ScenarioError.TheVariants as error;

use std::alloc::{AllocError, AllocFailed};
use thiserror::Error;

/// What is wrong with a line of a scenario.
#[derive(Clone, Copy, Debug, PartialEq, Eq, Error)]
pub enum Reason {
    /// A word after a packet's name isn't `FIELD=VALUE`.
    #[error("behind a packet's name stand its fields as `FIELD=VALUE`")]
    NoField,
    /// The packet has no field of that name.
    #[error("the packet has no field of that name")]
    OtherField,
    /// No rule text declares that field.
    #[error("no rule text declares that field")]
    UnknownField,
    /// No rule text has a rule of that name.
    #[error("no rule text has a rule of that name")]
    UnknownRule,
    /// A word that has to be a number isn't one, or is out of its range.
    #[error("a number is missing or out of range")]
    BadNumber,
    /// A value is outside its field's type.
    #[error("the value is outside the type of the field")]
    OutsideType,
    /// A value has bits outside the mask of its field.
    #[error("the value has bits outside the field's mask")]
    OutsideMask,
    /// Two fields of a line give the same bit different values.
    #[error("two fields of this line give one bit two values")]
    TwoValues,
    /// A field is outside its packet.
    #[error("the field is outside its packet")]
    OutsidePacket,
    /// A ramp isn't `ramp FIELD FROM TO by STEP each SECONDS [tick]`.
    #[error("a ramp is `ramp FIELD FROM TO by STEP each SECONDS`, with `tick` behind it where ticks are wanted")]
    NoRamp,
    /// The Limit Checker has no such mode.
    #[error("a mode is `active`, `passive` or `disabled`")]
    NoMode,
    /// A rule has no such state.
    #[error("a state is `active`, `passive`, `disabled` or `off`, behind a rule's name or `all`, which can't be off")]
    NoState,
    /// A filter isn't `filter APPLICATION EVENT MASK`.
    #[error("a filter is `filter APPLICATION EVENT MASK`")]
    NoFilter,
    /// A repetition doesn't begin with `repeat NUMBER {`.
    #[error("lines are repeated by `repeat NUMBER {{` before them and `}}` behind them")]
    NoRepeat,
    /// A repetition has no `}`.
    #[error("`repeat` has no `}}`")]
    Unended,
    /// A `}` doesn't end a repetition.
    #[error("`}}` ends no `repeat`")]
    Unbegun,
    /// The plain script has over 1,000,000 lines, a ramp has over 100,000 values, or over 10,000,000 lines are read with repetitions.
    #[error("the script has over 1000000 lines")]
    TooLong,
}

/// Why a scenario has no script; the first faulty line is reported.
#[derive(Clone, Copy, Debug, PartialEq, Eq, Error)]
pub enum ScenarioError {
    /// Line `n`, counted from 1, is refused for this reason.
    #[error("line {n}: {reason}")]
    Line { n: usize, reason: Reason },
    /// There is no memory.
    #[error("out of memory")]
    Memory,
}

/// Why a line gives no lines of a script.
#[derive(Clone, Copy)]
pub(crate) enum LineRefusal {
    Line(Reason),
    Memory,
}

impl From<Reason> for LineRefusal {
    ghost from_gives = { λ reason e. e ≡ fault.Line reason };

    fn from(reason: Reason) -> LineRefusal {
        LineRefusal::Line(reason)
    }
}

impl From<AllocError> for LineRefusal {
    ghost from_gives = { λ _ e. e ≡ fault.Memory };

    fn from(_error: AllocError) -> LineRefusal {
        LineRefusal::Memory
    }
}

impl<T: Drop> From<AllocFailed<T>> for LineRefusal {
    ghost from_gives = { λ _ e. e ≡ fault.Memory };

    fn from(_error: AllocFailed<T>) -> LineRefusal {
        LineRefusal::Memory
    }
}

impl From<AllocError> for ScenarioError {
    ghost from_gives = { λ _ e. e ≡ error.Memory };

    fn from(_error: AllocError) -> ScenarioError {
        ScenarioError::Memory
    }
}

impl<T: Drop> From<AllocFailed<T>> for ScenarioError {
    ghost from_gives = { λ _ e. e ≡ error.Memory };

    fn from(_error: AllocFailed<T>) -> ScenarioError {
        ScenarioError::Memory
    }
}
