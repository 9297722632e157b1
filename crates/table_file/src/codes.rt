//! Comparisons, states and event types by their numbers in a table's entries, with a default for any other number (this
//! project's own).

ghost use Rattle.std.specs.Prelude.{◌≡◌};
ghost use Rattle.lc_model.specs.Tables.Spelled.{operator_of_code, state_of_code, event_of_code};

use lc_model::{ApMode, CmpOp, EventKind};

/// The comparison with this number, or `<` if none has it.
pub fn operator_of(code: u8) -> CmpOp
    ensures { result ≡ operator_of_code code }
{
    match code {
        2 => CmpOp::LessOrEqual,
        3 => CmpOp::NotEqual,
        4 => CmpOp::Equal,
        5 => CmpOp::GreaterOrEqual,
        6 => CmpOp::Greater,
        _ => CmpOp::Less,
    }
}

/// The default state with this number, or active if none has it.
pub fn state_of(code: u8) -> ApMode
    ensures { result ≡ state_of_code code }
{
    match code {
        2 => ApMode::Passive,
        3 => ApMode::Disabled,
        _ => ApMode::Active,
    }
}

/// The event type with this number, or debug if none has it.
pub fn event_kind_of(code: u16) -> EventKind
    ensures { result ≡ event_of_code code }
{
    match code {
        2 => EventKind::Information,
        3 => EventKind::Error,
        4 => EventKind::Critical,
        _ => EventKind::Debug,
    }
}
