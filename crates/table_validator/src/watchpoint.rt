//! The faults of a watchpoint's entry.

ghost use Rattle.std.specs.Prelude.{◌≡◌, not, ◌||◌, ◌==◌, option_map, slice_index};
ghost use Rattle.std.specs.List.{list_any};
ghost use Rattle.std.specs.Int.{is_in_range};
ghost use Rattle.lc_model.specs.Field.{full_mask};
ghost use Rattle.lc_model.specs.Packet.{is_telemetry_mid, reserved_mids};
ghost use Rattle.lc_model.specs.Tables.Image.{watchpoint_code};
ghost use Rattle.table_validator.specs.Fault.{code_number};

use crate::fault::FaultCode;
use lc_model::FieldType;
use lc_model::mids::{EVENT, LC_HOUSEKEEPING, is_telemetry};
use table_file::WatchpointEntry;

/// Whether the message id may not be watched: it isn't telemetry's, or it is one of the host's own.
fn is_unwatchable(message_id: u16) -> bool
    ensures { result ≡ (not (is_telemetry_mid message_id)
        || list_any (◌==◌ message_id) reserved_mids) }
{
    !is_telemetry(message_id) || message_id == EVENT || message_id == LC_HOUSEKEEPING
}

/// Whether the number is that of a comparison, 1 to 6.
fn is_operator(code: u8) -> bool
    ensures { result ≡ is_in_range 1 6 code }
{
    (1..=6).contains(&code)
}

/// Whether the mask has at least one bit, and none outside the type.
fn is_mask_of(kind: FieldType, mask: u32) -> bool
    ensures { result ≡ is_in_range 1 (full_mask kind) mask }
{
    (1..=kind.full_mask()).contains(&mask)
}

/// Returns the least code among a watchpoint entry's faults, or `None` if it has none. Mask and comparison value are
/// judged by the type, and not at all if the type is unknown.
pub fn watchpoint_fault(entry: &WatchpointEntry<'_>) -> Option<FaultCode>
    ensures { option_map code_number result ≡ watchpoint_code entry.now }
{
    if entry.zero_field() != 0 {
        return Some(FaultCode::NotBlank);
    }
    let Some(kind) = entry.field_type() else {
        return Some(FaultCode::UnknownType);
    };
    if !is_operator(entry.operator_code()) {
        return Some(FaultCode::UnknownOperator);
    }
    if is_unwatchable(entry.message_id()) {
        return Some(FaultCode::WrongMessageId);
    }
    if !is_mask_of(kind, entry.mask()) {
        return Some(FaultCode::WrongMask);
    }
    if !kind.has(entry.value(kind)) {
        return Some(FaultCode::WrongValue);
    }
    None
}
