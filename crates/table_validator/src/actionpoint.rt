//! The faults of an actionpoint's entry.

ghost use Rattle.std.specs.Prelude.{◌≡◌, not, ◌||◌, ◌==◌, nat_lt, length, option_map, take_while};
ghost use Rattle.std.specs.Int.{is_in_range};
ghost use Rattle.lc_model.specs.Codes.{first_event_id};
ghost use Rattle.lc_model.specs.Tables.Entry.{event_id_field, event_type_field, fails_field, sequence_field};
ghost use Rattle.lc_model.specs.Text.Token as token;
ghost use Rattle.lc_model.specs.Tables.Image as model;
ghost use Rattle.lc_model.specs.Tables.Image.{actionpoint_code};
ghost use Rattle.table_validator.specs.Fault.{code_number};

use crate::equation_words::words_fault;
use crate::fault::FaultCode;
use lc_model::is_text_byte;
use table_file::{ActionpointEntry, are_zeros};

/// The length of the text field in bytes; at least one zero byte follows the text in it.
const TEXT_FIELD: usize = 32;

/// The least event id of a rule; the ids below belong to the Limit Checker.
const FIRST_EVENT_ID: u16 = 1_000;

/// The number of text bytes (0x20 to 0x7E without the quote) at the front of the field.
fn text_length(field: &[u8]) -> usize
    ensures { result ≡ length (take_while token.is_text_byte field.now) }
{
    field.iter().take_while(|byte| is_text_byte(**byte)).count()
}

/// Whether the field has a text of at most 31 bytes and then zeros only.
fn is_text_field(field: &[u8]) -> bool
    ensures { result ≡ model.is_text_field field.now }
{
    let length = text_length(field);
    length < TEXT_FIELD && are_zeros(&field[length..])
}

/// Whether the number is that of a default state, 1 to 3.
fn is_state(code: u8) -> bool
    ensures { result ≡ is_in_range 1 3 code }
{
    (1..=3).contains(&code)
}

/// Whether the entry's event type isn't 1 to 4, or its event id is below 1,000.
fn has_wrong_event(entry: &ActionpointEntry<'_>) -> bool
    ensures { result ≡
        (not (is_in_range 1 4 (event_type_field entry.now)) || nat_lt (event_id_field entry.now)
        first_event_id) }
{
    !(1..=4).contains(&entry.event_code()) || entry.event_id() < FIRST_EVENT_ID
}

/// Whether the sequence or the number of fails is 0.
fn has_zero(entry: &ActionpointEntry<'_>) -> bool
    ensures { result ≡ (sequence_field entry.now == 0 || fails_field entry.now == 0) }
{
    entry.sequence() == 0 || entry.fails() == 0
}

/// Returns the least code among an actionpoint entry's faults, or `None` if it has none. `watchpoints` is the number
/// of watchpoints that its equation may name.
pub fn actionpoint_fault(entry: &ActionpointEntry<'_>, watchpoints: u16) -> Option<FaultCode>
    ensures { option_map code_number result ≡ actionpoint_code watchpoints entry.now }
{
    if !is_state(entry.state_code()) {
        return Some(FaultCode::UnknownState);
    }
    if has_wrong_event(entry) {
        return Some(FaultCode::WrongEvent);
    }
    if !is_text_field(entry.text_field()) {
        return Some(FaultCode::WrongText);
    }
    if let Some(code) = words_fault(entry, watchpoints) {
        return Some(code);
    }
    if has_zero(entry) {
        return Some(FaultCode::ZeroSequenceOrFails);
    }
    None
}
