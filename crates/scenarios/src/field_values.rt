//! Values of fields in the payload of their packet.

ghost use Rattle.std.specs.Prelude.{◌≡◌, ◌<◌, ◌^◌, length, unsigned_abs, IsTrue, IfOk};
ghost use Rattle.lc_model.specs.Field.{is_in_type};
ghost use Rattle.scenarios.specs.Fields.{bits_of, bits_there, is_inside, place_of, put_under, reads, value_bits, value_there, with_bits};

use crate::error::Reason;
use crate::named::{ScenarioField, TELEMETRY_HEADERS};
use stream_script::{bits_of as bits_in_32, write_field};

/// The place of a field in a payload.
fn place_of(field: &ScenarioField<'_>) -> usize
    ensures { result ≡ place_of field.now }
{
    usize::from(field.offset()).saturating_sub(TELEMETRY_HEADERS)
}

/// Whether a field is inside a payload of this size.
pub(crate) fn is_inside(field: &ScenarioField<'_>, size: usize) -> bool
    ensures { result ≡ is_inside field.now size }
{
    usize::from(field.offset()) >= TELEMETRY_HEADERS
        && place_of(field) + field.kind().width() <= size
}

/// The bits of a field that is inside the payload.
fn bits_there(field: &ScenarioField<'_>, payload: &[u8]) -> u32
    requires { IsTrue (is_inside field.now (length payload.now)) }
    ensures { result ≡ bits_there field.now payload.now }
{
    let place = place_of(field);
    field
        .kind()
        .bits_in(&payload[place..place + field.kind().width()])
}

/// The value of a field that is inside the payload, as the host reads it.
fn value_there(field: &ScenarioField<'_>, payload: &[u8]) -> i64
    requires { IsTrue (is_inside field.now (length payload.now)) }
    ensures { result ≡ value_there field.now payload.now }
{
    field
        .kind()
        .signed_value(bits_there(field, payload) & field.mask())
}

/// Whether a field reads this value in a payload.
#[tactic(auto, unfolding(crate::specs::Fields::reads))]
pub(crate) fn reads(field: &ScenarioField<'_>, value: i64, payload: &[u8]) -> bool
    ensures { result ≡ reads field.now value payload.now }
{
    is_inside(field, payload.len()) && value_there(field, payload) == value
}

/// The bits of a number of the type, in two's complement.
fn bits_of(field: &ScenarioField<'_>, value: i64) -> u32
    requires { IsTrue (is_in_type field.now.kind value) }
    ensures { result ≡ bits_of field.now value }
{
    bits_in_32(field.kind(), value) & field.kind().full_mask()
}

/// The bits of a value. Errors: `OutsideType`, and `OutsideMask` if it has bits outside the field's mask.
#[tactic(auto, unfolding(crate::specs::Fields::value_bits))]
pub(crate) fn value_bits(field: &ScenarioField<'_>, value: i64) -> Result<u32, Reason>
    ensures exact { result ≡ value_bits field.now value }
    ensures fits { IfOk result (λ _. unsigned_abs value < 2 ^ 32) }
{
    if !field.kind().has(value) {
        return Err(Reason::OutsideType);
    }
    let bits = bits_of(field, value);
    if bits & field.mask() == bits {
        Ok(bits)
    } else {
        Err(Reason::OutsideMask)
    }
}

/// `before` with the masked bits replaced by those of `bits`.
fn put_under(mask: u32, bits: u32, before: u32) -> u32
    ensures { result ≡ put_under mask bits before }
{
    bits | (before & !mask)
}

/// Writes bits under the mask of a field that is inside the payload.
#[tactic(auto, unfolding(crate::specs::Fields::with_bits))]
pub(crate) fn write_bits(field: &ScenarioField<'_>, bits: u32, payload: &mut Vec<u8>)
    requires { IsTrue (is_inside field.now (length payload.old.items)) }
    ensures { payload.new.items ≡ with_bits field.now bits payload.old.items }
{
    let before = bits_there(field, payload.as_slice());
    write_field(
        payload,
        field.kind(),
        place_of(field),
        put_under(field.mask(), bits, before),
    );
}
