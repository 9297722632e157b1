//! Payloads whose fields are set by type and offset.

ghost use Rattle.std.specs.Prelude.{◌≡◌, ◌≤◌, ◌+◌, IsTrue, true, length, take, codes, bytes_eq, IfOk, IfErr, Ok, Err, ◌-◌};
ghost use Rattle.lc_model.specs.Field.{field_bytes, is_in_type, width};
ghost use Rattle.lc_model.specs.Packet.{longest_packet, telemetry_header_size};
ghost use Rattle.lc_model.specs.Tables.Image.{bits_32, fits_32_bits};
ghost use Rattle.lc_model.specs.Text.Class.{field_type};
ghost use Rattle.lc_model.specs.Text.Token.{magnitude_text};
ghost use Rattle.text_lines.specs.Lines.{texts_of};
ghost use Rattle.stream_script.specs.Error.{IsRefused};
ghost use Rattle.stream_script.specs.Fields.{field_set, fields_set, payload_of, payload_size, place_in, signed_number, some_type, value_in, written_at};

use crate::error::{Reason, StatementFault};
use crate::number::{is_negative, number_in, without_sign};
use lc_model::FieldType;
use std::alloc::Global;

/// The bytes of telemetry's headers.
const HEADERS: usize = 12;

/// The type that a word names. The error is `UnknownType`.
fn some_type(word: &[u8]) -> Result<FieldType, Reason>
    ensures { result ≡ some_type (field_type word.now) }
{
    match FieldType::from_word(word) {
        Some(kind) => Ok(kind),
        None => Err(Reason::UnknownType),
    }
}

/// The number that digits write, negative where `-` stands in front.
fn signed_number(word: &[u8]) -> Result<i64, Reason>
    ensures { result ≡ signed_number word.now }
{
    let number = i64::from(number_in(u32::MAX, without_sign(word))?);
    Ok(if is_negative(word) { -number } else { number })
}

/// The number of this type that a word writes.
fn value_in(kind: FieldType, word: &[u8]) -> Result<i64, Reason>
    ensures exact { result ≡ value_in kind word.now }
    ensures fits { IfOk result (λ z. is_in_type kind z ≡ true) }
{
    let value = signed_number(word)?;
    if !kind.has(value) {
        return Err(Reason::BadNumber);
    }
    Ok(value)
}

/// The payload's size in a packet of the length that the word writes, both in bytes.
fn payload_size(word: &[u8]) -> Result<usize, Reason>
    ensures exact { result ≡ payload_size word.now }
    ensures most { IfOk result (λ size. size ≤ longest_packet - telemetry_header_size) }
{
    let size = number_in(2_048, word)? as usize;
    if size < HEADERS {
        return Err(Reason::BadNumber);
    }
    Ok(size - HEADERS)
}

/// The place in the payload of a field of this type. The word writes its offset from the packet's first byte.
fn place_in(kind: FieldType, size: usize, word: &[u8]) -> Result<usize, Reason>
    requires { size ≤ longest_packet - telemetry_header_size }
    ensures exact { result ≡ place_in kind size word.now }
    ensures inside { IfOk result (λ place. place + width kind ≤ size) }
{
    let offset = number_in(u32::MAX, word)? as usize;
    if offset < HEADERS || offset + kind.width() > HEADERS + size {
        return Err(Reason::OutsidePacket);
    }
    Ok(offset - HEADERS)
}

/// The low 32 bits of a value, in two's complement; the value has to fit the type.
pub fn bits_of(kind: FieldType, value: i64) -> u32
    requires { IsTrue (fits_32_bits kind value) }
    ensures { result ≡ bits_32 value }
{
    if value < 0 {
        (value + 0x1_0000_0000) as u32
    } else {
        value as u32
    }
}

/// Writes bytes over those at a place of a payload.
fn write_at(payload: &mut Vec<u8>, place: usize, bytes: &[u8])
    requires { place + length bytes.now ≤ length payload.old.items }
    ensures written { payload.new.items ≡ written_at place bytes.now payload.old.items }
    ensures same_size { length payload.new.items ≡ length payload.old.items }
{
    payload[place..place + bytes.len()].copy_from_slice(bytes);
}

/// Writes the low bits into the field of this type at a place of a payload, as many as the field has.
pub fn write_field(payload: &mut Vec<u8>, kind: FieldType, place: usize, bits: u32)
    requires { place + width kind ≤ length payload.old.items }
    ensures written { payload.new.items ≡
        written_at place (field_bytes kind bits) payload.old.items }
    ensures same_size { length payload.new.items ≡ length payload.old.items }
{
    let low_byte = (bits % 0x100) as u8;
    let low_half = (bits % 0x1_0000) as u16;
    match (kind.width(), kind.is_little()) {
        (1, _) => write_at(payload, place, &[low_byte]),
        (2, false) => write_at(payload, place, &low_half.to_be_bytes()),
        (2, true) => write_at(payload, place, &low_half.to_le_bytes()),
        (_, false) => write_at(payload, place, &bits.to_be_bytes()),
        (_, true) => write_at(payload, place, &bits.to_le_bytes()),
    }
}

/// TYPE OFFSET VALUE: a payload with this field set.
fn field_set(
    mut payload: Vec<u8>,
    kind: &[u8],
    offset: &[u8],
    value: &[u8],
) -> Result<Vec<u8>, Reason>
    requires { length payload.items ≤ longest_packet - telemetry_header_size }
    ensures set { IfOk result
        (λ after. field_set payload.items kind.now offset.now value.now ≡ Ok after.items) }
    ensures same_size { IfOk result (λ after. length after.items ≡ length payload.items) }
    ensures refused { IfErr result
        (λ reason. field_set payload.items kind.now offset.now value.now ≡ Err reason) }
{
    let kind = some_type(kind)?;
    let place = place_in(kind, payload.len(), offset)?;
    let value = value_in(kind, value)?;
    write_field(&mut payload, kind, place, bits_of(kind, value));
    Ok(payload)
}

/// A payload with the fields of these words set, one after the other.
fn fields_set(payload: Vec<u8>, words: &[&[u8]]) -> Result<Vec<u8>, Reason>
    requires { length payload.items ≤ longest_packet - telemetry_header_size }
    ensures set { IfOk result
        (λ after. fields_set payload.items (texts_of words.now) ≡ Ok after.items) }
    ensures same_size { IfOk result (λ after. length after.items ≡ length payload.items) }
    ensures refused { IfErr result
        (λ reason. fields_set payload.items (texts_of words.now) ≡ Err reason) }
{
    let mut after = payload;
    let mut left = words;
    while let [kind, offset, value, others @ ..] = left {
        after = field_set(after, kind, offset, value)?;
        left = others;
    }
    if !left.is_empty() {
        return Err(Reason::UnknownStatement);
    }
    Ok(after)
}

/// LENGTH {TYPE OFFSET VALUE}: the payload of a packet of this length, zeros but for the fields.
pub(crate) fn payload_of(
    alloc: Global,
    size: &[u8],
    words: &[&[u8]],
) -> Result<Vec<u8>, StatementFault>
    ensures said { IfOk result
        (λ payload. payload_of size.now (texts_of words.now) ≡ Ok payload.items) }
    ensures refused { IfErr result (IsRefused (payload_of size.now (texts_of words.now))) }
    ensures most { IfOk result
        (λ payload. length payload.items ≤ longest_packet - telemetry_header_size) }
{
    let size = payload_size(size)?;
    let zeros = vec![in alloc; 0; size]?;
    Ok(fields_set(zeros, words)?)
}
