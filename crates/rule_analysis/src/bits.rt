//! The bits that a field has in its packets.

ghost use Rattle.std.specs.Prelude.{◌≡◌, ◌<◌};
ghost use Rattle.std.specs.Int.{byte_at};
ghost use Rattle.lc_model.specs.Field.{width};
ghost use Rattle.rule_analysis.specs.Bits.{bits_read, byte_number, byte_there};

use crate::fields::Field;
use lc_model::FieldType;

/// A byte of a number; 0 is the lowest.
fn byte_at(number: u32, index: usize) -> u8
    requires { index < 4 }
    ensures { result ≡ byte_at index number }
{
    match index {
        0 => (number & 0xFF) as u8,
        1 => (number >> 8 & 0xFF) as u8,
        2 => (number >> 16 & 0xFF) as u8,
        _ => (number >> 24 & 0xFF) as u8,
    }
}

/// The index of the number's byte that is this many bytes after a field's first byte; 0 is the lowest byte.
fn byte_number(kind: FieldType, behind: usize) -> usize
    requires { behind < width kind }
    ensures number { result ≡ byte_number kind behind }
    ensures few { result < 4 }
{
    if kind.is_little() {
        behind
    } else {
        kind.width() - 1 - behind
    }
}

/// The byte that a number has at this place of a packet, written into the field; 0 beside the field.
pub(crate) fn byte_there(field: &Field, number: u32, place: usize) -> u8
    ensures { result ≡ byte_there field.now number place }
{
    let start = field.offset as usize;
    if start <= place && place < start + field.kind.width() {
        byte_at(number, byte_number(field.kind, place - start))
    } else {
        0
    }
}

/// The bits that the field reads of the packet's byte at this place, counted from the first byte of the packet's header; 0 beside
/// the field.
pub fn bits_read(field: &Field, place: usize) -> u8
    ensures { result ≡ bits_read field.now place }
{
    byte_there(field, field.mask, place)
}
