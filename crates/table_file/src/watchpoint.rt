//! The fields of a watchpoint's entry.

ghost use Rattle.std.specs.Prelude.{◌≡◌, ◌<◌, length};
ghost use Rattle.lc_model.specs.Bytes.{u16_at, u32_at};
ghost use Rattle.lc_model.specs.Codes.{table_entries};
ghost use Rattle.lc_model.specs.Tables.Entry.{mask_field, mid_field, offset_field, operator_field, stale_field, type_field, value_field, zero_field};
ghost use Rattle.lc_model.specs.Tables.Image.{Watchpoints, image_length, entry_at, type_of_code, twos_complement_32};
ghost use Rattle.lc_model.specs.Tables.Spelled.{operator_of_code, spelled_term};

use crate::codes::operator_of;
use crate::entry::entry_bytes;
use crate::layout::Layout;
use lc_model::{CmpOp, FieldType, Term, u16_at, u32_at};
use std::marker::Model;

/// The entry of a watchpoint, 24 bytes of an image. Contracts see the bytes.
#[derive(Debug, Drop)]
pub struct WatchpointEntry<'a> {
    bytes: &'a [u8],
}

impl<'a> Model for WatchpointEntry<'a> {
    ghost use Rattle.std.specs.Prelude.{◌≡◌, ℕ, List, length};
    ghost use Rattle.lc_model.specs.Tables.Image.{Watchpoints, entry_length};

    ghost Value = { List ℕ };

    ghost view = { λ e. e.bytes.now };

    ghost invariant = { λ e. length e.bytes.now ≡ entry_length Watchpoints };
}

/// The number that 32 bits are, in two's complement where the type has negative numbers.
fn value_of(kind: FieldType, bits: u32) -> i64
    ensures { result ≡ twos_complement_32 kind bits }
{
    if kind.is_signed() && bits >= 0x8000_0000 {
        bits as i64 - 0x1_0000_0000
    } else {
        bits as i64
    }
}

impl<'a> WatchpointEntry<'a> {
    /// Entry `number` of an image.
    pub fn of(image: &'a [u8], number: usize) -> WatchpointEntry<'a>
        requires whole { length image.now ≡ image_length Watchpoints }
        requires within { number < table_entries }
        ensures { result ≡ entry_at Watchpoints image.now number }
    {
        WatchpointEntry {
            bytes: entry_bytes(Layout::Watchpoints, image, number),
        }
    }

    /// The number of the field's type.
    pub fn type_code(&self) -> u8
        ensures { result ≡ type_field self.now }
    {
        self.bytes[0]
    }

    /// The field's type; `None` where no type has the number.
    pub fn field_type(&self) -> Option<FieldType>
        ensures { result ≡ type_of_code (type_field self.now) }
    {
        FieldType::from_code(self.bytes[0])
    }

    /// The number of the comparison.
    pub fn operator_code(&self) -> u8
        ensures { result ≡ operator_field self.now }
    {
        self.bytes[1]
    }

    /// The comparison; `<` where none has the number.
    pub fn operator(&self) -> CmpOp
        ensures { result ≡ operator_of_code (operator_field self.now) }
    {
        operator_of(self.bytes[1])
    }

    /// The message id of the packets that have the field.
    pub fn message_id(&self) -> u16
        ensures { result ≡ mid_field self.now }
    {
        u16_at(self.bytes, 2)
    }

    /// Bytes before the field, from the packet's first byte.
    pub fn offset(&self) -> u32
        ensures { result ≡ offset_field self.now }
    {
        u32_at(self.bytes, 4)
    }

    /// The field's bits that count.
    pub fn mask(&self) -> u32
        ensures { result ≡ mask_field self.now }
    {
        u32_at(self.bytes, 8)
    }

    /// The field that is 0 in a sound entry.
    pub fn zero_field(&self) -> u32
        ensures { result ≡ zero_field self.now }
    {
        u32_at(self.bytes, 12)
    }

    /// Agings after which the result is stale; 0 means never.
    pub fn stale(&self) -> u32
        ensures { result ≡ stale_field self.now }
    {
        u32_at(self.bytes, 16)
    }

    /// The number that the field is compared with, in 32 bits.
    pub fn value_bits(&self) -> u32
        ensures { result ≡ value_field self.now }
    {
        u32_at(self.bytes, 20)
    }

    /// The number that the field is compared with, if its type is this one.
    pub fn value(&self, kind: FieldType) -> i64
        ensures { result ≡ twos_complement_32 kind (value_field self.now) }
    {
        value_of(kind, self.value_bits())
    }

    /// The watchpoint in an entry. In an entry that is not sound, an unknown type is read as `u8` and an unknown comparison
    /// as `<`.
    pub fn term(&self) -> Term
        ensures { result ≡ spelled_term self.now }
    {
        let kind = self.field_type().unwrap_or(FieldType::U8);
        Term {
            kind,
            mid: self.message_id(),
            offset: self.offset(),
            mask: self.mask(),
            stale: self.stale(),
            op: self.operator(),
            value: self.value(kind),
        }
    }
}
