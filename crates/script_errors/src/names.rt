//! The names that rule texts declare: lines of a scenario may use them.

use lc_model::FieldType;
use rpn_compiler::RuleText;
use rule_parser::Item;
use std::alloc::{AllocError, Global};

/// The greatest length of a field, in bytes.
const LONGEST_FIELD: i64 = 4;

/// The advice for a name where none is declared.
pub const NAMES_ADVICE: &str = "names come from rule texts, and none is given";

/// A field that a rule text declares.
#[derive(Clone, Copy)]
pub struct FieldName<'a> {
    /// The name of the field.
    pub name: &'a [u8],
    /// The name of its packet.
    pub packet: &'a [u8],
    /// The type of the field.
    pub kind: FieldType,
    /// The number of bytes of the packet before it.
    pub offset: i64,
    /// The mask of the field; all bits of its type if the rule text gives no mask.
    pub mask: i64,
}

impl FieldName<'_> {
    /// The bits of a value outside the mask, in two's complement.
    pub(crate) fn bits_beside(self, value: i64) -> i64 {
        value & i64::from(self.kind.full_mask()) & !self.mask
    }

    /// The byte of a value, in two's complement, at a place among the field's bytes; none outside the field.
    fn byte_at(self, bits: i64, place: usize) -> Option<u8> {
        let last = self.kind.width().checked_sub(1)?;
        let number = if self.kind.is_little() {
            place
        } else {
            last.checked_sub(place)?
        };
        let word = u32::try_from(bits & i64::from(self.kind.full_mask())).ok()?;
        if last < number {
            return None;
        }
        word.to_le_bytes().get(number).copied()
    }

    /// The field's mask in the packet's byte with this index, and this byte of the field's value; none if the byte is not the field's.
    fn bits_given(self, value: i64, byte: i64) -> Option<(u8, u8)> {
        let place = usize::try_from(byte.checked_sub(self.offset)?).ok()?;
        Some((self.byte_at(self.mask, place)?, self.byte_at(value, place)?))
    }

    /// Whether this value and the one given to the other field set a shared bit differently.
    pub(crate) fn contradicts(self, value: i64, other: FieldName<'_>, given: i64) -> bool {
        for place in 0..LONGEST_FIELD {
            let byte = self.offset.saturating_add(place);
            if let (Some((mask, bits)), Some((other_mask, other_bits))) = (
                self.bits_given(value, byte),
                other.bits_given(given, byte),
            ) {
                if (bits ^ other_bits) & mask & other_mask != 0 {
                    return true;
                }
            }
        }
        false
    }
}

/// The names that rule texts declare, in the order of the texts and of their lines.
#[derive(Drop)]
pub struct DeclaredNames<'a> {
    /// The names of packets.
    pub packets: Vec<&'a [u8]>,
    /// The fields.
    pub fields: Vec<FieldName<'a>>,
    /// The names of rules.
    pub rules: Vec<&'a [u8]>,
}

impl<'a> DeclaredNames<'a> {
    /// Collects the names that these rule texts declare. The only error is out of memory.
    pub fn of_texts(
        alloc: Global,
        texts: &[RuleText<'a>],
    ) -> Result<DeclaredNames<'a>, AllocError> {
        let mut names = DeclaredNames {
            packets: Vec::new(alloc),
            fields: Vec::new(alloc),
            rules: Vec::new(alloc),
        };
        for text in texts {
            for item in &text.file.items {
                names.take(item)?;
            }
        }
        Ok(names)
    }

    /// Adds what an item declares.
    fn take(&mut self, item: &Item<'a>) -> Result<(), AllocError> {
        match item {
            Item::Packet(packet) => self.packets.push(packet.name.text)?,
            Item::Rule(rule) => self.rules.push(rule.name.text)?,
            Item::Field(field) => self.fields.push(FieldName {
                name: field.name.text,
                packet: field.packet.text,
                kind: field.kind,
                offset: field.offset.value,
                mask: match field.mask {
                    Some(mask) => mask.value,
                    None => i64::from(field.kind.full_mask()),
                },
            })?,
        }
        Ok(())
    }

    /// Whether no name is declared.
    pub(crate) fn is_empty(&self) -> bool {
        self.packets.is_empty() && self.fields.is_empty() && self.rules.is_empty()
    }

    /// The first field with this name.
    pub(crate) fn field(&self, name: &[u8]) -> Option<FieldName<'a>> {
        self.fields.iter().find(|field| field.name == name).copied()
    }

    /// The names of all rules, and another word.
    pub(crate) fn rules_and(
        &self,
        alloc: Global,
        other: &'a [u8],
    ) -> Result<Vec<&'a [u8]>, AllocError> {
        let mut found = Vec::from_slice(alloc, self.rules.as_slice())?;
        found.push(other)?;
        Ok(found)
    }

    /// The names of the fields of this packet; of all fields if this packet has none.
    pub(crate) fn fields_of(
        &self,
        alloc: Global,
        packet: &[u8],
    ) -> Result<Vec<&'a [u8]>, AllocError> {
        let has_own = self.fields.iter().any(|field| field.packet == packet);
        let mut found = Vec::new(alloc);
        for field in &self.fields {
            if !has_own || field.packet == packet {
                found.push(field.name)?;
            }
        }
        Ok(found)
    }
}
