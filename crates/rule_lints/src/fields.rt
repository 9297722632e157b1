//! The fields that a text declares, and which of them share bits.

ghost use Rattle.std.specs.Prelude.{◌≡◌, ◌+◌, ◌++◌, ◌<◌, ◌^◌, ◌==◌, not, [], IfOk, OnOk, bit_and, nat_abs, option_map};
ghost use Rattle.lc_model.specs.Field.{width};
ghost use Rattle.lc_model.specs.Text.Meaning as meaning;
ghost use Rattle.lc_model.specs.Text.Meaning.{faults};
ghost use Rattle.rule_parser.specs.Syntax.{field_of, item_of, items_of, name_of, packet_of};
ghost use Rattle.rule_analysis.specs.Bits.{bits_read, reads_some};
ghost use Rattle.rule_lints.specs.Items.{bits_of, declared_in, field_in, fields_of, is_word_and_part, overlap, overlapped_by, overlaps_before};

use rule_analysis::{Field, bits_read};
use rule_parser::{FieldItem, Item, Name, Number, PacketItem};
use std::alloc::{AllocError, Global};

/// A field of a text.
#[derive(Clone, Copy)]
pub(crate) struct DeclaredField {
    /// The place of its name.
    pub at: usize,
    /// The bits of its packet that it has.
    pub bits: Field,
}

/// The packet of this name.
fn packet_named<'f, 'a>(items: &'f [Item<'a>], name: Name<'_>) -> Option<&'f PacketItem<'a>>
    ensures { option_map (λ p. packet_of p.now) result ≡
        meaning.packet_named (items_of items.now) (name_of name.entry) }
{
    for item in items {
        if let Item::Packet(packet) = item {
            if packet.name.text == name.text {
                return Some(packet);
            }
        }
    }
    None
}

/// A number's magnitude, in 32 bits.
fn magnitude(number: Number) -> u32
    ensures { result ≡ nat_abs number.value }
{
    number.value.unsigned_abs() as u32
}

/// The bits that a field of a packet has.
fn bits_of(field: &FieldItem<'_>, packet: &PacketItem<'_>) -> Field
    requires { nat_abs packet.now.mid.value < 2 ^ 16 }
    ensures { result ≡ bits_of (field_of field.now) (packet_of packet.now) }
{
    Field {
        kind: field.kind,
        mid: packet.mid.value.unsigned_abs() as u16,
        offset: magnitude(field.offset),
        mask: field.mask.map_or(field.kind.full_mask(), magnitude),
    }
}

/// A field with its place and its bits.
pub(crate) fn declared_in(items: &[Item<'_>], field: &FieldItem<'_>) -> Option<DeclaredField>
    requires { faults (items_of items.now) ≡ [] }
    ensures { result ≡ declared_in (items_of items.now) (field_of field.now) }
{
    match packet_named(items, field.packet) {
        Some(packet) => Some(DeclaredField {
            at: field.name.at,
            bits: bits_of(field, packet),
        }),
        None => None,
    }
}

/// Adds the field that an item declares, if it is one.
fn add_field(
    items: &[Item<'_>],
    item: &Item<'_>,
    fields: &mut Vec<DeclaredField>,
) -> Result<(), AllocError>
    requires { faults (items_of items.now) ≡ [] }
    ensures { OnOk result (fields.new.items ≡
        fields.old.items ++ field_in (items_of items.now) (item_of item.now)) }
{
    let Item::Field(field) = item else {
        return Ok(());
    };
    if let Some(declared) = declared_in(items, field) {
        fields.push(declared)?;
    }
    Ok(())
}

/// The fields that a text declares, in its order.
pub(crate) fn fields_of(alloc: Global, items: &[Item<'_>]) -> Result<Vec<DeclaredField>, AllocError>
    requires { faults (items_of items.now) ≡ [] }
    ensures { IfOk result (λ fields. fields.items ≡ fields_of (items_of items.now)) }
{
    let mut fields = Vec::new(alloc);
    for item in items {
        add_field(items, item, &mut fields)?;
    }
    Ok(fields)
}

/// Whether the two have one type and offset, and the mask of one contains the other's.
fn is_word_and_part(first: &Field, second: &Field) -> bool
    ensures { result ≡ is_word_and_part first.now second.now }
{
    let common = first.mask & second.mask;
    first.kind.code() == second.kind.code()
        && first.offset == second.offset
        && (common == first.mask || common == second.mask)
}

/// Whether both fields read a bit of the byte that is this many bytes after the second one's first byte.
fn meet_at(first: &Field, second: &Field, behind: usize) -> bool
    requires { behind < width second.now.kind }
    ensures { let place = second.now.offset + behind in
        result ≡ not (bit_and (bits_read first.now place) (bits_read second.now place) == 0) }
{
    let place = second.offset as usize + behind;
    bits_read(first, place) & bits_read(second, place) != 0
}

/// Whether both fields read a bit of one place.
fn meet(first: &Field, second: &Field) -> bool
    ensures { result ≡ reads_some (bits_read first.now) second.now }
{
    for behind in 0..second.kind.width() {
        if meet_at(first, second, behind) {
            return true;
        }
    }
    false
}

/// Whether packets of one message id have bits that both read, and neither is a part of the other.
fn overlap(first: &Field, second: &Field) -> bool
    ensures { result ≡ overlap first.now second.now }
{
    first.mid == second.mid && !is_word_and_part(first, second) && meet(first, second)
}

/// Whether the other field stands before this one, and the two overlap.
fn overlaps_before(field: &DeclaredField, other: &DeclaredField) -> bool
    ensures { result ≡ overlaps_before field.now other.now }
{
    other.at < field.at && overlap(&other.bits, &field.bits)
}

/// The first of these fields that stands before this one and overlaps it.
pub(crate) fn overlapped_by(
    fields: &[DeclaredField],
    field: &DeclaredField,
) -> Option<DeclaredField>
    ensures { result ≡ overlapped_by fields.now field.now }
{
    for other in fields {
        if overlaps_before(field, other) {
            return Some(*other);
        }
    }
    None
}
