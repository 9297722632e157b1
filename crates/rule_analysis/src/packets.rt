//! Packets in which fields have given bits.

ghost use Rattle.std.specs.Prelude.{◌≡◌, ◌≤◌, ◌<◌, ◌++◌, ◌∷◌, [], List, IfOk, OnOk, length};
ghost use Rattle.rule_analysis.specs.declared.fields.Field.{Field as AnyField};
ghost use Rattle.rule_analysis.specs.declared.packets.Chosen.{Chosen as Pair};
ghost use Rattle.rule_analysis.specs.Laid.{AreLaid, AreLaidFor, IsLaid, IsSize, HasRoom, byte_over, chosen_of, laid_over, packet_byte};

use crate::bits::{bits_read, byte_there};
use crate::fields::Field;
use crate::seen::last_of;
use lc_model::packet::LONGEST_PACKET;
use std::alloc::{AllocError, Global};

/// The bytes of telemetry's headers.
const HEADERS: usize = 12;

/// A field, and the bits chosen for it.
#[derive(Clone, Copy)]
pub(crate) struct Chosen {
    pub(crate) field: Field,
    pub(crate) bits: u32,
}

/// Appends the field with the next of these bits, if there are any.
fn pair(chosen: &mut Vec<Chosen>, field: &Field, bits: &[u32]) -> Result<(), AllocError>
    ensures { OnOk result ((before : List AnyField) →
        chosen.old.items ≡ chosen_of before bits.now →
        chosen.new.items ≡ chosen_of (before ++ field.now ∷ []) bits.now) }
{
    let next = chosen.len();
    if bits.len() <= next {
        return Ok(());
    }
    Ok(chosen.push(Chosen {
        field: *field,
        bits: bits[next],
    })?)
}

/// Fields with their bits, up to the end of the shorter list.
fn pair_bits(alloc: Global, fields: &[Field], bits: &[u32]) -> Result<Vec<Chosen>, AllocError>
    ensures { IfOk result (λ chosen. chosen.items ≡ chosen_of fields.now bits.now) }
{
    let mut chosen = Vec::new(alloc);
    for field in fields {
        pair(&mut chosen, field, bits)?;
    }
    Ok(chosen)
}

/// The byte at this place of the packet after the field's bits are written; its other bits stay.
fn laid_over(mid: u16, place: usize, byte: u8, one: &Chosen) -> u8
    ensures { result ≡ laid_over mid place byte one.now }
{
    if one.field.mid != mid {
        return byte;
    }
    let own = bits_read(&one.field, place);
    byte & !own | byte_there(&one.field, one.bits, place) & own
}

/// The byte at this place of the packet of a message id, with the bits of all fields; its other bits are zero.
fn byte_over(chosen: &[Chosen], mid: u16, place: usize) -> u8
    ensures { result ≡ byte_over chosen.now mid place }
{
    let mut byte = 0;
    for one in chosen {
        byte = laid_over(mid, place, byte, one);
    }
    byte
}

/// The byte at this place, with message id, flags (3) and length in the packet's header.
fn packet_byte(chosen: &[Chosen], mid: u16, size: usize, place: usize) -> u8
    requires least { HEADERS ≤ size }
    requires most { size ≤ LONGEST_PACKET }
    ensures { result ≡ packet_byte chosen.now mid size place }
{
    match place {
        0 => (mid / 256) as u8,
        1 => (mid % 256) as u8,
        2 => byte_over(chosen, mid, 2) | 0xC0,
        4 => ((size - 7) / 256) as u8,
        5 => ((size - 7) % 256) as u8,
        _ => byte_over(chosen, mid, place),
    }
}

/// The size of a packet after it is extended for the field; unchanged if the field is of another message id.
fn with_room(one: &Chosen, mid: u16, size: usize) -> usize
    requires { size ≤ LONGEST_PACKET }
    ensures least { size ≤ result }
    ensures most { result ≤ LONGEST_PACKET }
    ensures room { HasRoom mid result one.now }
{
    let end = one.field.offset as usize + one.field.kind.width();
    if one.field.mid == mid && end <= LONGEST_PACKET && size < end {
        end
    } else {
        size
    }
}

/// The size in bytes of a message id's packet: as much as its headers and fields need.
fn size_for(chosen: &[Chosen], mid: u16) -> usize
    ensures { IsSize chosen.now mid result }
{
    let mut size = HEADERS;
    for one in chosen {
        size = with_room(one, mid, size);
    }
    size
}

/// The packet of a message id in which all fields have their bits.
fn packet_of(alloc: Global, chosen: &[Chosen], mid: u16) -> Result<Vec<u8>, AllocError>
    ensures { IfOk result (λ packet. IsLaid chosen.now mid packet.items) }
{
    let size = size_for(chosen, mid);
    let mut packet = Vec::new(alloc);
    for place in 0..size {
        packet.push(packet_byte(chosen, mid, size, place))?;
    }
    Ok(packet)
}

/// Appends the packet of the field's message id, unless it is there already.
fn join(
    alloc: Global,
    packets: &mut Vec<Vec<u8>>,
    chosen: &[Chosen],
    one: &Chosen,
) -> Result<(), AllocError>
    ensures { OnOk result ((before : List Pair) → AreLaidFor chosen.now before packets.old.items →
        AreLaidFor chosen.now (before ++ one.now ∷ []) packets.new.items) }
{
    let mid = one.field.mid;
    if last_of(packets, mid).is_none() {
        packets.push(packet_of(alloc, chosen, mid)?)?;
    }
    Ok(())
}

/// Packets in which all fields have their bits, one for each message id.
fn packets_of(alloc: Global, chosen: &[Chosen]) -> Result<Vec<Vec<u8>>, AllocError>
    ensures { IfOk result (λ packets. AreLaidFor chosen.now chosen.now packets.items) }
{
    let mut packets = Vec::new(alloc);
    for one in chosen {
        join(alloc, &mut packets, chosen, one)?;
    }
    Ok(packets)
}

/// Packets in which these fields have these bits, one for each message id; all other bits are zero. If fields share bits, some may have
/// other bits than chosen. The only error is a lack of memory.
pub fn lay_out(alloc: Global, fields: &[Field], bits: &[u32]) -> Result<Vec<Vec<u8>>, AllocError>
    ensures { IfOk result (λ packets. AreLaid (chosen_of fields.now bits.now) packets.items) }
{
    let chosen = pair_bits(alloc, fields, bits)?;
    packets_of(alloc, &chosen)
}
