//! Packets, fields and rules by their names.

ghost use Rattle.std.specs.Prelude.{◌≡◌, ◌<◌, ◌==◌, ◌&&◌, not, bytes_eq, length, IfOk, IfSome, IsTrue};
ghost use Rattle.rule_parser.specs.Syntax.{field_of, number_of, packet_of};
ghost use Rattle.scenarios.specs.Declarations as declared;
ghost use Rattle.scenarios.specs.Declarations.{field_declared, packet_declared, short};
ghost use Rattle.scenarios.specs.Fields.{is_inside, with_bits};
ghost use Rattle.scenarios.specs.Named.{counted_on, packet_line, with_payload};
ghost use Rattle.scenarios.specs.Said.{field_place, packet_place};

use crate::field_values::write_bits;
use crate::word::is;
use lc_model::FieldType;
use lc_model::packet::COUNT_END;
use rule_parser::{FieldItem, Number, PacketItem};
use std::alloc::{AllocError, Global};
use std::marker::Model;
use stream_script::telemetry_line;

/// The bytes of telemetry's headers.
pub(crate) const TELEMETRY_HEADERS: usize = 12;

/// The number in 16 bits; numbers of a valid rule text fit.
pub(crate) fn short(number: u64) -> u16
    ensures { result ≡ short number }
{
    if number <= 65_535 {
        number as u16
    } else {
        65_535
    }
}

/// A number of a rule text.
fn short_of(number: Number) -> u16
    ensures { result ≡ declared.number_of (number_of number) }
{
    short(number.value.unsigned_abs())
}

/// A mask of a rule text in 32 bits; masks of a valid text fit.
fn mask_of(number: Number) -> u32
    ensures { result ≡ declared.mask_of (number_of number) }
{
    let mask = number.value.unsigned_abs();
    if mask <= 0xFFFF_FFFF {
        mask as u32
    } else {
        0xFFFF_FFFF
    }
}

/// A declared packet, with the sequence count of its next line and its current payload.
#[derive(Drop)]
pub(crate) struct Packet<'a> {
    name: &'a [u8],
    mid: u16,
    count: u16,
    payload: Vec<u8>,
}

impl<'a> Model for Packet<'a> {
    ghost use Rattle.scenarios.specs.Named.{NamedPacket};

    ghost Value = { NamedPacket };

    ghost view = { λ p. record {
      name = p.name.now;
      mid = p.mid;
      count = p.count;
      payload = p.payload.items;
    } };
}

impl<'a> Packet<'a> {
    /// A declared packet before its first line. The only error is a lack of memory.
    pub(crate) fn from_item(alloc: Global, item: &PacketItem<'a>) -> Result<Packet<'a>, AllocError>
        ensures { IfOk result (λ packet. packet ≡ packet_declared (packet_of item.now)) }
    {
        let size = usize::from(short_of(item.length)).saturating_sub(TELEMETRY_HEADERS);
        Ok(Packet {
            name: item.name.text,
            mid: short_of(item.mid),
            count: 0,
            payload: vec![in alloc; 0; size]?,
        })
    }

    /// A copy of the packet. The only error is a lack of memory.
    pub(crate) fn same(&self, alloc: Global) -> Result<Packet<'a>, AllocError>
        ensures { IfOk result (λ packet. packet ≡ self.now) }
    {
        Ok(Packet {
            name: self.name,
            mid: self.mid,
            count: self.count,
            payload: Vec::from_slice(alloc, self.payload.as_slice())?,
        })
    }

    fn is_named(&self, name: &[u8]) -> bool
        ensures { result ≡ bytes_eq self.now.name name.now }
    {
        is(self.name, name)
    }

    pub(crate) fn payload(&self) -> &[u8]
        ensures { result.now ≡ self.now.payload }
    {
        self.payload.as_slice()
    }

    /// Counts the packet: increments its sequence count.
    pub(crate) fn count_on(&mut self)
        ensures { self.new ≡ counted_on self.old }
    {
        self.count = ((u32::from(self.count) + 1) % u32::from(COUNT_END)) as u16;
    }

    /// Writes bits under the mask of a field that is inside the packet.
    pub(crate) fn write(&mut self, field: &ScenarioField<'_>, bits: u32)
        requires { IsTrue (is_inside field.now (length self.old.payload)) }
        ensures { self.new ≡
            with_payload (with_bits field.now bits self.old.payload) self.old }
    {
        write_bits(field, bits, &mut self.payload);
    }

    /// The line of the next packet, with the current values of its fields. The only error is a lack of memory.
    pub(crate) fn line(&self, alloc: Global) -> Result<Vec<u8>, AllocError>
        ensures { IfOk result (λ line. line.items ≡ packet_line self.now) }
    {
        telemetry_line(alloc, self.mid, self.count, self.payload.as_slice())
    }
}

/// The index of the first packet of a name.
pub(crate) fn packet_place(packets: &[Packet<'_>], name: &[u8]) -> Option<usize>
    ensures place { result ≡ packet_place name.now packets.now }
    ensures inside { IfSome result (λ place. place < length packets.now) }
{
    packets.iter().position(|packet| packet.is_named(name))
}

/// A declared field: its type, its offset in its packet, and its mask.
#[derive(Drop)]
pub(crate) struct ScenarioField<'a> {
    name: &'a [u8],
    packet: &'a [u8],
    kind: FieldType,
    offset: u16,
    mask: u32,
}

impl<'a> Model for ScenarioField<'a> {
    ghost use Rattle.scenarios.specs.Named.{NamedField};

    ghost Value = { NamedField };

    ghost view = { λ f. record {
      name = f.name.now;
      packet = f.packet.now;
      kind = f.kind;
      offset = f.offset;
      mask = f.mask;
    } };
}

impl<'a> ScenarioField<'a> {
    /// A field of a rule text.
    pub(crate) fn from_item(item: &FieldItem<'a>) -> ScenarioField<'a>
        ensures { result ≡ field_declared (field_of item.now) }
    {
        let mask = match item.mask {
            Some(mask) => mask_of(mask),
            None => item.kind.full_mask(),
        };
        ScenarioField {
            name: item.name.text,
            packet: item.packet.text,
            kind: item.kind,
            offset: short_of(item.offset),
            mask,
        }
    }

    /// A copy of the field.
    pub(crate) fn same(&self) -> ScenarioField<'a>
        ensures { result ≡ self.now }
    {
        ScenarioField {
            name: self.name,
            packet: self.packet,
            kind: self.kind,
            offset: self.offset,
            mask: self.mask,
        }
    }

    fn is_named(&self, name: &[u8]) -> bool
        ensures { result ≡ bytes_eq self.now.name name.now }
    {
        is(self.name, name)
    }

    /// Whether it is a field of the packet of this name.
    pub(crate) fn is_of(&self, packet: &[u8]) -> bool
        ensures { result ≡ bytes_eq self.now.packet packet.now }
    {
        is(self.packet, packet)
    }

    pub(crate) fn packet(&self) -> &[u8]
        ensures { result.now ≡ self.now.packet }
    {
        self.packet
    }

    pub(crate) fn kind(&self) -> FieldType
        ensures { result ≡ self.now.kind }
    {
        self.kind
    }

    pub(crate) fn offset(&self) -> u16
        ensures { result ≡ self.now.offset }
    {
        self.offset
    }

    pub(crate) fn mask(&self) -> u32
        ensures { result ≡ self.now.mask }
    {
        self.mask
    }
}

/// The index of the first field of a name.
pub(crate) fn field_place(fields: &[ScenarioField<'_>], name: &[u8]) -> Option<usize>
    ensures place { result ≡ field_place name.now fields.now }
    ensures inside { IfSome result (λ place. place < length fields.now) }
{
    fields.iter().position(|field| field.is_named(name))
}

/// A declared rule, with the number of its text and its number in that text.
#[derive(Drop)]
pub(crate) struct Rule<'a> {
    pub(crate) name: &'a [u8],
    pub(crate) text: usize,
    pub(crate) number: u16,
}

impl<'a> Model for Rule<'a> {
    ghost use Rattle.scenarios.specs.Named.{NamedRule};

    ghost Value = { NamedRule };

    ghost view = { λ r. record { name = r.name.now; text = r.text; number = r.number } };
}

impl<'a> Rule<'a> {
    pub(crate) fn new(name: &'a [u8], text: usize, number: u16) -> Rule<'a>
        ensures { result ≡ record { name = name.now; text = text; number = number } }
    {
        Rule { name, text, number }
    }

    pub(crate) fn is_named(&self, name: &[u8]) -> bool
        ensures { result ≡ bytes_eq self.now.name name.now }
    {
        is(self.name, name)
    }

    /// Whether it is the rule of this name in the text with this number.
    pub(crate) fn is_of_text(&self, text: usize, name: &[u8]) -> bool
        ensures { result ≡ (self.now.text == text && bytes_eq self.now.name name.now) }
    {
        self.text == text && self.is_named(name)
    }

    pub(crate) fn number(&self) -> u16
        ensures { result ≡ self.now.number }
    {
        self.number
    }

    /// Whether it is the rule of this number in its text, by another name.
    pub(crate) fn is_otherwise(&self, number: u16, name: &[u8]) -> bool
        ensures { result ≡ (self.now.number == number && not (bytes_eq self.now.name name.now)) }
    {
        self.number == number && !self.is_named(name)
    }
}
