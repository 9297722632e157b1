//! The packets of events (CCSDS 133.0-B, primary header; cFE user's guide, event services; the layout is this project's
//! own).

ghost use Rattle.std.specs.Prelude.{◌≡◌, ◌+◌, ◌++◌, ◌<◌, ◌≤◌, length, take, replicate, vec_capacity};
ghost use Rattle.lc_model.specs.Bytes as model;
ghost use Rattle.lc_model.specs.Events.Outgoing.{event_packet, event_packet_size, longest_event_text};
ghost use Rattle.lc_model.specs.Packet.{count_end};
ghost use Rattle.event_service.specs.Packet.{laid};

use crate::name::SenderName;
use byteorder::{BigEndian, ByteOrder};
use lc_model::packet::UNSEGMENTED;
use lc_model::{EventKind, Moment, PROCESSOR, SPACECRAFT, make_place, mids};
use std::marker::Model;

/// The length of an event packet in bytes.
pub const PACKET_SIZE: usize = 168;

/// The length field: the number of bytes after the primary header, less 1.
const PACKET_LENGTH: u16 = 161;

/// An event packet: 168 bytes with big-endian numbers, the primary header (6), seconds (4) and subseconds (2), the sender's
/// name (20, zero filled), the event's id (2) and type (2), spacecraft 66 (4), processor 1 (4), and the text (124, zero
/// filled). Contracts see the bytes.
#[derive(Clone, Debug, Drop)]
pub struct EventPacket {
    bytes: [u8; PACKET_SIZE],
}

impl Model for EventPacket {
    ghost use Rattle.std.specs.Prelude.{ℕ, List, ◌≡◌, length};
    ghost use Rattle.lc_model.specs.Events.Outgoing.{event_packet_size};

    ghost Value = { List ℕ };

    ghost view = { λ packet. packet.bytes };

    ghost invariant = { λ packet. length packet.bytes ≡ event_packet_size };
}

impl EventPacket {
    /// The packet's bytes, as they go to the ground.
    pub fn as_bytes(&self) -> &[u8]
        ensures bytes { result.now ≡ self.now }
        ensures size { length self.now ≡ event_packet_size }
    {
        &self.bytes
    }

    /// The packet of an event, with this sequence count.
    pub(crate) fn new(
        count: u16,
        moment: Moment,
        sender: &SenderName,
        id: u16,
        kind: EventKind,
        text: &[u8],
    ) -> EventPacket
        requires count { count < count_end }
        requires text { length text.now ≤ longest_event_text }
        ensures { result ≡ event_packet count moment sender.now id kind text.now }
    {
        let mut bytes = [0; PACKET_SIZE];
        lay(&mut bytes, count, moment, sender, id, kind, text);
        EventPacket { bytes }
    }
}

/// Appends the packet of an event, with this sequence count, to the first `at` bytes of `out`. Condition: room for its 168
/// bytes.
#[inline(always)]
pub(crate) fn append_packet(
    out: &mut Vec<u8>,
    at: usize,
    count: u16,
    moment: Moment,
    sender: &SenderName,
    id: u16,
    kind: EventKind,
    text: &[u8],
)
    requires within { at ≤ length out.old.items }
    requires room { at + event_packet_size ≤ vec_capacity out.old }
    requires count { count < count_end }
    requires text { length text.now ≤ longest_event_text }
    ensures packet { take (at + event_packet_size) out.new.items ≡ take at out.old.items ++
        event_packet count moment sender.now id kind text.now }
    ensures there { at + event_packet_size ≤ length out.new.items }
    ensures capacity { vec_capacity out.new ≡ vec_capacity out.old }
{
    make_place(out, at, PACKET_SIZE);
    let place = &mut out[at..at + PACKET_SIZE];
    place.fill(0);
    lay(place, count, moment, sender, id, kind, text);
}

/// The fields of an event packet, with this sequence count, over zeros.
#[inline(always)]
fn lay(
    bytes: &mut [u8],
    count: u16,
    moment: Moment,
    sender: &SenderName,
    id: u16,
    kind: EventKind,
    text: &[u8],
)
    requires blank { bytes.old ≡ replicate event_packet_size 0 }
    requires count { count < count_end }
    requires text { length text.now ≤ longest_event_text }
    ensures packet { bytes.new ≡ event_packet count moment sender.now id kind text.now }
    ensures size { length bytes.new ≡ length bytes.old }
{
    put_u16(bytes, 0, mids::EVENT);
    put_u16(bytes, 2, UNSEGMENTED + count);
    put_u16(bytes, 4, PACKET_LENGTH);
    put_u32(bytes, 6, moment.seconds);
    put_u16(bytes, 10, moment.subseconds);
    put(bytes, 12, sender.field());
    put_u16(bytes, 32, id);
    put_u16(bytes, 34, kind.code());
    put_u32(bytes, 36, SPACECRAFT);
    put_u32(bytes, 40, PROCESSOR);
    put(bytes, 44, text);
}

/// Bytes at a place.
fn put(bytes: &mut [u8], at: usize, field: &[u8])
    requires { at + length field.now ≤ length bytes.old }
    ensures field { bytes.new ≡ laid at field.now bytes.old }
    ensures size { length bytes.new ≡ length bytes.old }
{
    bytes[at..at + field.len()].copy_from_slice(field);
}

/// Two bytes at a place, the high one first.
fn put_u16(bytes: &mut [u8], at: usize, number: u16)
    requires { at + 2 ≤ length bytes.old }
    ensures field { bytes.new ≡ laid at (model.u16 number) bytes.old }
    ensures size { length bytes.new ≡ length bytes.old }
{
    BigEndian::write_u16(&mut bytes[at..at + 2], number);
}

/// Four bytes at a place, the high one first.
fn put_u32(bytes: &mut [u8], at: usize, number: u32)
    requires { at + 4 ≤ length bytes.old }
    ensures field { bytes.new ≡ laid at (model.u32 number) bytes.old }
    ensures size { length bytes.new ≡ length bytes.old }
{
    BigEndian::write_u32(&mut bytes[at..at + 4], number);
}
