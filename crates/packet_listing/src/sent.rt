//! Reads the packets that a host writes.

ghost use Rattle.std.specs.Prelude.{◌≡◌, ◌==◌, ◌≤◌, length, option_map};
ghost use Rattle.std.specs.List.{position_or_len};
ghost use Rattle.lc_model.specs.Bytes.{u16_at};
ghost use Rattle.lc_model.specs.Command.{mode_numbered};
ghost use Rattle.lc_model.specs.Name.{name_in};
ghost use Rattle.packet_listing.specs.Told.{before_rules, event_of, event_told, housekeeping_by, told_in, told_of};

use crate::event::EVENT_SIZE;
use lc_model::packet::{REQUEST_SIZE, message_id};
use lc_model::{EventKind, LcMode, Moment, mids, u16_at, u32_at};
use memchr::memchr;

/// The number of bytes in a housekeeping packet before those of the rules.
const BEFORE_RULES: usize = 16;

/// An event packet's content (cFE user's guide, event services; its layout here is this project's own).
#[derive(Clone, Copy)]
pub struct Event<'a> {
    /// The time of the record that led to the event.
    pub moment: Moment,
    /// The sender's name, up to 20 bytes, without the zeros after it.
    pub sender: &'a [u8],
    /// The event id.
    pub id: u16,
    /// The event's type.
    pub kind: EventKind,
    /// The event's text, up to 122 bytes, without the zeros after it.
    pub text: &'a [u8],
}

/// The content of a packet that a host writes.
#[derive(Clone, Copy)]
pub enum Sent<'a> {
    /// A request for the command sequence with this number.
    Request(u16),
    /// An event.
    Event(Event<'a>),
    /// The Limit Checker's state: its mode, the number of its rules, and the bytes from 16 on, one for each rule.
    Housekeeping {
        mode: LcMode,
        count: u16,
        rules: &'a [u8],
    },
}

/// The number of bytes before the first zero byte, or of all bytes if there is none.
fn text_length(field: &[u8]) -> usize
    ensures { result ≡ position_or_len (λ b. b == 0) field.now }
{
    match memchr(0, field) {
        Some(place) => place,
        None => field.len(),
    }
}

/// The bytes before the first zero byte.
pub fn before_zero(field: &[u8]) -> &[u8]
    ensures { result.now ≡ name_in field.now }
{
    &field[..text_length(field)]
}

/// The event in an event packet; `None` for another length or an unknown type.
fn event_in(packet: &[u8]) -> Option<Event<'_>>
    ensures { option_map event_of result ≡ event_told packet.now }
{
    if packet.len() != EVENT_SIZE {
        return None;
    }
    Some(Event {
        moment: Moment {
            seconds: u32_at(packet, 6),
            subseconds: u16_at(packet, 10),
        },
        sender: before_zero(&packet[12..32]),
        id: u16_at(packet, 32),
        kind: EventKind::from_code(u16_at(packet, 34))?,
        text: before_zero(&packet[44..166]),
    })
}

/// The content of a housekeeping packet; `None` for an unknown mode.
fn housekeeping_in(packet: &[u8]) -> Option<Sent<'_>>
    requires { before_rules ≤ length packet.now }
    ensures { option_map told_of result ≡
        housekeeping_by packet.now (mode_numbered (u16_at packet.now 12)) }
{
    let (_, rules) = packet.split_at(BEFORE_RULES);
    Some(Sent::Housekeeping {
        mode: LcMode::from_code(u16_at(packet, 12))?,
        count: u16_at(packet, 14),
        rules,
    })
}

/// Reads a packet by its message id. `None` for another message id, a length that doesn't fit, or an unknown mode or
/// event type.
pub fn read_packet(packet: &[u8]) -> Option<Sent<'_>>
    ensures { option_map told_of result ≡ told_in packet.now }
{
    if packet.len() < REQUEST_SIZE {
        return None;
    }
    let mid = message_id(packet);
    if mid == mids::SEQUENCE {
        return Some(Sent::Request(u16_at(packet, 8)));
    }
    if mid == mids::EVENT {
        return match event_in(packet) {
            Some(event) => Some(Sent::Event(event)),
            None => None,
        };
    }
    if mid == mids::LC_HOUSEKEEPING && packet.len() >= BEFORE_RULES {
        return housekeeping_in(packet);
    }
    None
}
