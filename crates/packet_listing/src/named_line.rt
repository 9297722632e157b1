//! The line that lists one packet.

ghost use Rattle.std.specs.Prelude.{◌≡◌, IfSome};
ghost use Rattle.lc_model.specs.Bytes.{u16_at, u32_at};

use crate::display::{Time, time_of};
use crate::event::EVENT_SIZE;
use crate::housekeeping::HOUSEKEEPING_SIZE;
use crate::named_packet::NamedPacket;
use crate::naming::TextRules;
use lc_model::mids;
use lc_model::packet::{TELEMETRY_HEADERS, message_id};
use std::fmt::{self, Display, Formatter, Write};

/// A packet with its number, and the rules of the texts that may be in force; it displays as its line without the line end (docs/TOOLS.md,
/// this project's own).
#[derive(Clone, Copy)]
pub struct NamedLine<'a> {
    /// The packet's number among those of its file, counted from 1.
    pub number: u64,
    /// The packet's bytes, headers included; any bytes are accepted.
    pub packet: &'a [u8],
    /// The rules of the texts 0, 1 and so on; without texts rules have numbers.
    pub texts: &'a [TextRules<'a>],
}

/// A packet with its number; it displays as its line, with rules by number.
#[derive(Clone, Copy)]
pub struct PacketLine<'a> {
    /// The packet's number among those of its file, counted from 1.
    pub number: u64,
    /// The packet's bytes, headers included; any bytes are accepted.
    pub packet: &'a [u8],
}

/// The time in the line of a packet: that of an event or of housekeeping; `None` for any other packet.
fn listed_time(packet: &[u8]) -> Option<Time>
    ensures { IfSome result (λ time. (time.seconds ≡ u32_at packet.now 6)
        × (time.subseconds ≡ u16_at packet.now 10)) }
{
    let size = packet.len();
    if size < TELEMETRY_HEADERS {
        return None;
    }
    match message_id(packet) {
        mids::EVENT if size == EVENT_SIZE => Some(time_of(packet)),
        mids::LC_HOUSEKEEPING if size == HOUSEKEEPING_SIZE => Some(time_of(packet)),
        _ => None,
    }
}

impl Display for NamedLine<'_> {
    fn fmt<W: Write>(&self, f: &mut Formatter<W>) -> fmt::Result {
        let NamedLine {
            number,
            packet,
            texts,
        } = *self;
        let said = NamedPacket { packet, texts };
        match listed_time(packet) {
            Some(time) => write!(f, "{number} {time} {said}"),
            None => write!(f, "{number} - {said}"),
        }
    }
}

impl Display for PacketLine<'_> {
    fn fmt<W: Write>(&self, f: &mut Formatter<W>) -> fmt::Result {
        let PacketLine { number, packet } = *self;
        let line = NamedLine {
            number,
            packet,
            texts: &[],
        };
        write!(f, "{line}")
    }
}
