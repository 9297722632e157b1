//! Event packets (cFE user's guide, event services): 168 bytes.

ghost use Rattle.std.specs.Prelude.{◌≡◌, length, Some};
ghost use Rattle.packet_listing.specs.Words.{type_word};

use crate::display::TextField;
use crate::naming::TextRules;
use crate::rule_output::say_event_text;
use crate::sent::before_zero;
use lc_model::{EventKind, u16_at};
use std::fmt::{self, Display, Formatter, Write};

/// The length of an event packet in bytes.
pub const EVENT_SIZE: usize = 168;

/// Writes an event packet's sender, event id, type and text, with the name of its rule, or the word of the command that was done.
pub fn say_event<W: Write>(
    packet: &[u8],
    texts: &[TextRules<'_>],
    f: &mut Formatter<W>,
) -> fmt::Result
    requires { length packet.now ≡ EVENT_SIZE }
{
    let sender = before_zero(&packet[12..32]);
    let id = u16_at(packet, 32);
    let kind = EventType(u16_at(packet, 34));
    write!(f, "{} {id} {kind}", TextField(sender))?;
    say_event_text(texts, sender, id, before_zero(&packet[44..166]), f)
}

/// An event's type as a number of any value; it displays as its word, or as `type` and the number.
#[derive(Clone, Copy)]
struct EventType(u16);

impl Display for EventType {
    ghost output = { λ kind. Some (type_word kind.0) };

    fn fmt<W: Write>(&self, f: &mut Formatter<W>) -> fmt::Result {
        match EventKind::from_code(self.0) {
            Some(kind) => write!(f, "{}", kind.listed_word()),
            None => write!(f, "type {}", self.0),
        }
    }
}
