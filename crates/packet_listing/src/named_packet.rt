//! What a packet says, with the names of rule texts and the words of commands.

ghost use Rattle.std.specs.Prelude.{◌≡◌, length};

use crate::event::{EVENT_SIZE, say_event};
use crate::housekeeping::{HOUSEKEEPING_SIZE, say_housekeeping};
use crate::naming::{RuleNames, TextRules};
use crate::rule_output::say_requesters;
use lc_model::packet::{COUNT_END, REQUEST_SIZE, message_id};
use lc_model::{mids, u16_at};
use std::fmt::{self, Display, Formatter, Write};

/// A packet, and the rules of the texts that may be in force; it displays as its line without number and time (docs/TOOLS.md, this
/// project's own). It never displays as nothing.
#[derive(Clone, Copy)]
pub struct NamedPacket<'a> {
    /// The packet's bytes, headers included; any bytes are accepted.
    pub packet: &'a [u8],
    /// The rules of the texts 0, 1 and so on; without texts rules have numbers.
    pub texts: &'a [TextRules<'a>],
}

/// Writes a request's command sequence, its sequence count, and the names of the rules that make it.
fn say_request<W: Write>(
    packet: &[u8],
    texts: &[TextRules<'_>],
    f: &mut Formatter<W>,
) -> fmt::Result
    requires { length packet.now ≡ REQUEST_SIZE }
{
    let count = u16_at(packet, 2) % COUNT_END;
    let sequence = u16_at(packet, 8);
    write!(f, "sequence request {sequence}, count {count}")?;
    say_requesters(texts, sequence, f)
}

/// Writes the message id and length of a packet that no host writes in this form.
fn say_other<W: Write>(packet: &[u8], f: &mut Formatter<W>) -> fmt::Result {
    let size = packet.len();
    if size < 2 {
        return write!(f, "packet of {size} bytes");
    }
    let mid = message_id(packet);
    write!(f, "packet 0x{mid:04X} of {size} bytes")
}

/// The rules of the only text; none if there are several texts, or none.
fn only_rules<'r, 'a>(texts: &'r [TextRules<'a>]) -> &'r [RuleNames<'a>] {
    match texts {
        [one] => one.rules.as_slice(),
        _ => &[],
    }
}

impl Display for NamedPacket<'_> {
    fn fmt<W: Write>(&self, f: &mut Formatter<W>) -> fmt::Result {
        let NamedPacket { packet, texts } = *self;
        let size = packet.len();
        if size < 2 {
            return say_other(packet, f);
        }
        match message_id(packet) {
            mids::EVENT if size == EVENT_SIZE => say_event(packet, texts, f),
            mids::LC_HOUSEKEEPING if size == HOUSEKEEPING_SIZE => {
                say_housekeeping(packet, only_rules(texts), f)
            }
            mids::SEQUENCE if size == REQUEST_SIZE => say_request(packet, texts, f),
            _ => say_other(packet, f),
        }
    }
}
