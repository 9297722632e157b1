//! What a host wrote, read by the layout of event packets.

use crate::script::Output;
use lc_model::{mids, u16_at};

/// The bytes of an event packet.
const EVENT_SIZE: usize = 168;

/// The bytes in front of the first zero byte.
fn text_in(field: &[u8]) -> &[u8] {
    let size = field
        .iter()
        .position(|byte| *byte == 0)
        .unwrap_or(field.len());
    field.get(..size).unwrap_or(field)
}

/// Whether these bytes begin with a whole event packet: message id 0x0808, then at byte 12 the sender, at 32 the id, and at 44
/// the text.
fn is_event(bytes: &[u8], sender: &[u8], id: u16, text: &[u8]) -> bool {
    if bytes.len() < EVENT_SIZE {
        return false;
    }
    u16_at(bytes, 0) == mids::EVENT
        && text_in(&bytes[12..32]) == sender
        && u16_at(bytes, 32) == id
        && text_in(&bytes[44..EVENT_SIZE]) == text
}

/// Whether these bytes are all that was expected, one after the other.
pub fn says(bytes: &[u8], expected: &[Output<'_>]) -> bool {
    let mut rest = bytes;
    for said in expected {
        let (there, size) = match *said {
            Output::Event(sender, id, text) => (is_event(rest, sender, id, text), EVENT_SIZE),
            Output::Letters(letters) => (rest.starts_with(letters), letters.len()),
        };
        if !there || size > rest.len() {
            return false;
        }
        rest = &rest[size..];
    }
    rest.is_empty()
}
