//! What a record brings, as far as a page shows it.

use lc_model::packet::message_id;
use lc_model::stream::HEADER;

/// What a record brings.
#[derive(Clone, Copy)]
pub(crate) enum Brought<'a> {
    /// A packet that isn't a command, or bytes that aren't a packet.
    Telemetry(&'a [u8]),
    Tick,
    Command,
    /// A raw file, or the compiled half of a rule text.
    File,
}

impl Brought<'_> {
    /// Whether it is a ground command, a file or a half.
    pub(crate) fn is_uplink(self) -> bool {
        match self {
            Brought::Telemetry(_) => false,
            Brought::Tick => false,
            Brought::Command => true,
            Brought::File => true,
        }
    }
}

/// What a packet brings.
fn packet_brought(packet: &[u8]) -> Brought<'_> {
    if packet.len() < 8 || message_id(packet) / 4096 % 2 != 1 {
        return Brought::Telemetry(packet);
    }
    Brought::Command
}

/// What a record of this kind with this body brings.
fn body_brought(kind: u8, body: &[u8]) -> Brought<'_> {
    match kind {
        2 => Brought::Tick,
        3 => Brought::File,
        4 => Brought::File,
        _ => packet_brought(body),
    }
}

/// What a record brings.
pub(crate) fn read_record(bytes: &[u8]) -> Brought<'_> {
    if bytes.len() < HEADER {
        return Brought::Telemetry(&[]);
    }
    body_brought(bytes[0], bytes.split_at(HEADER).1)
}
