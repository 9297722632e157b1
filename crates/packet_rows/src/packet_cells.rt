//! The columns of a packet's row.

use crate::cell::Cell;

/// The columns of a packet's row, in order (docs/TOOLS.md, this project's own).
pub const PACKET_NAMES: [&str; 13] = [
    "number",
    "time",
    "utc",
    "kind",
    "sender",
    "id",
    "level",
    "text",
    "sequence",
    "count",
    "message_id",
    "size",
    "says",
];

/// The keys of the same in alphabetical order, as they stand before the values of an object.
pub const PACKET_KEYS: [&str; 13] = [
    "{\"count\":",
    ",\"id\":",
    ",\"kind\":",
    ",\"level\":",
    ",\"message_id\":",
    ",\"number\":",
    ",\"says\":",
    ",\"sender\":",
    ",\"sequence\":",
    ",\"size\":",
    ",\"text\":",
    ",\"time\":",
    ",\"utc\":",
];

/// The cells of a packet's row.
#[derive(Clone, Copy)]
pub struct PacketCells<'c> {
    pub number: Cell<'c>,
    pub time: Cell<'c>,
    pub utc: Cell<'c>,
    pub kind: Cell<'c>,
    pub sender: Cell<'c>,
    pub id: Cell<'c>,
    pub level: Cell<'c>,
    pub text: Cell<'c>,
    pub sequence: Cell<'c>,
    pub count: Cell<'c>,
    pub message_id: Cell<'c>,
    pub size: Cell<'c>,
    pub says: Cell<'c>,
}

impl<'c> PacketCells<'c> {
    /// The cells in the order of `PACKET_NAMES`.
    pub fn columns(&self) -> [Cell<'c>; 13] {
        [
            self.number,
            self.time,
            self.utc,
            self.kind,
            self.sender,
            self.id,
            self.level,
            self.text,
            self.sequence,
            self.count,
            self.message_id,
            self.size,
            self.says,
        ]
    }

    /// The cells in the order of `PACKET_KEYS`.
    pub fn members(&self) -> [Cell<'c>; 13] {
        [
            self.count,
            self.id,
            self.kind,
            self.level,
            self.message_id,
            self.number,
            self.says,
            self.sender,
            self.sequence,
            self.size,
            self.text,
            self.time,
            self.utc,
        ]
    }
}
