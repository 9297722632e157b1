//! Which packets of an archive become records.

ghost use Rattle.std.specs.Prelude.{◌≡◌, ◌≤◌, ◌==◌, length};
ghost use Rattle.std.specs.List.{list_any};
ghost use Rattle.lc_model.specs.Packet.{primary_header_size};
ghost use Rattle.packet_archive.specs.Choice.{fate_of, is_asked_for, is_command_id, is_idle, meant_id};

use crate::front::{COMMAND, MESSAGE_ID_END, SECONDARY_HEADER};
use lc_model::packet::{message_id, stream_fault};
use lc_model::stream::LONGEST_BODY;
use std::marker::Model;

/// The application id of idle packets, which only fill time (CCSDS 133.0-B).
pub(crate) const IDLE: u16 = 0x07FF;

/// The fault number of a packet of over 2,048 bytes.
const LONG: u8 = 6;

/// What becomes of a packet.
#[derive(Clone, Copy, Debug, PartialEq, Eq)]
pub enum Fate {
    /// It becomes a record.
    Kept,
    /// It is an idle packet and is left out.
    Idle,
    /// Its message id isn't asked for, so it is left out.
    Other,
    /// It has the fault of this number (1 to 7, as for packets of a stream) and is left out.
    Faulty(u8),
}

/// Which packets become records.
#[derive(Drop)]
pub struct Choice<'a> {
    /// Whether idle packets become records.
    pub idle: bool,
    /// Whether packets with a fault become records, if a record can hold them.
    pub faulty: bool,
    /// The only message ids that become records; all do if it is empty.
    pub only: &'a [u16],
}

impl<'a> Model for Choice<'a> {
    ghost use Rattle.packet_archive.specs.Choice.{Chosen};

    ghost Value = { Chosen };

    ghost view = { λ c. record { idle = c.idle; faulty = c.faulty; only = c.only.now } };
}

/// Whether a packet is idle.
pub(crate) fn is_idle(packet: &[u8]) -> bool
    requires { primary_header_size ≤ length packet.now }
    ensures { result ≡ is_idle packet.now }
{
    message_id(packet) % 2_048 == IDLE
}

/// Whether a message id is that of commands.
pub(crate) fn is_command_id(mid: u16) -> bool
    ensures { result ≡ is_command_id mid }
{
    mid / COMMAND % 2 == 1
}

/// The message id that was probably meant by one without the bit of a secondary header, which every packet without a fault has; `None`
/// for any other id.
pub(crate) fn meant_id(mid: u16) -> Option<u16>
    ensures { result ≡ meant_id mid }
{
    if mid < MESSAGE_ID_END && mid / SECONDARY_HEADER % 2 == 0 {
        Some(mid + SECONDARY_HEADER)
    } else {
        None
    }
}

impl Choice<'_> {
    /// Whether a message id is named.
    fn names(&self, mid: u16) -> bool
        ensures { result ≡ list_any (◌==◌ mid) self.now.only }
    {
        self.only.iter().any(|other| mid == *other)
    }

    /// Whether packets of this message id are asked for.
    fn asks_for(&self, mid: u16) -> bool
        ensures { result ≡ is_asked_for self.now.only mid }
    {
        self.only.is_empty() || self.names(mid)
    }

    /// What becomes of a packet that has its primary header.
    pub fn fate(&self, packet: &[u8]) -> Fate
        requires header { primary_header_size ≤ length packet.now }
        ensures exact { result ≡ fate_of self.now packet.now }
    {
        if !self.idle && is_idle(packet) {
            return Fate::Idle;
        }
        if !self.asks_for(message_id(packet)) {
            return Fate::Other;
        }
        if packet.len() > LONGEST_BODY {
            return Fate::Faulty(LONG);
        }
        match stream_fault(packet) {
            Some(fault) if !self.faulty => Fate::Faulty(fault),
            _ => Fate::Kept,
        }
    }
}
