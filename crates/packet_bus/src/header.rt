//! The headers of space packets (CCSDS 133.0-B; cFE user's guide, message headers).

ghost use Rattle.std.specs.Prelude.{◌≡◌, ◌≤◌, ◌==◌, false, is_none, length, Some, None, IfOk};
ghost use Rattle.lc_model.specs.Packet.{header_fault, message_id, sequence_flags, command_header_size, unsegmented};
ghost use Rattle.packet_bus.specs.Header.{fault_number, fault_in, header_of, header_size};

use lc_model::packet::{COMMAND_HEADERS, LONGEST_PACKET, TELEMETRY_HEADERS};
use lc_model::{packet, u16_at};
use thiserror::Error;

/// Why bytes are not a packet of this profile: the first fault that applies.
#[derive(Clone, Copy, Debug, PartialEq, Eq, Error)]
pub enum HeaderFault {
    /// Fewer bytes than the header has: 8 of a command, 12 of telemetry.
    #[error("fewer bytes than a header")]
    TooShort,
    /// Another packet version than 0.
    #[error("the packet's version isn't 0")]
    WrongVersion,
    /// The secondary header flag is off.
    #[error("no secondary header")]
    NoSecondaryHeader,
    /// The sequence flags aren't 3: a part of a packet.
    #[error("a part of a packet")]
    Segment,
    /// The length field is not that of the number of bytes.
    #[error("the packet has another length than its header says")]
    WrongLength,
    /// Over 2,048 bytes.
    #[error("the packet is over 2,048 bytes long")]
    TooLong,
}

impl HeaderFault {
    /// The fault's number, 1 to 6.
    pub fn number(self) -> u8
        ensures { result ≡ fault_number self }
    {
        match self {
            HeaderFault::TooShort => 1,
            HeaderFault::WrongVersion => 2,
            HeaderFault::NoSecondaryHeader => 3,
            HeaderFault::Segment => 4,
            HeaderFault::WrongLength => 5,
            HeaderFault::TooLong => 6,
        }
    }
}

/// The kind of a packet, by the type bit of its header.
#[derive(Clone, Copy, Debug, PartialEq, Eq)]
pub enum PacketKind {
    /// A command, with its function code, below 128. Its payload begins at byte 8.
    Command { function_code: u8 },
    /// Telemetry. Its payload begins at byte 12, after the time.
    Telemetry,
}

impl PacketKind {
    /// The number of header bytes before the payload: 8 of a command, 12 of telemetry.
    pub fn header_size(self) -> usize
        ensures { result ≡ header_size self }
    {
        match self {
            PacketKind::Command { function_code: _ } => 8,
            PacketKind::Telemetry => 12,
        }
    }
}

/// The parts of a packet's header.
#[derive(Clone, Copy, Debug, PartialEq, Eq)]
pub struct Header {
    /// The first 16 bits: version, type, secondary header flag and application id.
    pub message_id: u16,
    /// The number of packets of this message id sent before, modulo 16,384.
    pub sequence_count: u16,
    /// A command or telemetry.
    pub kind: PacketKind,
}

/// Whether the sequence flags are 3: the packet is whole.
#[inline]
fn is_whole(bytes: &[u8]) -> bool
    requires { command_header_size ≤ length bytes.now }
    ensures { result ≡ (sequence_flags bytes.now == unsegmented) }
{
    bytes[2] / 64 == 3
}

/// Whether the bytes are a packet of this profile.
#[inline]
fn is_packet(bytes: &[u8]) -> bool
    ensures { result ≡ is_none (header_fault bytes.now) }
{
    let size = bytes.len();
    let has_headers = TELEMETRY_HEADERS <= size && size <= LONGEST_PACKET
        || COMMAND_HEADERS <= size && size < TELEMETRY_HEADERS && u16_at(bytes, 0) / 4096 % 2 == 1;
    if !has_headers {
        return false;
    }
    let message_id = u16_at(bytes, 0);
    message_id / 8192 == 0
        && message_id / 2048 % 2 == 1
        && is_whole(bytes)
        && u16_at(bytes, 4) == (size - 7) as u16
}

/// The first fault of bytes that are no packet.
#[cold]
#[inline(never)]
fn fault_of(bytes: &[u8]) -> HeaderFault
    requires { is_none (header_fault bytes.now) ≡ false }
    ensures { Some (fault_number result) ≡ header_fault bytes.now }
{
    match packet::header_fault(bytes) {
        Some(1) => HeaderFault::TooShort,
        Some(2) => HeaderFault::WrongVersion,
        Some(3) => HeaderFault::NoSecondaryHeader,
        Some(4) => HeaderFault::Segment,
        Some(5) => HeaderFault::WrongLength,
        _ => HeaderFault::TooLong,
    }
}

/// The bytes' first fault, or their message id.
#[inline]
pub(crate) fn checked_message_id(bytes: &[u8]) -> Result<u16, HeaderFault>
    ensures exact { fault_in result ≡ header_fault bytes.now }
    ensures value { IfOk result (λ mid. mid ≡ message_id bytes.now) }
{
    if is_packet(bytes) {
        Ok(u16_at(bytes, 0))
    } else {
        Err(fault_of(bytes))
    }
}

/// The message id of bytes that are known to be a packet.
#[inline]
pub(crate) fn judged_message_id(bytes: &[u8]) -> u16
    requires good { header_fault bytes.now ≡ None }
    ensures { result ≡ message_id bytes.now }
{
    u16_at(bytes, 0)
}

/// Reads a packet's header. The error is the first of the faults 1 to 6 that applies.
pub fn parse_header(bytes: &[u8]) -> Result<Header, HeaderFault>
    ensures exact { fault_in result ≡ header_fault bytes.now }
    ensures says { IfOk result (λ header. header ≡ header_of bytes.now) }
{
    let message_id = checked_message_id(bytes)?;
    let kind = if message_id / 4096 % 2 == 1 {
        PacketKind::Command {
            function_code: bytes[6] % 128,
        }
    } else {
        PacketKind::Telemetry
    };
    Ok(Header {
        message_id,
        sequence_count: u16_at(bytes, 2) % 16384,
        kind,
    })
}
