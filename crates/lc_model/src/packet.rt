//! Packets: their faults, their fields, and sequence requests (CCSDS 133.0-B and the cFE user's guide; the time code and the
//! checks of incoming packets are this project's own).

ghost use Rattle.std.specs.Prelude.{◌≡◌, ◌≤◌, ◌+◌, ◌++◌, ◌%◌, ◌<◌, ◌&&◌, None, IfSome, is_some, length, nat_le};
ghost use Rattle.lc_model.specs.Bytes as number;
ghost use Rattle.lc_model.specs.Packet.{function_code, header_fault, is_own_mid, length_offset, message_id, parity, primary_header_size, stream_fault};
ghost use Rattle.lc_model.specs.Events.Outgoing.{sequence_request};

use crate::mids;
use crate::numbers::{u16_at, u16_bytes};

/// The bytes of the primary header.
const PRIMARY_HEADER: usize = 6;

/// The bytes of a command's headers, which every packet has.
pub const COMMAND_HEADERS: usize = 8;

/// The bytes of telemetry's headers.
pub const TELEMETRY_HEADERS: usize = 12;

/// The most bytes of a packet.
pub const LONGEST_PACKET: usize = 2_048;

/// The bytes of a sequence request.
pub const REQUEST_SIZE: usize = 12;

/// Sequence counts are below this number.
pub const COUNT_END: u16 = 16_384;

/// The sequence flags of a packet that is no part of another.
pub const UNSEGMENTED: u16 = 0xC000;

/// The number of message ids.
pub const MESSAGE_IDS: usize = 8_192;

// ---- reading

/// The message id: version, type, secondary header flag and application id.
pub fn message_id(packet: &[u8]) -> u16
    requires { 2 ≤ length packet.now }
    ensures { result ≡ message_id packet.now }
{
    u16_at(packet, 0)
}

/// The message id of bytes that may be too few for one: those that are not there count as zero.
pub fn padded_message_id(bytes: &[u8]) -> u16
    ensures { result ≡ message_id bytes.now }
{
    match bytes {
        [high, low, ..] => u16::from_be_bytes([*high, *low]),
        [high] => u16::from_be_bytes([*high, 0]),
        [] => 0,
    }
}

/// A command's function code.
pub fn function_code(command: &[u8]) -> u8
    requires { primary_header_size < length command.now }
    ensures { result ≡ function_code command.now }
{
    command[6] % 128
}

/// The first fault of bytes as a packet: 1 too short for its headers, 2 another version than 0, 3 no secondary header, 4 a part
/// of a packet, 5 another length than its header gives, 6 over 2,048 bytes. Without a fault they are a whole packet, of at
/// least the eight bytes of a command's headers.
pub fn header_fault(bytes: &[u8]) -> Option<u8>
    ensures fault { result ≡ header_fault bytes.now }
    ensures shortest { result ≡ None → COMMAND_HEADERS ≤ length bytes.now }
    ensures longest { result ≡ None → length bytes.now ≤ LONGEST_PACKET }
{
    let size = bytes.len();
    if size < COMMAND_HEADERS {
        return Some(1);
    }
    let mid = u16_at(bytes, 0);
    let is_command = mid / 4096 % 2 == 1;
    if !is_command && size < TELEMETRY_HEADERS {
        Some(1)
    } else if mid / 8192 != 0 {
        Some(2)
    } else if mid / 2048 % 2 != 1 {
        Some(3)
    } else if u16_at(bytes, 2) / COUNT_END != 3 {
        Some(4)
    } else if u16_at(bytes, 4) as usize + 7 != size {
        Some(5)
    } else if size > LONGEST_PACKET {
        Some(6)
    } else {
        None
    }
}

/// Whether only the host may send this message id.
fn is_own_mid(mid: u16) -> bool
    ensures { result ≡ is_own_mid mid }
{
    mid == mids::EVENT || mid == mids::LC_HOUSEKEEPING || mid == mids::SEQUENCE || mid == mids::TICK
}

/// The first fault of bytes as a packet of a stream: 1 to 6 as of any packet, 7 a message id that only the host may send.
pub fn stream_fault(bytes: &[u8]) -> Option<u8>
    ensures fault { result ≡ stream_fault bytes.now }
    ensures shortest { result ≡ None → COMMAND_HEADERS ≤ length bytes.now }
    ensures longest { result ≡ None → length bytes.now ≤ LONGEST_PACKET }
{
    if let Some(reason) = header_fault(bytes) {
        return Some(reason);
    }
    if is_own_mid(message_id(bytes)) {
        return Some(7);
    }
    None
}

/// The first of packets that follow one another, and the bytes after it; `None` where the bytes don't begin with a whole
/// packet. Of its header only the length is read.
pub fn first_packet(packets: &[u8]) -> Option<(&[u8], &[u8])>
    ensures whole { is_some result ≡ (nat_le primary_header_size (length packets.now) &&
        nat_le (number.u16_at packets.now 4 + length_offset) (length packets.now)) }
    ensures parts { IfSome result (λ parts. packets.now ≡ parts.0.now ++ parts.1.now) }
    ensures size { IfSome result
        (λ parts. length parts.0.now ≡ number.u16_at packets.now 4 + length_offset) }
{
    if packets.len() < PRIMARY_HEADER {
        return None;
    }
    packets.split_at_checked(usize::from(u16_at(packets, 4)) + 7)
}

// ---- writing

/// The sequence count after this one; 0 after 16,383.
pub fn next_count(count: u16) -> u16
    requires { count < COUNT_END }
    ensures next { result ≡ (count + 1) % COUNT_END }
    ensures below { result < COUNT_END }
{
    (count + 1) % COUNT_END
}

/// The exclusive or of all bytes.
fn parity(bytes: &[u8]) -> u8
    ensures { result ≡ parity bytes.now }
{
    bytes.iter().fold(0, |parity, byte| parity ^ byte)
}

/// The packet that requests a command sequence: message id 0x18A9, whole (flags 3) with this sequence count, code 4, a
/// checksum that makes the exclusive or of all bytes 0xFF, the sequence's number and two zeros.
pub fn sequence_request(count: u16, number: u16) -> [u8; REQUEST_SIZE]
    requires { count < COUNT_END }
    ensures { result ≡ sequence_request count number }
{
    let [count_high, count_low] = u16_bytes(UNSEGMENTED + count);
    let [number_high, number_low] = u16_bytes(number);
    let mut packet = [
        0x18,
        0xA9,
        count_high,
        count_low,
        0,
        5,
        4,
        0,
        number_high,
        number_low,
        0,
        0,
    ];
    packet[7] = 0xFF ^ parity(&packet);
    packet
}
