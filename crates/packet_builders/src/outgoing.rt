//! The bytes of outgoing packets (CCSDS 133.0-B; cFE user's guide, message headers; the time code is this project's own).

ghost use Rattle.std.specs.Prelude.{◌≡◌, ◌<◌, ◌≤◌, ◌+◌, ◌++◌, length, drop, fold, bit_xor};
ghost use Rattle.lc_model.specs.Packet.{primary_header, command, telemetry, command_header_size, count_end, longest_packet, telemetry_header_size};

use lc_model::packet::UNSEGMENTED;
use lc_model::{Moment, u16_bytes, u32_bytes};

/// The six bytes of a primary header, of a packet of `size` bytes in all, whole (flags 3).
fn primary_header(message_id: u16, sequence_count: u16, size: usize) -> [u8; 6]
    requires count { sequence_count < count_end }
    requires size { (7 ≤ size) × (size ≤ longest_packet) }
    ensures { result ≡ primary_header message_id sequence_count size }
{
    let [id_high, id_low] = u16_bytes(message_id);
    let [count_high, count_low] = u16_bytes(UNSEGMENTED + sequence_count);
    let [size_high, size_low] = u16_bytes((size - 7) as u16);
    [id_high, id_low, count_high, count_low, size_high, size_low]
}

/// The exclusive or of a byte and further bytes.
fn parity(first: u8, bytes: &[u8]) -> u8
    ensures { result ≡ fold bit_xor first bytes.now }
{
    bytes.iter().fold(first, |parity, byte| parity ^ byte)
}

/// Writes two parts to the front of a slice, one after the other, and returns how many bytes they have.
fn write(front: &[u8], payload: &[u8], out: &mut [u8]) -> usize
    requires { length front.now + length payload.now ≤ length out.old }
    ensures size { result ≡ length front.now + length payload.now }
    ensures bytes { out.new ≡ front.now ++ payload.now ++
        drop (length front.now + length payload.now) out.old }
{
    let size = front.len() + payload.len();
    out[..front.len()].copy_from_slice(front);
    out[front.len()..size].copy_from_slice(payload);
    size
}

/// Writes a command of 8 bytes of header and its payload to the front of a slice, whose further bytes stay, and returns how
/// many bytes it has. Its checksum byte makes the exclusive or of all bytes 0xFF. Conditions: a sequence count below 16,384,
/// at most 2,048 bytes in all, and room for them.
pub fn build_command(
    message_id: u16,
    sequence_count: u16,
    function_code: u8,
    payload: &[u8],
    out: &mut [u8],
) -> usize
    requires count { sequence_count < count_end }
    requires size { command_header_size + length payload.now ≤ longest_packet }
    requires room { command_header_size + length payload.now ≤ length out.old }
    ensures size { result ≡ command_header_size + length payload.now }
    ensures bytes { out.new ≡ command message_id sequence_count function_code payload.now ++
        drop (command_header_size + length payload.now) out.old }
{
    let header = primary_header(message_id, sequence_count, 8 + payload.len());
    let checksum = 0xFF ^ parity(parity(0, &header) ^ function_code, payload);
    let [a, b, c, d, e, f] = header;
    write(&[a, b, c, d, e, f, function_code, checksum], payload, out)
}

/// Writes telemetry of 12 bytes of header and its payload to the front of a slice, whose further bytes stay, and returns how
/// many bytes it has. Its time, seconds and subseconds, follows the primary header. Conditions: a sequence count below
/// 16,384, at most 2,048 bytes in all, and room for them.
pub fn build_telemetry(
    message_id: u16,
    sequence_count: u16,
    moment: Moment,
    payload: &[u8],
    out: &mut [u8],
) -> usize
    requires count { sequence_count < count_end }
    requires size { telemetry_header_size + length payload.now ≤ longest_packet }
    requires room { telemetry_header_size + length payload.now ≤ length out.old }
    ensures size { result ≡ telemetry_header_size + length payload.now }
    ensures bytes { out.new ≡ telemetry message_id sequence_count moment payload.now ++
        drop (telemetry_header_size + length payload.now) out.old }
{
    let [a, b, c, d, e, f] = primary_header(message_id, sequence_count, 12 + payload.len());
    let [s, t, u, v] = u32_bytes(moment.seconds);
    let [x, y] = u16_bytes(moment.subseconds);
    write(&[a, b, c, d, e, f, s, t, u, v, x, y], payload, out)
}
