//! What the line of a record shows of it.

ghost use Rattle.std.specs.Prelude.{◌≡◌, ◌==◌, ◌++◌, ◌≤◌, length, take, IfOk};
ghost use Rattle.std.specs.List.{position_or_len};
ghost use Rattle.lc_model.specs.Host.Stream.{half_size};
ghost use Rattle.lc_model.specs.Name.{name_in, name_size};
ghost use Rattle.lc_model.specs.Packet.{command_header_size};
ghost use Rattle.stream_script.specs.Kind.{fits_kind};
ghost use Rattle.stream_script.specs.Listing.{any_order_shown, app_order, body_shown, event_order, file_shown, half_shown, header_shown, mid_shown, order_shown, packet_shown, table_order};

use crate::kind::RecordKind;
use crate::text_building::{with_bytes, with_digits, with_name, with_size, with_text};
use lc_model::packet::{function_code, message_id};
use lc_model::{mids, name_in, u16_at};
use std::alloc::{AllocError, Global};

/// The first `size` bytes, or all if there are fewer.
fn at_most(size: usize, bytes: &[u8]) -> &[u8]
    ensures { result.now ≡ take size bytes.now }
{
    if bytes.len() < size {
        bytes
    } else {
        bytes.split_at(size).0
    }
}

/// The receiver of a command to the host, or the word for telemetry, by message id.
fn mid_shown(mid: u16) -> &'static [u8]
    ensures { result.now ≡ mid_shown mid }
{
    match mid {
        mids::EVENT_SERVICES => b" event services",
        mids::TABLE_SERVICES => b" table services",
        mids::EXECUTIVE_SERVICES => b" executive services",
        mids::LC_COMMAND => b" LC command",
        mids::LC_HOUSEKEEPING_REQUEST => b" LC housekeeping",
        mids::SAMPLE => b" LC sample",
        mids::COUNTER => b" counter",
        _ if mids::is_telemetry(mid) => b" telemetry",
        _ => b"",
    }
}

/// What a command to the event services does.
fn event_order(code: u8) -> &'static [u8]
    ensures { result.now ≡ event_order code }
{
    match code {
        1 => b" set filter of",
        2 => b" reset filters of",
        3 => b" types on of",
        4 => b" types off of",
        _ => b" unknown",
    }
}

/// What a command to the table services does.
fn table_order(code: u8) -> &'static [u8]
    ensures { result.now ≡ table_order code }
{
    match code {
        1 => b" load",
        2 => b" validate",
        3 => b" activate",
        4 => b" abort",
        _ => b" unknown",
    }
}

/// What a command to the executive services does.
fn app_order(code: u8) -> &'static [u8]
    ensures { result.now ≡ app_order code }
{
    match code {
        1 => b" start",
        2 => b" stop",
        3 => b" restart",
        4 => b" reload",
        _ => b" unknown",
    }
}

/// A text with the meaning of a command that has a whole header.
fn with_order(text: Vec<u8>, mid: u16, packet: &[u8]) -> Result<Vec<u8>, AllocError>
    requires { command_header_size ≤ length packet.now }
    ensures { IfOk result (λ after. after.items ≡ text.items ++ order_shown mid packet.now) }
{
    let code = function_code(packet);
    let (_, payload) = packet.split_at(8);
    match mid {
        mids::EVENT_SERVICES => {
            let text = with_text(text, event_order(code))?;
            with_name(text, name_in(at_most(20, payload)))
        }
        mids::TABLE_SERVICES => {
            let text = with_text(text, table_order(code))?;
            with_name(text, name_in(at_most(40, payload)))
        }
        mids::EXECUTIVE_SERVICES => {
            let text = with_text(text, app_order(code))?;
            with_name(text, name_in(at_most(20, payload)))
        }
        _ => {
            let text = with_text(text, b" code ")?;
            with_digits(text, u64::from(code))
        }
    }
}

/// A text with the meaning of a command; telemetry adds nothing.
fn with_any_order(text: Vec<u8>, mid: u16, packet: &[u8]) -> Result<Vec<u8>, AllocError>
    requires { command_header_size ≤ length packet.now }
    ensures { IfOk result (λ after. after.items ≡ text.items ++ any_order_shown mid packet.now) }
{
    if mids::is_telemetry(mid) {
        return Ok(text);
    }
    with_order(text, mid, packet)
}

/// A text with a packet's message id.
fn with_mid(alloc: Global, text: Vec<u8>, packet: &[u8]) -> Result<Vec<u8>, AllocError>
    requires { command_header_size ≤ length packet.now }
    ensures { IfOk result (λ after. after.items ≡ text.items ++ header_shown packet.now) }
{
    let text = with_text(text, b" ")?;
    let text = with_bytes(alloc, text, at_most(2, packet))?;
    with_text(text, mid_shown(message_id(packet)))
}

/// A text with a packet's message id, the meaning of a command, and the packet's size.
fn with_packet(alloc: Global, text: Vec<u8>, packet: &[u8]) -> Result<Vec<u8>, AllocError>
    ensures { IfOk result (λ after. after.items ≡ text.items ++ packet_shown packet.now) }
{
    if packet.len() < 8 {
        return with_size(text, packet.len());
    }
    let text = with_mid(alloc, text, packet)?;
    let text = with_any_order(text, message_id(packet), packet)?;
    with_size(text, packet.len())
}

/// A text with a half of a rule text.
fn with_half(text: Vec<u8>, body: &[u8]) -> Result<Vec<u8>, AllocError>
    requires { length body.now ≡ half_size }
    ensures { IfOk result (λ after. after.items ≡ text.items ++ half_shown body.now) }
{
    let half: &[u8] = if body[40] == 1 { b" wdt " } else { b" adt " };
    let text = with_text(text, half)?;
    let text = with_digits(text, u64::from(u16_at(body, 41)))?;
    with_name(text, name_in(at_most(40, body)))
}

/// A text with a file's name and its size.
fn with_file(text: Vec<u8>, body: &[u8]) -> Result<Vec<u8>, AllocError>
    requires { name_size ≤ length body.now }
    ensures { IfOk result (λ after. after.items ≡ text.items ++ file_shown body.now) }
{
    let text = with_name(text, name_in(at_most(40, body)))?;
    with_size(text, body.len() - 40)
}

/// A text with what a record of this kind brings.
pub(crate) fn with_body(
    alloc: Global,
    text: Vec<u8>,
    kind: RecordKind,
    body: &[u8],
) -> Result<Vec<u8>, AllocError>
    requires { fits_kind kind (length body.now) }
    ensures { IfOk result (λ after. after.items ≡ text.items ++ body_shown kind body.now) }
{
    match kind {
        RecordKind::Packet => with_packet(alloc, text, body),
        RecordKind::Tick => Ok(text),
        RecordKind::File => with_file(text, body),
        RecordKind::Half => with_half(text, body),
    }
}
