//! Messages for message ids and lengths of packets.

ghost use Rattle.std.specs.Prelude.{◌≡◌, IfOk};
ghost use Rattle.diagnostics.specs.Message.{IsAt};

use crate::advice::Advice;
use crate::marks::{mark, span, value_of};
use crate::token_faults::hexadecimal;
use diagnostics::{Message, around};
use lc_model::mids;
use rule_lexer::Token;
use std::alloc::{AllocError, Global};
use std::str;

/// Message ids of commands.
const FIRST_COMMAND: i64 = 0x1800;

const LAST_COMMAND: i64 = 0x1FFF;

/// What to do about a message id that isn't one of telemetry.
fn telemetry_label(value: i64) -> &'static str {
    if FIRST_COMMAND <= value && value <= LAST_COMMAND {
        "this is a command's: telemetry has 0x0800 to 0x0FFF"
    } else {
        "telemetry has 0x0800 to 0x0FFF"
    }
}

/// Whether the digits of a decimal number are those of a message id of telemetry in hexadecimal.
fn is_telemetry_in_hex(digits: &[u8]) -> bool {
    match str::from_utf8(digits) {
        Ok(digits) => match u16::from_str_radix(digits, 16) {
            Ok(mid) => mids::is_telemetry(mid),
            Err(_) => false,
        },
        Err(_) => false,
    }
}

/// What to do about the message id in a token.
fn mid_advice(alloc: Global, token: Token<'_>) -> Result<Advice, AllocError> {
    if is_telemetry_in_hex(token.text) {
        let number = hexadecimal(alloc, token.text)?;
        return Advice::meant(alloc, span(token), number.as_slice());
    }
    Advice::plain(alloc, telemetry_label(value_of(token)))
}

/// The message for a message id that isn't one of telemetry.
pub fn no_telemetry(alloc: Global, token: Token<'_>) -> Result<Message, AllocError>
    ensures { IfOk result (IsAt 23 token.entry.at) }
{
    let head = around(
        alloc,
        "the message id ",
        token.text,
        " is not one of telemetry",
    )?;
    let Advice { label, edit } = mid_advice(alloc, token)?;
    Ok(Message::at(alloc, 23, head, mark(token, label)).with_edit(edit))
}

/// What to do about a message id of the host's own.
fn reserved_label(value: i64) -> &'static str {
    if value == i64::from(mids::EVENT) {
        "event packets have it: take another"
    } else {
        "the Limit Checker's housekeeping has it: take another"
    }
}

/// The message for a message id that the host itself uses.
pub fn reserved_mid(alloc: Global, token: Token<'_>) -> Result<Message, AllocError>
    ensures { IfOk result (IsAt 24 token.entry.at) }
{
    let head = around(alloc, "the message id ", token.text, " is the host's own")?;
    let label = String::from_str(alloc, reserved_label(value_of(token)))?;
    Ok(Message::at(alloc, 24, head, mark(token, label)))
}

/// The message for a length that is out of its range.
pub fn bad_length(alloc: Global, token: Token<'_>) -> Result<Message, AllocError>
    ensures { IfOk result (IsAt 29 token.entry.at) }
{
    let head = String::from_str(alloc, "the packet length is out of range")?;
    let label = String::from_str(alloc, "write 12 to 2,048")?;
    Ok(Message::at(alloc, 29, head, mark(token, label)))
}
