//! Reads schedules, with messages about a text that is refused.

ghost use Rattle.std.specs.Prelude.{◌≡◌, ◌≤◌, IfOk, IfErr, Ok, Err};
ghost use Rattle.lc_model.specs.Host.ScheduleText.{schedule_in, bad_line, too_many_slots, too_many_entries};
ghost use Rattle.schedules.specs.Error.{IsRefused};
ghost use Rattle.script_errors.specs.Line.{line_count};
ghost use Rattle.script_errors.specs.Telling.{IsOn, IsScheduleRefusal};

use crate::entry::{entry_said, full_said};
use crate::first_line::{first_said, slots_in};
use crate::line::{Line, line_numbered};
use crate::refusal::Refusal;
use crate::said::{LineMessage, message_at_end, message_on};
use diagnostics::Message;
use schedules::{Schedule, ScheduleError, parse_schedule};
use std::alloc::{AllocError, Global};
use text_lines::is_silent;

/// The number of the refusal of an invalid line.
const BAD_LINE: u8 = 131;

/// The number of the refusal of too many slots.
const TOO_MANY_SLOTS: u8 = 132;

/// The number of the refusal of too many entries in a slot.
const TOO_MANY_ENTRIES: u8 = 133;

/// The first line of these bytes with words that are not a comment, if there is one.
fn first_with_words(text: &[u8]) -> Option<&[u8]> {
    for line in text.split(|byte| *byte == b'\n') {
        if !is_silent(line) {
            return Some(line);
        }
    }
    None
}

/// The message about an invalid line after these bytes of the text.
fn bad_line_said(alloc: Global, before: &[u8], line: &[u8]) -> Result<LineMessage, AllocError> {
    match first_with_words(before) {
        Some(first) => entry_said(alloc, line, slots_in(first)),
        None => first_said(alloc, line),
    }
}

/// The message about a line with this refusal, after these bytes of the text.
fn line_said(
    alloc: Global,
    code: u8,
    before: &[u8],
    line: &[u8],
) -> Result<LineMessage, AllocError> {
    if code == TOO_MANY_ENTRIES {
        full_said(alloc, line)
    } else {
        bad_line_said(alloc, before, line)
    }
}

/// The message about the line with this number.
fn numbered_message(
    alloc: Global,
    text: &[u8],
    code: u8,
    number: usize,
) -> Result<Message, AllocError>
    requires some { 1 ≤ number }
    requires there { number ≤ line_count text.now }
    ensures { IfOk result (IsOn text.now code number) }
{
    let line = line_numbered(text, number);
    let said = line_said(alloc, code, text.split_at(line.begin).0, line.bytes)?;
    message_on(alloc, line, code, said)
}

/// The message about a refusal on the line with this number, or at the text's end if the number is 0.
fn message(alloc: Global, text: &[u8], code: u8, number: usize) -> Result<Message, AllocError>
    requires { number ≤ line_count text.now }
    ensures { IfOk result (IsOn text.now code number) }
{
    if number > 0 {
        return numbered_message(alloc, text, code, number);
    }
    let head = "no line says how many slots there are";
    message_at_end(alloc, text, code, head, "write `slots` and their number")
}

/// The refusal of a text with this fault.
fn refusal_of(alloc: Global, text: &[u8], code: u8, number: usize) -> Refusal
    requires { schedule_in text.now ≡ Err (record { code = code; line = number }) }
    ensures { IsScheduleRefusal text.now (schedule_in text.now) result }
{
    match message(alloc, text, code, number) {
        Ok(message) => Refusal::Told(message),
        Err(_) => Refusal::Memory,
    }
}

/// The refusal of a text for which the reader gives this error.
fn refusal(alloc: Global, text: &[u8], error: ScheduleError) -> Refusal
    requires { IsRefused (schedule_in text.now) error }
    ensures { IsScheduleRefusal text.now (schedule_in text.now) result }
{
    match error {
        ScheduleError::BadLine { n } => refusal_of(alloc, text, BAD_LINE, n),
        ScheduleError::TooManySlots { n } => refusal_of(alloc, text, TOO_MANY_SLOTS, n),
        ScheduleError::TooManyEntries { n } => refusal_of(alloc, text, TOO_MANY_ENTRIES, n),
        ScheduleError::Memory => Refusal::Memory,
    }
}

/// Reads a schedule as `schedules::parse_schedule` does.
///
/// Errors: `Told` with a message about the first fault, with the fault's number (131 to 133) and on its line: which word is wrong or
/// missing, and what would be right. In a text without statements the message is at the text's end. `Memory` if there is no memory for the
/// slots or the message.
pub fn read_schedule(alloc: Global, text: &[u8]) -> Result<Schedule, Refusal>
    ensures said { IfOk result (λ schedule. schedule_in text.now ≡ Ok schedule) }
    ensures refused { IfErr result (IsScheduleRefusal text.now (schedule_in text.now)) }
{
    match parse_schedule(alloc, text) {
        Ok(schedule) => Ok(schedule),
        Err(error) => Err(refusal(alloc, text, error)),
    }
}
