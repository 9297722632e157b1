//! Messages and warnings about texts, and the faults of refused texts.

ghost use Rattle.std.specs.Prelude.{◌≡◌};
ghost use Rattle.tool_faults.specs.Cause.{IsOfRefusal, IsToldFault, fault_of_judgement};

use crate::fault::Fault;
use crate::output::listing_result;
use analysis_listing::ListingError;
use diagnostics::{Mark, Message, message_line, page_of, warnings_page_of};
use script_errors::Refusal;
use std::alloc::{AllocError, Global};
use std::fmt::Display;
use std::io::Write;

/// A list of this message only. Error: out of memory.
pub fn alone(alloc: Global, message: Message) -> Result<Vec<Message>, AllocError> {
    let mut told = Vec::new(alloc);
    told.push(message)?;
    Ok(told)
}

/// A message about the text in a file with this name, as it is printed.
fn page(alloc: Global, name: &str, text: &[u8], message: Message) -> Result<String, AllocError> {
    let told = alone(alloc, message)?;
    page_of(alloc, name, text, told.as_slice())
}

/// The fault for the text in a file with this name, with this message: `Lines`, or `Memory`.
fn told_fault(alloc: Global, name: &str, text: &[u8], message: Message) -> Fault<'static>
    ensures { IsToldFault result }
{
    match page(alloc, name, text, message) {
        Ok(page) => Fault::Lines(page),
        Err(_) => Fault::Memory,
    }
}

/// The place of the line with this number, from 1, without blanks at its ends; the text's end if no line has the number.
pub fn line_mark(alloc: Global, text: &[u8], number: usize) -> Mark {
    let mut at = 0usize;
    for (place, line) in text.split(|byte| *byte == b'\n').enumerate() {
        if place.saturating_add(1) == number {
            let indent = line.len().saturating_sub(line.trim_ascii_start().len());
            return Mark {
                at: at.saturating_add(indent),
                size: line.trim_ascii().len(),
                label: String::new(alloc),
            };
        }
        at = at.saturating_add(line.len()).saturating_add(1);
    }
    Mark {
        at: text.len(),
        size: 0,
        label: String::new(alloc),
    }
}

/// The fault for a line, by its number from 1, of the text in a file with this name. The message has the number `code` and the
/// sentence of `error`.
pub fn line_fault<E: Display>(
    alloc: Global,
    name: &str,
    text: &[u8],
    code: u8,
    number: usize,
    error: &E,
) -> Fault<'static>
    ensures { IsToldFault result }
{
    match format!(in alloc; "{error}") {
        Ok(head) => {
            let mark = line_mark(alloc, text, number);
            told_fault(alloc, name, text, Message::at(alloc, code, head, mark))
        }
        Err(_) => Fault::Memory,
    }
}

/// The fault for the schedule or the script in a file with this name, with this refusal.
pub fn refusal_fault(alloc: Global, name: &str, text: &[u8], refusal: Refusal) -> Fault<'static>
    ensures { IsOfRefusal refusal result }
{
    match refusal {
        Refusal::Told(message) => told_fault(alloc, name, text, message),
        Refusal::Memory => Fault::Memory,
    }
}

/// The fault for rules or tables in a file with this name that can't be judged. Judgements are written to memory, so a failed write
/// means out of memory.
pub fn judgement_fault(name: &str, error: ListingError) -> Fault<'_>
    ensures { result ≡ fault_of_judgement name.entry error }
{
    match error {
        ListingError::Memory | ListingError::Write => Fault::Memory,
        error => Fault::Judgement(name, error),
    }
}

/// Writes messages about the text in a file with this name, each as a JSON object on a line.
fn write_objects<'a, W: Write>(
    alloc: Global,
    name: &'a str,
    text: &[u8],
    messages: &[Message],
    out: &mut W,
) -> Result<(), Fault<'a>> {
    for message in messages {
        let line = message_line(alloc, name, text, message)?;
        listing_result(out.write_all(line.as_bytes()))?;
    }
    listing_result(out.flush())
}

/// Writes messages about the text in a file with this name: as text, or each as a JSON object on a line. Errors: `File`, `Gone` or
/// `Memory`.
pub fn write_messages<'a, W: Write>(
    alloc: Global,
    name: &'a str,
    text: &[u8],
    messages: &[Message],
    is_json: bool,
    out: &mut W,
) -> Result<(), Fault<'a>> {
    if is_json {
        return write_objects(alloc, name, text, messages, out);
    }
    let page = page_of(alloc, name, text, messages)?;
    listing_result(out.write_all(page.as_bytes()))?;
    listing_result(out.flush())
}

/// The most warnings of a text that are written as text. JSON objects and counts have all.
pub const MOST_WARNINGS: usize = 100;

/// Writes warnings about the text in a file with this name: the first hundred as text, or all as JSON objects. Errors: `File`, `Gone`
/// or `Memory`.
pub fn write_warnings<'a, W: Write>(
    alloc: Global,
    name: &'a str,
    text: &[u8],
    warnings: &[Message],
    is_json: bool,
    out: &mut W,
) -> Result<(), Fault<'a>> {
    if is_json {
        return write_objects(alloc, name, text, warnings, out);
    }
    let shown = warnings.len().min(MOST_WARNINGS);
    let page = warnings_page_of(alloc, name, text, &warnings[..shown])?;
    listing_result(out.write_all(page.as_bytes()))?;
    listing_result(out.flush())
}
