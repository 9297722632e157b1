//! Messages about a text as diagnostics.

use crate::json_text::JsonText;
use crate::judging::Judgement;
use crate::places::Places;
use crate::shapes::write_range_member;
use diagnostics::{Mark, Message, behind};
use editor_text::UnitPlace;
use std::alloc::{AllocError, Global};

/// The severities of diagnostics.
const ERROR: i64 = 1;

const WARNING: i64 = 2;

const INFORMATION: i64 = 3;

/// The begin of a text.
const START: UnitPlace = UnitPlace { line: 0, unit: 0 };

/// Who reports the diagnostics.
const SOURCE: &str = "flight_tools";

/// Whether a line ends at this byte: a line feed, or the carriage return right before one.
fn ends_line(text: &[u8], at: usize) -> bool {
    match behind(text, at) {
        [b'\n', ..] | [b'\r', b'\n', ..] => true,
        _ => false,
    }
}

/// The bytes of a mark, as far as they stand on its line: the place of the first, and that after the last.
pub fn marked_bytes(text: &[u8], mark: &Mark) -> (usize, usize) {
    let at = mark.at.min(text.len());
    let to = at.saturating_add(mark.size).min(text.len());
    let end = (at..to).find(|place| ends_line(text, *place));
    (at, end.unwrap_or(to))
}

/// The ends of a mark.
fn push_ends(text: &[u8], mark: &Mark, ends: &mut Vec<usize>) -> Result<(), AllocError> {
    let (from, to) = marked_bytes(text, mark);
    ends.extend_from_slice(&[from, to])?;
    Ok(())
}

/// The ends of all marks of a message, and of its edit.
fn push_message_ends(
    text: &[u8],
    message: &Message,
    ends: &mut Vec<usize>,
) -> Result<(), AllocError> {
    if let Some(mark) = &message.first {
        push_ends(text, mark, ends)?;
    }
    for mark in &message.others {
        push_ends(text, mark, ends)?;
    }
    if let Some(edit) = &message.edit {
        ends.extend_from_slice(&[edit.from, edit.to])?;
    }
    Ok(())
}

/// The places of all marks and edits of messages about a text.
pub fn message_places(
    alloc: Global,
    text: &[u8],
    messages: &[Message],
) -> Result<Places, AllocError> {
    let mut ends = Vec::new(alloc);
    for message in messages {
        push_message_ends(text, message, &mut ends)?;
    }
    Places::of(alloc, text, ends)
}

/// Writes the range of a mark.
fn write_mark_range(json: &mut JsonText, places: &Places, text: &[u8], mark: &Mark) {
    let (from, to) = marked_bytes(text, mark);
    places.write_range(json, from, to);
}

/// The sentence of a message, and what its first mark says.
fn sentence_of(alloc: Global, message: &Message) -> Result<String, AllocError> {
    let mut sentence = String::from_str(alloc, message.head.as_str())?;
    if let Some(mark) = &message.first {
        if !mark.label.is_empty() {
            sentence.push_str(": ")?;
            sentence.push_str(mark.label.as_str())?;
        }
    }
    Ok(sentence)
}

/// The severity of a message.
fn severity_of(message: &Message) -> i64 {
    match message.warning {
        Some(_) => WARNING,
        None => ERROR,
    }
}

/// Writes the name of a warning, or the number of a refusal.
fn write_code(json: &mut JsonText, message: &Message) {
    match message.warning {
        Some(name) => json.string_member("code", name),
        None => json.number_member("code", i64::from(message.code)),
    }
}

/// Writes the range of a message: that of its first mark, or the text's begin.
fn write_first_range(json: &mut JsonText, places: &Places, text: &[u8], message: &Message) {
    match &message.first {
        Some(mark) => write_mark_range(json, places, text, mark),
        None => write_range_member(json, START, START),
    }
}

/// Writes another place of a message about the text of a document with this URI.
fn write_related(json: &mut JsonText, places: &Places, uri: &str, text: &[u8], mark: &Mark) {
    json.begin_object();
    json.name("location");
    json.begin_object();
    write_mark_range(json, places, text, mark);
    json.string_member("uri", uri);
    json.end_object();
    json.string_member("message", mark.label.as_str());
    json.end_object();
}

/// Writes the diagnostic of a message about the text of a document with this URI. `places` has the message's places.
pub fn write_diagnostic(
    alloc: Global,
    json: &mut JsonText,
    places: &Places,
    uri: &str,
    text: &[u8],
    message: &Message,
) -> Result<(), AllocError> {
    let sentence = sentence_of(alloc, message)?;
    json.begin_object();
    write_code(json, message);
    json.string_member("message", sentence.as_str());
    write_first_range(json, places, text, message);
    json.name("relatedInformation");
    json.begin_array();
    for mark in &message.others {
        write_related(json, places, uri, text, mark);
    }
    json.end_array();
    json.number_member("severity", severity_of(message));
    json.string_member("source", SOURCE);
    json.end_object();
    Ok(())
}

/// Writes the diagnostic of a sentence about the whole text.
fn write_note(json: &mut JsonText, note: &str) {
    json.begin_object();
    json.string_member("message", note);
    write_range_member(json, START, START);
    json.number_member("severity", INFORMATION);
    json.string_member("source", SOURCE);
    json.end_object();
}

/// Writes the diagnostics of what is reported of a text, in its order.
pub fn write_diagnostics(
    alloc: Global,
    json: &mut JsonText,
    uri: &str,
    text: &[u8],
    judgement: &Judgement,
) -> Result<(), AllocError> {
    let places = message_places(alloc, text, judgement.messages.as_slice())?;
    json.begin_array();
    for message in &judgement.messages {
        write_diagnostic(alloc, json, &places, uri, text, message)?;
    }
    if let Some(note) = &judgement.note {
        write_note(json, note.as_str());
    }
    json.end_array();
    Ok(())
}
