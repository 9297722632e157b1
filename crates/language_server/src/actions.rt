//! Quick fixes: the edits of messages.

use crate::diagnostics_of::{marked_bytes, message_places, write_diagnostic};
use crate::document::Document;
use crate::failure::{Failure, NO_PARAMETERS};
use crate::incoming::member_of;
use crate::json_text::JsonText;
use crate::places::Places;
use crate::shapes::{begin_changes, end_changes, range_in};
use diagnostics::{Edit, Message, push_quoted};
use serde_json::Value;
use std::alloc::{AllocError, Global};

/// The kind of all fixes.
const QUICK_FIX: &str = "quickfix";

/// The most bytes of an edit's text that a title shows.
const MOST_SHOWN: usize = 60;

/// What an edit does, in a few words.
fn title_of(alloc: Global, text: &[u8], edit: &Edit) -> Result<String, AllocError> {
    let to = edit.to.min(text.len());
    let old = &text[edit.from.min(to)..to];
    let new = edit.text.as_bytes();
    let mut title = String::new(alloc);
    if old.len() > MOST_SHOWN || new.len() > MOST_SHOWN {
        title.push_str("apply the advice")?;
    } else if new.is_empty() {
        title.push_str("remove ")?;
        push_quoted(alloc, &mut title, old)?;
    } else if old.is_empty() {
        title.push_str("insert ")?;
        push_quoted(alloc, &mut title, new)?;
    } else {
        title.push_str("replace ")?;
        push_quoted(alloc, &mut title, old)?;
        title.push_str(" by ")?;
        push_quoted(alloc, &mut title, new)?;
    }
    Ok(title)
}

/// Writes the fix that makes an edit for a message about a document's text. `places` has the places of both.
fn write_fix(
    alloc: Global,
    json: &mut JsonText,
    places: &Places,
    document: &Document,
    message: &Message,
    edit: &Edit,
) -> Result<(), AllocError> {
    let text = document.text.as_slice();
    let uri = document.uri.as_str();
    let title = title_of(alloc, text, edit)?;
    json.begin_object();
    json.name("diagnostics");
    json.begin_array();
    write_diagnostic(alloc, json, places, uri, text, message)?;
    json.end_array();
    json.name("edit");
    begin_changes(json, uri);
    json.begin_object();
    json.string_member("newText", edit.text.as_str());
    places.write_range(json, edit.from, edit.to);
    json.end_object();
    end_changes(json);
    json.flag_member("isPreferred", true);
    json.string_member("kind", QUICK_FIX);
    json.string_member("title", title.as_str());
    json.end_object();
    Ok(())
}

/// Whether a message's first mark touches a range.
fn touches(text: &[u8], message: &Message, range: (usize, usize)) -> bool {
    match &message.first {
        Some(mark) => {
            let (from, to) = marked_bytes(text, mark);
            from <= range.1 && range.0 <= to
        }
        None => false,
    }
}

/// Whether parameters ask for quick fixes: they name no kinds, or this one among others.
fn asks_for_fixes(params: &Value) -> bool {
    match member_of(params, "context", "only").and_then(Value::as_array) {
        Some(kinds) => kinds.iter().any(|kind| kind.as_str() == Some(QUICK_FIX)),
        None => true,
    }
}

/// Writes the fixes of the messages that a range of a document's text touches.
fn write_touched_fixes(
    alloc: Global,
    json: &mut JsonText,
    document: &Document,
    range: (usize, usize),
) -> Result<(), AllocError> {
    let text = document.text.as_slice();
    let places = message_places(alloc, text, document.messages.as_slice())?;
    for message in &document.messages {
        if let Some(edit) = &message.edit {
            if touches(text, message, range) {
                write_fix(alloc, json, &places, document, message, edit)?;
            }
        }
    }
    Ok(())
}

/// Writes the fixes of the messages that the range of these parameters touches.
pub fn write_fixes(
    alloc: Global,
    json: &mut JsonText,
    document: &Document,
    params: &Value,
) -> Result<(), Failure> {
    let range = params.get("range").ok_or(NO_PARAMETERS)?;
    let range = range_in(document.text.as_slice(), range).ok_or(NO_PARAMETERS)?;
    json.begin_array();
    if asks_for_fixes(params) {
        write_touched_fixes(alloc, json, document, range)?;
    }
    json.end_array();
    Ok(())
}
