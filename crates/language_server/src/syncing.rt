//! Notifications about documents: opened, changed, saved, closed.

use crate::document::{Document, language_of};
use crate::incoming::member_of;
use crate::shapes::range_in;
use editor_text::replace;
use serde_json::Value;
use std::alloc::{AllocError, Global};

/// The document that a notification opens; `None` if it lacks URI or text.
pub fn document_in(alloc: Global, params: &Value) -> Result<Option<Document>, AllocError> {
    let Some(item) = params.get("textDocument") else {
        return Ok(None);
    };
    let Some(uri) = item.get("uri").and_then(Value::as_str) else {
        return Ok(None);
    };
    let Some(text) = item.get("text").and_then(Value::as_str) else {
        return Ok(None);
    };
    let language = language_of(item.get("languageId").and_then(Value::as_str), uri);
    Ok(Some(Document {
        uri: String::from_str(alloc, uri)?,
        language,
        version: item.get("version").and_then(Value::as_i64),
        text: Vec::from_slice(alloc, text.as_bytes())?,
        messages: Vec::new(alloc),
    }))
}

/// The text after a change: of a range, or of all if the change names no range. A change without a text changes nothing.
fn text_after(alloc: Global, text: &[u8], change: &Value) -> Result<Vec<u8>, AllocError> {
    let Some(new) = change.get("text").and_then(Value::as_str) else {
        return Vec::from_slice(alloc, text);
    };
    match change.get("range") {
        None | Some(Value::Null) => Vec::from_slice(alloc, new.as_bytes()),
        Some(range) => match range_in(text, range) {
            Some((from, to)) => replace(alloc, text, from, to, new.as_bytes()),
            None => Vec::from_slice(alloc, text),
        },
    }
}

/// Makes the changes of a notification in a document, one after the other.
pub fn change(alloc: Global, document: &mut Document, params: &Value) -> Result<(), AllocError> {
    if let Some(changes) = params.get("contentChanges").and_then(Value::as_array) {
        for change in changes {
            document.text = text_after(alloc, document.text.as_slice(), change)?;
        }
    }
    document.version = member_of(params, "textDocument", "version").and_then(Value::as_i64);
    Ok(())
}
