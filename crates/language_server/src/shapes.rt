//! Places and ranges of texts as JSON.

use crate::json_text::JsonText;
use editor_text::{UnitPlace, Walk, offset_at};
use serde_json::Value;

/// Writes the member of this name: a place.
fn write_place(json: &mut JsonText, name: &str, place: UnitPlace) {
    json.name(name);
    json.begin_object();
    json.number_member("character", i64::from(place.unit));
    json.number_member("line", i64::from(place.line));
    json.end_object();
}

/// Writes the member `range`: from one place up to another.
pub fn write_range_member(json: &mut JsonText, start: UnitPlace, end: UnitPlace) {
    json.name("range");
    write_range(json, start, end);
}

/// Writes the range from one place up to another.
pub fn write_range(json: &mut JsonText, start: UnitPlace, end: UnitPlace) {
    json.begin_object();
    write_place(json, "end", end);
    write_place(json, "start", start);
    json.end_object();
}

/// Writes the member `range`: from one byte up to another. Ranges in the order of the text cost one walk through it.
pub fn write_byte_range(json: &mut JsonText, walk: &mut Walk<'_>, from: usize, to: usize) {
    let start = walk.place_at(from);
    let end = walk.place_at(to);
    write_range_member(json, start, end);
}

/// Writes a change of a range.
pub fn write_edit(json: &mut JsonText, walk: &mut Walk<'_>, from: usize, to: usize, text: &str) {
    json.begin_object();
    json.string_member("newText", text);
    write_byte_range(json, walk, from, to);
    json.end_object();
}

/// Begins the changes of the document with this URI: its edits follow.
pub fn begin_changes(json: &mut JsonText, uri: &str) {
    json.begin_object();
    json.name("changes");
    json.begin_object();
    json.name(uri);
    json.begin_array();
}

/// Ends the changes of a document.
pub fn end_changes(json: &mut JsonText) {
    json.end_array();
    json.end_object();
    json.end_object();
}

/// A number of a place, at most 2^32 - 1.
fn number_in(value: &Value, name: &str) -> Option<u32> {
    let number = value.get(name)?.as_u64()?;
    Some(u32::try_from(number).unwrap_or(u32::MAX))
}

/// The place that a value is.
fn place_in(value: &Value) -> Option<UnitPlace> {
    Some(UnitPlace {
        line: number_in(value, "line")?,
        unit: number_in(value, "character")?,
    })
}

/// The byte of a text that a value names by its place.
pub fn offset_in(text: &[u8], value: &Value) -> Option<usize> {
    Some(offset_at(text, place_in(value)?))
}

/// The bytes of a text that a value names by a range: the place of the first, and that after the last.
pub fn range_in(text: &[u8], value: &Value) -> Option<(usize, usize)> {
    let from = offset_in(text, value.get("start")?)?;
    let to = offset_in(text, value.get("end")?)?;
    Some((from, to.max(from)))
}
