//! The lists of a page's data: its fields, its lanes and its bands.

use crate::json::{Item, Json};
use crate::value_names::{how, mode};
use bounded_history::{Changes, Entry};
use run_summary::{Bands, Place, Seen};
use std::fmt::Write;

/// The texts before the items of an entry: of the first items, and of those in entries with more than one change.
const VALUE: &[&str] = &["[", ",", ","];

const TO_VALUE: &[&str] = &[",", ",", "]"];

/// An entry of a field. If its least value is greater than its greatest, the field has no value.
fn put_value<W: Write>(json: &mut Json<'_, W>, entry: &Entry) {
    let (low, high) = if entry.told.low <= entry.told.high {
        (Some(entry.told.low), Some(entry.told.high))
    } else {
        (None, None)
    };
    let items = [
        Item::Natural(entry.from),
        Item::Time(entry.time),
        Item::NumberIf(low),
    ];
    json.member(VALUE, &items);
    if entry.changes > 1 {
        json.row(
            TO_VALUE,
            &[Item::NumberIf(high), Item::Natural(entry.changes)],
        )
    } else {
        json.text("]")
    }
}

/// The entries of a field.
fn put_values<W: Write>(json: &mut Json<'_, W>, entries: &[Entry]) {
    for entry in entries {
        put_value(json, entry);
    }
}

const LAST: &[&str] = &["[", ",", "]"];

/// The place of the last packet of a field.
fn put_last<W: Write>(json: &mut Json<'_, W>, last: Option<Place>) {
    match last {
        Some(place) => json.row(LAST, &[Item::Natural(place.record), Item::Time(place.time)]),
        None => json.text("null"),
    }
}

const FIELD: &[&str] = &[
    "{\"name\":\"",
    "\",\"packet\":\"",
    "\",\"mid\":",
    ",\"type\":\"",
    "\",\"at\":",
    ",\"mask\":",
    ",\"stale\":",
    ",\"packets\":",
    ",\"last\":",
];

/// A field, with its entries.
fn put_field<W: Write>(json: &mut Json<'_, W>, seen: &Seen<'_>, entries: &[Entry]) {
    let items = [
        Item::Text(seen.field.name),
        Item::Text(seen.field.packet),
        Item::Natural(seen.field.mid as u64),
        Item::Word(seen.field.kind.word()),
        Item::Natural(seen.field.at as u64),
        Item::NumberIf(seen.field.mask),
        Item::Number(seen.field.stale),
        Item::Natural(seen.packets),
    ];
    json.member(FIELD, &items);
    put_last(json, seen.last);
    json.open(",\"values\":[");
    put_values(json, entries);
    json.text("]}")
}

/// All fields.
pub fn put_fields<W: Write>(json: &mut Json<'_, W>, seen: &[Seen<'_>], values: &[Changes]) {
    for (number, seen) in seen.iter().enumerate() {
        let entries = match values.get(number) {
            Some(list) => list.entries(),
            None => &[],
        };
        put_field(json, seen, entries);
    }
}

const SPAN: &[&str] = &["[", ",", ",", ","];

/// An entry of a lane.
fn put_span<W: Write>(json: &mut Json<'_, W>, entry: &Entry) {
    let items = [
        Item::Natural(entry.from),
        Item::Time(entry.time),
        Item::Natural(entry.told.results as u64),
        Item::Natural(entry.told.states as u64),
    ];
    json.member(SPAN, &items);
    if entry.changes > 1 {
        json.row(&[",", "]"], &[Item::Natural(entry.changes)])
    } else {
        json.text("]")
    }
}

/// The entries of a lane.
fn put_spans<W: Write>(json: &mut Json<'_, W>, entries: &[Entry]) {
    for entry in entries {
        put_span(json, entry);
    }
}

/// All lanes.
pub fn put_lanes<W: Write>(json: &mut Json<'_, W>, lanes: &[Changes]) {
    for list in lanes {
        json.list("[");
        put_spans(json, list.entries());
        json.text("]");
    }
}

const TABLES: &[&str] = &["[", ",", ",", ",\"", "\"]"];

/// The changes of the tables in force.
pub fn put_tables<W: Write>(json: &mut Json<'_, W>, bands: &Bands) {
    for from in bands.tables() {
        let items = [
            Item::Natural(from.place.record),
            Item::Time(from.place.time),
            Item::TextIf(from.text),
            how(from.how),
        ];
        json.member(TABLES, &items);
    }
}

const MODE: &[&str] = &["[", ",", ",\"", "\"]"];

/// The changes of the Limit Checker's mode.
pub fn put_modes<W: Write>(json: &mut Json<'_, W>, bands: &Bands) {
    for from in bands.modes() {
        let items = [
            Item::Natural(from.place.record),
            Item::Time(from.place.time),
            mode(from.mode),
        ];
        json.member(MODE, &items);
    }
}
