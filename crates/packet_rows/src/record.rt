//! The records of a stream, as rows.

use crate::cell::Cell;
use crate::epoch::TimeTexts;

/// The columns of a record's row, in order (docs/TOOLS.md, this project's own).
pub const RECORD_NAMES: [&str; 6] = ["number", "time", "utc", "kind", "says", "size"];

/// The keys of the same in alphabetical order, as they stand before the values of an object.
pub const RECORD_KEYS: [&str; 6] = [
    "{\"kind\":",
    ",\"number\":",
    ",\"says\":",
    ",\"size\":",
    ",\"time\":",
    ",\"utc\":",
];

/// The kind and the content in the line of a record, after its number and its moment.
fn behind_moment(line: &str) -> Option<(&str, &str)> {
    let line = line.strip_suffix('\n')?;
    let (_number, line) = line.split_once(' ')?;
    let (_seconds, line) = line.split_once(' ')?;
    let (_subseconds, line) = line.split_once(' ')?;
    match line.split_once(' ') {
        Some(parts) => Some(parts),
        None => Some((line, "")),
    }
}

/// The cells of a record's row.
#[derive(Clone, Copy)]
pub struct RecordCells<'c> {
    number: Cell<'c>,
    time: Cell<'c>,
    utc: Cell<'c>,
    kind: Cell<'c>,
    says: Cell<'c>,
    size: Cell<'c>,
}

impl<'c> RecordCells<'c> {
    /// The cells in the order of `RECORD_NAMES`.
    pub fn columns(&self) -> [Cell<'c>; 6] {
        [
            self.number,
            self.time,
            self.utc,
            self.kind,
            self.says,
            self.size,
        ]
    }

    /// The cells in the order of `RECORD_KEYS`.
    pub fn members(&self) -> [Cell<'c>; 6] {
        [
            self.kind,
            self.number,
            self.says,
            self.size,
            self.time,
            self.utc,
        ]
    }
}

/// The cells of a record of `size` bytes with this number and this listing line. Its column `says` is the part of the line after the kind.
pub fn record_cells<'c>(
    number: u64,
    size: usize,
    line: &'c [u8],
    times: &'c TimeTexts,
) -> RecordCells<'c> {
    let text = str::from_utf8(line).unwrap_or("");
    let (kind, says) = behind_moment(text).unwrap_or(("", ""));
    RecordCells {
        number: Cell::Number(number),
        time: times.time.cell(),
        utc: times.utc.cell(),
        kind: Cell::Text(kind),
        says: Cell::Text(says),
        size: Cell::Number(size as u64),
    }
}
