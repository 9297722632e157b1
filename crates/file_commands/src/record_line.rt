//! The line of a record in a listing, with a command in words where it has them.

ghost use Rattle.std.specs.Prelude.{◌≤◌, length};
ghost use Rattle.lc_model.specs.Host.Stream.{header_size};

use lc_model::packet::{COMMAND_HEADERS, padded_message_id};
use lc_model::stream::{HEADER, moment_of};
use lc_model::{Moment, mids, u16_at};
use scenarios::{DeclaredItems, record_in_words};
use std::alloc::{AllocError, Global};
use stream_script::{Front, front_of, write_listing_from};

/// The largest number that a listing gives a record.
const MOST_COUNTED: usize = usize::MAX / 2;

/// The line of a record that brings a command which these words say.
fn command_line(
    alloc: Global,
    number: usize,
    record: &[u8],
    words: &[u8],
) -> Result<Vec<u8>, AllocError>
    requires { header_size ≤ length «record».now }
{
    let Moment {
        seconds,
        subseconds,
    } = moment_of(record);
    let (_, packet) = record.split_at(HEADER);
    let mid = padded_message_id(packet);
    let line = format!(in alloc; "{number} {seconds} {subseconds} packet {mid:04x}: ")?;
    let mut line = line.into_bytes();
    line.extend_from_slice(words)?;
    line.extend_from_slice(b"\n")?;
    Ok(line)
}

/// The words of a record that brings a command which has words. Telemetry and records of other kinds have none.
fn words_of(
    alloc: Global,
    record: &[u8],
    declared: &DeclaredItems<'_>,
) -> Result<Option<Vec<u8>>, AllocError> {
    if record.len() < HEADER + COMMAND_HEADERS || mids::is_telemetry(u16_at(record, HEADER)) {
        return Ok(None);
    }
    record_in_words(alloc, record, declared)
}

/// The line of a whole record with this number, and its line feed. A command that has words is listed in them, with the names that
/// these declarations give; any other record as `write_listing_from` lists it.
pub fn record_line(
    alloc: Global,
    number: usize,
    record: &[u8],
    declared: &DeclaredItems<'_>,
) -> Result<Vec<u8>, AllocError> {
    match words_of(alloc, record, declared)? {
        Some(words) if record.len() >= HEADER => {
            command_line(alloc, number, record, words.as_slice())
        }
        _ => write_listing_from(alloc, number.min(MOST_COUNTED), record),
    }
}

/// The lines of the rest of a stream, as `write_listing_from` lists it, of which the first has this number.
fn rest_lines(alloc: Global, number: usize, rest: &[u8]) -> Result<Vec<u8>, AllocError> {
    write_listing_from(alloc, number.min(MOST_COUNTED), rest)
}

/// The lines of records, the first of which has this number, and of what follows them if that isn't a whole record.
pub fn record_lines(
    alloc: Global,
    first: usize,
    records: &[u8],
    declared: &DeclaredItems<'_>,
) -> Result<Vec<u8>, AllocError> {
    let mut text = Vec::new(alloc);
    let mut number = first;
    let mut rest = records;
    for _ in 0..records.len() {
        let Front::Record { kind: _, size } = front_of(rest) else {
            break;
        };
        let (record, behind) = rest.split_at(size);
        let line = record_line(alloc, number, record, declared)?;
        text.extend_from_slice(line.as_slice())?;
        number = number.saturating_add(1);
        rest = behind;
    }
    let end = rest_lines(alloc, number, rest)?;
    text.extend_from_slice(end.as_slice())?;
    Ok(text)
}
