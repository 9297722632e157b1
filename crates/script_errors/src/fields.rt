//! Messages about the fields of a packet, as the statement `fields` gives them.

use crate::argument::{is_right, word_said};
use crate::said::{LineMessage, advise, expect_word, mark_word};
use crate::statement::{OFFSET, TYPE};
use crate::word::{Word, are_digits, nth_word, word_behind};
use diagnostics::Signed;
use lc_model::FieldType;
use std::alloc::{AllocError, Global};
use stream_script::decimal_number;

/// The length of telemetry's headers, in bytes.
const HEADERS: u64 = 12;

/// The number of the word with the packet's length.
const LENGTH: usize = 3;

/// The advice for a number of a type.
fn range_advice(alloc: Global, kind: FieldType) -> Result<String, AllocError> {
    let (least, greatest) = (Signed(kind.least()), Signed(kind.greatest()));
    format!(in alloc; "write {least} to {greatest}")
}

/// The word without the `-` in front.
fn without_sign(word: &[u8]) -> &[u8] {
    match word {
        [b'-', digits @ ..] => digits,
        _ => word,
    }
}

/// The decimal number that a word writes, with or without `-` in front.
fn value_in(word: &[u8]) -> Option<i64> {
    let number = decimal_number(without_sign(word))?;
    let value = i64::try_from(number).ok()?;
    Some(if word.starts_with(b"-") {
        value.saturating_neg()
    } else {
        value
    })
}

/// Whether a word writes a number of this type.
fn is_value(kind: FieldType, word: &[u8]) -> bool {
    value_in(word).is_some_and(|value| kind.has(value))
}

/// The message about a word that doesn't write a number of this type.
fn value_said(alloc: Global, kind: FieldType, value: Word<'_>) -> Result<LineMessage, AllocError> {
    let advice = range_advice(alloc, kind)?;
    let advice = advice.as_str();
    if !are_digits(without_sign(value.text)) {
        return expect_word(alloc, value, "the value of the field", advice);
    }
    let shown = value.quote(alloc)?;
    let head = format!(in alloc; "the number {shown} is outside the type of the field")?;
    advise(alloc, value, head, advice)
}

/// Whether a field of `width` bytes at a place is between the headers of a packet of `size` bytes and its end.
fn is_inside(width: u64, place: u64, size: u64) -> bool {
    place >= HEADERS && place.saturating_add(width) <= size
}

/// The size of the packet in bytes, by the line; 0 if it gives none.
fn size_of(line: &[u8]) -> u64 {
    decimal_number(nth_word(line, LENGTH).text).unwrap_or(0)
}

/// A number of bytes as a message shows it.
fn bytes_of(alloc: Global, width: u64) -> Result<String, AllocError> {
    if width == 1 {
        String::from_str(alloc, "1 byte")
    } else {
        format!(in alloc; "{width} bytes")
    }
}

/// The advice for a field of `width` bytes that isn't inside a packet of `size` bytes.
fn inside_advice(alloc: Global, width: u64, size: u64) -> Result<String, AllocError> {
    let bytes = bytes_of(alloc, width)?;
    let last = size.saturating_sub(width);
    if last < HEADERS {
        format!(in alloc; "the packet has no room for {bytes} behind its headers")
    } else if last == HEADERS {
        format!(in alloc; "write 12: it has {bytes}")
    } else {
        format!(in alloc; "write 12 to {last}: it has {bytes}")
    }
}

/// The message about a field that isn't inside its packet.
fn outside_said(
    alloc: Global,
    line: &[u8],
    kind: FieldType,
    offset: Word<'_>,
) -> Result<LineMessage, AllocError> {
    let (place, width) = (decimal_number(offset.text), kind.width() as u64);
    let size = size_of(line);
    let head = if place.is_some_and(|place| place < HEADERS) {
        "the field begins in the headers of its packet"
    } else {
        "the field extends past the end of its packet"
    };
    let head = String::from_str(alloc, head)?;
    let label = inside_advice(alloc, width, size)?;
    let length = format!(in alloc; "the packet has {size} bytes")?;
    Ok(LineMessage {
        head,
        first: mark_word(offset, label),
        other: Some(mark_word(nth_word(line, LENGTH), length)),
    })
}

/// The message about a field of this type that isn't inside its packet, or whose value is outside the type. None if neither is so.
fn placed_said(
    alloc: Global,
    line: &[u8],
    kind: FieldType,
    offset: Word<'_>,
    value: Word<'_>,
) -> Result<Option<LineMessage>, AllocError> {
    let place = decimal_number(offset.text).unwrap_or(0);
    if !is_inside(kind.width() as u64, place, size_of(line)) {
        return Ok(Some(outside_said(alloc, line, kind, offset)?));
    }
    if !is_value(kind, value.text) {
        return Ok(Some(value_said(alloc, kind, value)?));
    }
    Ok(None)
}

/// The message about a field with these three words, if it is invalid.
fn field_said(
    alloc: Global,
    line: &[u8],
    kind: Word<'_>,
    offset: Word<'_>,
    value: Word<'_>,
) -> Result<Option<LineMessage>, AllocError> {
    let Some(named) = FieldType::from_word(kind.text) else {
        return Ok(Some(word_said(alloc, TYPE, kind)?));
    };
    if !is_right(OFFSET, offset) {
        return Ok(Some(word_said(alloc, OFFSET, offset)?));
    }
    placed_said(alloc, line, named, offset, value)
}

/// The message about the first invalid field of the line, if there is one. Error: out of memory.
pub fn fields_said(alloc: Global, line: &[u8]) -> Result<Option<LineMessage>, AllocError> {
    let mut from = nth_word(line, LENGTH).end();
    for _ in 0..line.len() {
        let kind = word_behind(line, from);
        if kind.is_end() {
            return Ok(None);
        }
        let offset = word_behind(line, kind.end());
        let value = word_behind(line, offset.end());
        let found = field_said(alloc, line, kind, offset, value)?;
        if found.is_some() {
            return Ok(found);
        }
        from = value.end();
    }
    Ok(None)
}
