//! Messages about a line whose words are valid one by one, but not together.

use crate::said::{LineMessage, advise, said_of};
use crate::word::{Word, nth_word};
use diagnostics::Grouped;
use std::alloc::{AllocError, Global};

/// The number of bytes that a word writes.
fn byte_count(word: Word<'_>) -> usize {
    match word.text {
        b"-" => 0,
        digits => digits.len() / 2,
    }
}

/// The message about a packet or record, as `what` says, of these bytes after `before` others: it has more than `most` bytes in all.
fn too_long(
    alloc: Global,
    what: &str,
    bytes: Word<'_>,
    before: usize,
    most: usize,
) -> Result<LineMessage, AllocError> {
    let count = byte_count(bytes).saturating_add(before);
    let over = Grouped(count.saturating_sub(most) as u64);
    let (count, most) = (Grouped(count as u64), Grouped(most as u64));
    let head = format!(in alloc; "the {what} has {count} bytes, at most {most} are allowed")?;
    let label = format!(in alloc; "shorten it by {over}")?;
    Ok(said_of(bytes, head, label))
}

/// The message about a record whose kind can't have its bytes.
fn record_said(alloc: Global, kind: Word<'_>, bytes: Word<'_>) -> Result<LineMessage, AllocError> {
    let (head, advice) = match kind.text {
        b"tick" => ("a tick has no bytes", "write `-`"),
        b"half" => (
            "these are no half of a rule text",
            "write 43 bytes: a name in 40, 01 or 02, and the number of a text in 2",
        ),
        b"file" if byte_count(bytes) < 40 => (
            "a file begins with its name, in 40 bytes",
            "write 00 in the place of each byte that the name doesn't have",
        ),
        _ => return too_long(alloc, "record", bytes, 0, 65_536),
    };
    advise(alloc, bytes, String::from_str(alloc, head)?, advice)
}

/// The message about a line after whose seconds time would go beyond the last moment. Error: out of memory.
pub fn late_said(alloc: Global, seconds: Word<'_>) -> Result<LineMessage, AllocError> {
    let head = String::from_str(alloc, "moments end at second 4,294,967,295")?;
    advise(alloc, seconds, head, "this goes on behind it: write less")
}

/// The message about a line whose words are valid one by one, but make no record. Error: out of memory.
pub fn body_said(alloc: Global, line: &[u8]) -> Result<LineMessage, AllocError> {
    let verb = nth_word(line, 0);
    match verb.text {
        b"packet" => too_long(alloc, "packet", nth_word(line, 1), 0, 65_536),
        b"file" => too_long(alloc, "record", nth_word(line, 2), 40, 65_536),
        b"telemetry" => too_long(alloc, "packet", nth_word(line, 3), 12, 2_048),
        b"command" => too_long(alloc, "packet", nth_word(line, 3), 8, 2_048),
        b"after" => late_said(alloc, nth_word(line, 1)),
        _ => record_said(alloc, nth_word(line, 3), nth_word(line, 4)),
    }
}
