//! Messages about a line.

ghost use Rattle.std.specs.Prelude.{◌≡◌, ◌<◌, ◌≤◌, ◌+◌, ◌^◌, ℕ, List, length, IfOk};
ghost use Rattle.script_errors.specs.Line.{IsLine};
ghost use Rattle.script_errors.specs.Telling.{IsOn};

use crate::line::Line;
use crate::word::Word;
use diagnostics::{Mark, Message, nearest, quote};
use std::alloc::{AllocError, Global};

/// The advice for a word that begins with a byte order mark, as some editors write it in front of a text.
pub const MARK_ADVICE: &str = "remove the byte order mark (U+FEFF) in front of it";

/// A message about a line. Its places count from the line's first byte.
#[derive(Drop)]
pub struct LineMessage {
    /// What is wrong, in one sentence.
    pub head: String,
    /// The word that is wrong, with advice.
    pub first: Mark,
    /// Another word of the line that matters, with a label, if there is one.
    pub other: Option<Mark>,
}

/// Marks a word, with a label.
pub fn mark_word(word: Word<'_>, label: String) -> Mark {
    Mark {
        at: word.at,
        size: word.text.len(),
        label,
    }
}

/// A message about a word, with a label.
pub fn said_of(word: Word<'_>, head: String, label: String) -> LineMessage {
    LineMessage {
        head,
        first: mark_word(word, label),
        other: None,
    }
}

/// A message about a word, with advice. Error: out of memory.
pub fn advise(
    alloc: Global,
    word: Word<'_>,
    head: String,
    advice: &str,
) -> Result<LineMessage, AllocError> {
    Ok(said_of(word, head, String::from_str(alloc, advice)?))
}

/// The message that another word is expected, with advice. Error: out of memory.
pub fn expect_word(
    alloc: Global,
    word: Word<'_>,
    wanted: &str,
    advice: &str,
) -> Result<LineMessage, AllocError> {
    let found = word.quote(alloc)?;
    let head = format!(in alloc; "expected {wanted}, found {found}")?;
    advise(alloc, word, head, advice)
}

/// The same if one of these words is expected: it suggests the most similar one, or else gives the advice. Error: out of memory.
pub fn expected_word(
    alloc: Global,
    word: Word<'_>,
    words: &[&[u8]],
    wanted: &str,
    advice: &str,
) -> Result<LineMessage, AllocError> {
    let Some(meant) = nearest(alloc, word.text, words)? else {
        return expect_word(alloc, word, wanted, advice);
    };
    let meant = quote(alloc, meant)?;
    let label = format!(in alloc; "did you mean {meant}?")?;
    expect_word(alloc, word, wanted, label.as_str())
}

/// The message about a word too many. Error: out of memory.
pub fn too_many(alloc: Global, word: Word<'_>) -> Result<LineMessage, AllocError> {
    let advice = if word.text.starts_with(b"#") {
        "a comment has a line of its own"
    } else {
        "leave it out"
    };
    expect_word(alloc, word, "the end of the line", advice)
}

/// The same mark, with its place counted from the text's first byte. A place after the line's end becomes its end.
fn place_mark(line: Line<'_>, mark: Mark) -> Mark
    requires { line.begin + length line.bytes.now < 2 ^ 63 }
    ensures from { line.entry.begin ≤ result.at }
    ensures to { result.at ≤ line.entry.begin + length line.entry.bytes.now }
{
    let Mark { at, size, label } = mark;
    Mark {
        at: line.begin + at.min(line.bytes.len()),
        size,
        label,
    }
}

/// The same for a mark that may be missing.
fn placed_too(line: Line<'_>, mark: Option<Mark>) -> Option<Mark>
    requires { line.begin + length line.bytes.now < 2 ^ 63 }
{
    match mark {
        Some(mark) => Some(place_mark(line, mark)),
        None => None,
    }
}

/// The message about a line, with this number and with places in the text. Error: out of memory.
pub fn message_on(
    alloc: Global,
    line: Line<'_>,
    code: u8,
    said: LineMessage,
) -> Result<Message, AllocError>
    requires { line.begin + length line.bytes.now < 2 ^ 63 }
    ensures { (text : List ℕ) (number : ℕ) → 1 ≤ number → IsLine text number line.entry →
        IfOk result (IsOn text code number) }
{
    let LineMessage { head, first, other } = said;
    let message = Message::at(alloc, code, head, place_mark(line, first));
    message.with(placed_too(line, other))
}

/// A message with this number at a text's end. Error: out of memory.
pub fn message_at_end(
    alloc: Global,
    text: &[u8],
    code: u8,
    head: &str,
    label: &str,
) -> Result<Message, AllocError>
    ensures { IfOk result (IsOn text.now code 0) }
{
    let head = String::from_str(alloc, head)?;
    let mark = Mark {
        at: text.len(),
        size: 0,
        label: String::from_str(alloc, label)?,
    };
    Ok(Message::at(alloc, code, head, mark))
}
