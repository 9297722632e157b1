//! Messages, as they are printed.

use crate::excerpt::{Excerpt, excerpt_of};
use crate::grouped::Many;
use crate::message::{Mark, Message};
use crate::place::place_of;
use std::alloc::{AllocError, Global};

/// The most messages that are shown.
const MOST_SHOWN: usize = 10;

/// The most faults that are counted; a message more means that there are more.
pub const MOST_TOLD: usize = 100;

/// The least columns of a line's number.
const NUMBER_COLUMNS: usize = 3;

/// Adds a character this many times.
fn push_many(page: &mut String, character: char, count: usize) -> Result<(), AllocError> {
    for _ in 0..count {
        page.push(character)?;
    }
    Ok(())
}

/// How many columns there are without the blanks at the end.
fn used_columns(columns: &[char]) -> usize {
    let blanks = columns
        .iter()
        .rev()
        .take_while(|column| **column == ' ')
        .count();
    columns.len().saturating_sub(blanks)
}

/// How many digits a line's number has. A text that has marks has at most 65,537 lines.
fn digits(number: usize) -> usize {
    match number {
        0..=9 => 1,
        10..=99 => 2,
        100..=999 => 3,
        1_000..=9_999 => 4,
        _ => 5,
    }
}

/// A line of the text, with its number.
fn push_text(
    alloc: Global,
    page: &mut String,
    width: usize,
    excerpt: &Excerpt,
) -> Result<(), AllocError> {
    let number = excerpt.line;
    push_many(page, ' ', width.saturating_sub(digits(number)))?;
    let number = format!(in alloc; "{number}")?;
    page.push_str(number.as_str())?;
    page.push_str(" |")?;
    let used = used_columns(excerpt.columns.as_slice());
    if used > 0 {
        page.push(' ')?;
    }
    for column in excerpt.columns.iter().take(used) {
        page.push(*column)?;
    }
    page.push('\n')?;
    Ok(())
}

/// A line of marks, with its label.
fn push_marks(
    page: &mut String,
    width: usize,
    excerpt: &Excerpt,
    sign: char,
    label: &str,
) -> Result<(), AllocError> {
    push_many(page, ' ', width)?;
    page.push_str(" | ")?;
    push_many(page, ' ', excerpt.from)?;
    push_many(page, sign, excerpt.marks)?;
    page.push(' ')?;
    page.push_str(label)?;
    page.push('\n')?;
    Ok(())
}

/// The excerpt for a mark.
fn excerpt(alloc: Global, text: &[u8], mark: &Mark) -> Result<Excerpt, AllocError> {
    excerpt_of(alloc, text, mark.at.min(text.len()), mark.size)
}

/// Whether a mark can stand under the same line as the one before.
fn shares(before: &Option<Excerpt>, excerpt: &Excerpt) -> bool {
    match before {
        Some(before) => before.line == excerpt.line && !excerpt.is_cut,
        None => false,
    }
}

/// The line's number with the most digits.
fn number_width(message: &Message, text: &[u8]) -> usize {
    let mut width = NUMBER_COLUMNS;
    if let Some(mark) = &message.first {
        width = width.max(digits(place_of(text, mark.at.min(text.len())).line));
    }
    for mark in &message.others {
        width = width.max(digits(place_of(text, mark.at.min(text.len())).line));
    }
    width
}

/// The excerpts of a message.
fn push_excerpts(
    alloc: Global,
    page: &mut String,
    text: &[u8],
    message: &Message,
) -> Result<(), AllocError> {
    let width = number_width(message, text);
    let mut before = None;
    if let Some(mark) = &message.first {
        let excerpt = excerpt(alloc, text, mark)?;
        push_text(alloc, page, width, &excerpt)?;
        push_marks(page, width, &excerpt, '^', mark.label.as_str())?;
        before = Some(excerpt);
    }
    for mark in &message.others {
        let excerpt = excerpt(alloc, text, mark)?;
        if !shares(&before, &excerpt) {
            push_text(alloc, page, width, &excerpt)?;
        }
        push_marks(page, width, &excerpt, '-', mark.label.as_str())?;
        before = Some(excerpt);
    }
    Ok(())
}

/// Where a message points, after the file's name: its line and column, if it has a place.
fn push_place(
    alloc: Global,
    page: &mut String,
    text: &[u8],
    mark: &Option<Mark>,
) -> Result<(), AllocError> {
    let Some(mark) = mark else {
        return Ok(());
    };
    let place = place_of(text, mark.at.min(text.len()));
    let line = place.line;
    let column = place.column;
    let place = format!(in alloc; ":{line}:{column}")?;
    page.push_str(place.as_str())
}

/// What a message is: an error with its number, or a warning with its name.
fn kind_of(alloc: Global, message: &Message) -> Result<String, AllocError> {
    match message.warning {
        Some(name) => format!(in alloc; ": warning[{name}]: "),
        None => {
            let code = message.code;
            format!(in alloc; ": error[{code}]: ")
        }
    }
}

/// The head line of a message.
fn push_head(
    alloc: Global,
    page: &mut String,
    name: &str,
    text: &[u8],
    message: &Message,
) -> Result<(), AllocError> {
    page.push_str(name)?;
    push_place(alloc, page, text, &message.first)?;
    let kind = kind_of(alloc, message)?;
    page.push_str(kind.as_str())?;
    page.push_str(message.head.as_str())?;
    page.push_str("\n")
}

/// A message, and an empty line.
fn push_message(
    alloc: Global,
    page: &mut String,
    name: &str,
    text: &[u8],
    message: &Message,
) -> Result<(), AllocError> {
    push_head(alloc, page, name, text, message)?;
    push_excerpts(alloc, page, text, message)?;
    page.push_str("\n")
}

/// The last line, which counts all messages.
fn count_line(alloc: Global, count: usize) -> Result<String, AllocError> {
    let many = Many(count.min(MOST_TOLD), "error");
    if count > MOST_TOLD {
        format!(in alloc; "over {many}, the first {MOST_SHOWN} shown\n")
    } else if count > MOST_SHOWN {
        format!(in alloc; "{many}, the first {MOST_SHOWN} shown\n")
    } else {
        format!(in alloc; "{many}\n")
    }
}

/// The messages of a text in a file of this name, as they are printed: the first ten, and how many there are.
pub fn page_of(
    alloc: Global,
    name: &str,
    text: &[u8],
    messages: &[Message],
) -> Result<String, AllocError> {
    let mut page = String::new(alloc);
    for message in messages.iter().take(MOST_SHOWN) {
        push_message(alloc, &mut page, name, text, message)?;
    }
    let last = count_line(alloc, messages.len())?;
    page.push_str(last.as_str())?;
    Ok(page)
}

/// The warnings of a text in a file of this name, as they are printed: all.
pub fn warnings_page_of(
    alloc: Global,
    name: &str,
    text: &[u8],
    warnings: &[Message],
) -> Result<String, AllocError> {
    let mut page = String::new(alloc);
    for warning in warnings {
        push_message(alloc, &mut page, name, text, warning)?;
    }
    Ok(page)
}
