//! Words of a line.

use diagnostics::quote;
use std::alloc::{AllocError, Global};
use text_lines::{first_word, is_blank};

/// The most bytes of a word that a message shows.
const MOST_SHOWN: usize = 40;

/// How many bytes of a longer word are shown, before the dots.
const SHOWN: usize = 37;

const DOTS: &[u8] = b"...";

/// A word, or the line's end, which has no bytes.
#[derive(Clone, Copy)]
pub struct Word<'a> {
    /// The number of bytes of the line before it.
    pub at: usize,
    /// Its bytes.
    pub text: &'a [u8],
}

/// The place after the line's last word.
fn line_end(line: &[u8]) -> usize {
    let blanks = line
        .iter()
        .rev()
        .take_while(|byte| is_blank(**byte))
        .count();
    line.len().saturating_sub(blanks)
}

impl<'a> Word<'a> {
    /// Whether this is the line's end, and not a word.
    pub fn is_end(self) -> bool {
        self.text.is_empty()
    }

    /// Whether it begins with the byte order mark of UTF-8 (Unicode standard, section 23.8).
    pub fn has_order_mark(self) -> bool {
        matches!(self.text, [0xEF, 0xBB, 0xBF, ..])
    }

    /// The number of bytes of the line up to the word's end.
    pub fn end(self) -> usize {
        self.at.saturating_add(self.text.len())
    }

    /// The word as a message shows it: quoted, and cut after 37 bytes if it has over 40.
    pub fn quote(self, alloc: Global) -> Result<String, AllocError> {
        if self.is_end() {
            return String::from_str(alloc, "the end of the line");
        }
        if self.text.len() <= MOST_SHOWN {
            return quote(alloc, self.text);
        }
        let mut cut = Vec::from_slice(alloc, self.text.split_at(SHOWN).0)?;
        cut.extend_from_slice(DOTS)?;
        quote(alloc, cut.as_slice())
    }
}

/// The first word of the line from this byte on, or the line's end.
pub fn word_behind(line: &[u8], from: usize) -> Word<'_> {
    let rest = line.split_at(from.min(line.len())).1;
    match first_word(rest) {
        Some((text, behind)) => Word {
            at: line
                .len()
                .saturating_sub(behind.len())
                .saturating_sub(text.len()),
            text,
        },
        None => Word {
            at: line_end(line),
            text: b"",
        },
    }
}

/// The line without its comment, which begins with the first word that has `#` in front.
pub fn before_comment(line: &[u8]) -> &[u8] {
    let mut from = 0;
    for _ in 0..line.len() {
        let word = word_behind(line, from);
        if word.is_end() {
            return line;
        }
        if word.text.starts_with(b"#") {
            return line.split_at(word.at.min(line.len())).0;
        }
        from = word.end();
    }
    line
}

/// The word with this number, from 0, or the line's end.
pub fn nth_word(line: &[u8], number: usize) -> Word<'_> {
    let mut from = 0;
    for _ in 0..number {
        from = word_behind(line, from).end();
    }
    word_behind(line, from)
}

/// Whether the word is one or more decimal digits.
pub fn are_digits(word: &[u8]) -> bool {
    !word.is_empty() && word.iter().all(|byte| byte.is_ascii_digit())
}
