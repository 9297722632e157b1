//! What to do about a place of a text: the words for it, and the edit that does it. Where the words name what is to be written, both are
//! made of the same bytes.

use crate::bytes::{is_word_byte, part};
use diagnostics::{Edit, around, behind, front};
use std::alloc::{AllocError, Global};
use std::str;

/// What to do about a place of a text.
#[derive(Drop)]
pub struct Advice {
    /// What to do, in words.
    pub label: String,
    /// The change that does it, if one change does it.
    pub edit: Option<Edit>,
}

/// The bytes of a text from one place to another.
#[derive(Clone, Copy)]
pub struct ByteSpan {
    /// Bytes of the text before the first of them.
    pub from: usize,
    /// Bytes of the text up to the last of them.
    pub to: usize,
}

impl ByteSpan {
    /// This many bytes at this place.
    pub fn new(at: usize, size: usize) -> ByteSpan {
        ByteSpan {
            from: at,
            to: at.saturating_add(size),
        }
    }

    /// These bytes of the text.
    fn of(self, text: &[u8]) -> &[u8] {
        part(text, self.from, self.to.saturating_sub(self.from))
    }

    /// Whether letters, digits or `_` stand directly before and after these bytes, so that without them two words would become one.
    pub fn parts_words(self, text: &[u8]) -> bool {
        match (front(text, self.from).last(), behind(text, self.to).first()) {
            (Some(before), Some(after)) => is_word_byte(*before) && is_word_byte(*after),
            _ => false,
        }
    }

    /// These bytes with the blanks before them on their line.
    pub fn with_blanks(self, text: &[u8]) -> ByteSpan {
        let blanks = front(text, self.from)
            .iter()
            .rev()
            .take_while(|byte| matches!(**byte, b' ' | b'\t'))
            .count();
        ByteSpan {
            from: self.from.saturating_sub(blanks),
            to: self.to,
        }
    }
}

/// The change of these bytes; `None` if the new ones aren't UTF-8.
fn change(alloc: Global, old: ByteSpan, new: &[u8]) -> Result<Option<Edit>, AllocError> {
    match str::from_utf8(new) {
        Ok(text) => Ok(Some(Edit {
            from: old.from,
            to: old.to,
            text: String::from_str(alloc, text)?,
        })),
        Err(_) => Ok(None),
    }
}

/// Whether a word beside this byte needs a blank between them.
fn needs_blank(byte: Option<&u8>) -> bool {
    match byte {
        Some(byte) => !byte.is_ascii_whitespace() && !matches!(*byte, b'(' | b')' | b';'),
        None => false,
    }
}

/// The word, with a blank where it would touch what stands before or after the bytes that it replaces.
fn with_room(
    alloc: Global,
    text: &[u8],
    old: ByteSpan,
    word: &[u8],
) -> Result<Vec<u8>, AllocError> {
    let mut new = Vec::new(alloc);
    if needs_blank(front(text, old.from).last()) {
        new.push(b' ')?;
    }
    new.extend_from_slice(word)?;
    if needs_blank(behind(text, old.to).first()) {
        new.push(b' ')?;
    }
    Ok(new)
}

impl Advice {
    /// What to do, in words only.
    pub fn words(label: String) -> Advice {
        Advice { label, edit: None }
    }

    /// What to do, in these words only.
    pub fn plain(alloc: Global, label: &str) -> Result<Advice, AllocError> {
        Ok(Advice::words(String::from_str(alloc, label)?))
    }

    /// To write new bytes in the place of old ones, for a reason that the label gives.
    pub fn change(
        alloc: Global,
        old: ByteSpan,
        new: &[u8],
        label: &str,
    ) -> Result<Advice, AllocError> {
        Ok(Advice {
            label: String::from_str(alloc, label)?,
            edit: change(alloc, old, new)?,
        })
    }

    /// To leave out tokens, with the blanks before them.
    pub fn leave_out(
        alloc: Global,
        text: &[u8],
        old: ByteSpan,
        label: &str,
    ) -> Result<Advice, AllocError> {
        Advice::change(alloc, old.with_blanks(text), b"", label)
    }

    /// To write new bytes in the place of old ones: the label quotes them between these words.
    pub fn instead(
        alloc: Global,
        old: ByteSpan,
        before: &str,
        new: &[u8],
        after: &str,
    ) -> Result<Advice, AllocError> {
        Ok(Advice {
            label: around(alloc, before, new, after)?,
            edit: change(alloc, old, new)?,
        })
    }

    /// To write the bytes that were probably meant in the place of old ones.
    pub fn meant(alloc: Global, old: ByteSpan, new: &[u8]) -> Result<Advice, AllocError> {
        Advice::instead(alloc, old, "did you mean ", new, "?")
    }

    /// To write a word in the place of old bytes, parted from what stands beside them: the label quotes it between these words.
    pub fn word_instead(
        alloc: Global,
        text: &[u8],
        old: ByteSpan,
        before: &str,
        word: &[u8],
        after: &str,
    ) -> Result<Advice, AllocError> {
        let new = with_room(alloc, text, old, word)?;
        Ok(Advice {
            label: around(alloc, before, word, after)?,
            edit: change(alloc, old, new.as_slice())?,
        })
    }

    /// To write the last of two parts of a text before the first. No edit if more than blanks stands between them, as a comment.
    pub fn exchange(
        alloc: Global,
        text: &[u8],
        first: ByteSpan,
        last: ByteSpan,
        label: String,
    ) -> Result<Advice, AllocError> {
        let between = part(text, first.to, last.from.saturating_sub(first.to));
        if !between.trim_ascii().is_empty() {
            return Ok(Advice::words(label));
        }
        let blank: &[u8] = b" ";
        let mut new = Vec::from_slice(alloc, last.of(text))?;
        new.extend_from_slice(if between.is_empty() { blank } else { between })?;
        new.extend_from_slice(first.of(text))?;
        let whole = ByteSpan {
            from: first.from,
            to: last.to,
        };
        Ok(Advice {
            label,
            edit: change(alloc, whole, new.as_slice())?,
        })
    }
}
