//! All tokens of a text that has bad ones.

use crate::bytes::part;
use crate::token_faults::{bad_size, place};
use diagnostics::behind;
use rule_lexer::{LexError, lex};
use std::alloc::{AllocError, Global};

/// A text with blanks in the place of each bad token.
#[derive(Drop)]
pub struct Mended {
    /// The text with the blanks; it has the size of the original.
    pub text: Vec<u8>,
    /// The errors of the bad tokens, each with its place in the text.
    pub errors: Vec<LexError>,
}

/// The error with its place moved by `by` bytes.
fn shift_error(error: LexError, by: usize) -> LexError {
    match error {
        LexError::BadByte { at } => LexError::BadByte {
            at: at.saturating_add(by),
        },
        LexError::BadNumber { at } => LexError::BadNumber {
            at: at.saturating_add(by),
        },
        LexError::NameTooLong { at } => LexError::NameTooLong {
            at: at.saturating_add(by),
        },
        LexError::BadString { at } => LexError::BadString {
            at: at.saturating_add(by),
        },
        other => other,
    }
}

/// Puts blanks in the place of `size` bytes from `at` on. Line feeds stay.
pub fn blank(text: &mut [u8], at: usize, size: usize) {
    let to = at.saturating_add(size).min(text.len());
    let from = at.min(to);
    for byte in text[from..to].iter_mut() {
        if *byte != b'\n' {
            *byte = b' ';
        }
    }
}

/// Whether the error is one of a quoted text.
fn is_of_text(error: LexError) -> bool {
    matches!(error, LexError::BadString { .. })
}

/// Whether no line ends between two places.
fn are_on_one_line(text: &[u8], before: usize, at: usize) -> bool {
    !part(text, before, at.saturating_sub(before)).contains(&b'\n')
}

/// An error, with what matters to the errors after it.
#[derive(Clone, Copy)]
struct Before {
    error: LexError,
    /// Whether it, or an earlier error on its line, is of a quoted text.
    has_text: bool,
    /// Whether it may follow from an earlier error on its line.
    follows: bool,
}

/// Whether an error may follow from an earlier one on its line: it touches that one, or one of the two is of a quoted text, so that a
/// closing quote may have been read as an opening one. Bad tokens don't overlap, so it can only touch the last one.
fn follows(text: &[u8], before: Before, error: LexError) -> bool {
    let end = place(before.error).saturating_add(bad_size(text, before.error));
    before.has_text || is_of_text(error) || end == place(error)
}

/// An error after the last one before it.
fn next(text: &[u8], last: Option<Before>, error: LexError) -> Before {
    match last {
        Some(before) if are_on_one_line(text, place(before.error), place(error)) => Before {
            error,
            has_text: before.has_text || is_of_text(error),
            follows: follows(text, before, error),
        },
        _ => Before {
            error,
            has_text: is_of_text(error),
            follows: false,
        },
    }
}

/// The errors of a text, in the order of their places, that don't follow from an earlier one. Each byte is read only a few times, however
/// many errors a line has.
pub fn own_errors(
    alloc: Global,
    text: &[u8],
    errors: &[LexError],
) -> Result<Vec<LexError>, AllocError> {
    let mut own = Vec::new(alloc);
    let mut last = None;
    for error in errors {
        let found = next(text, last, *error);
        if !found.follows {
            own.push(*error)?;
        }
        last = Some(found);
    }
    Ok(own)
}

/// Whether the bytes contain a word.
fn has_word(bytes: &[u8], word: &[u8]) -> bool {
    for at in 0..bytes.len() {
        if behind(bytes, at).starts_with(word) {
            return true;
        }
    }
    false
}

/// Whether a bad quoted text may hide the declaration of a packet or a field.
pub fn hides_items(text: &[u8], error: LexError) -> bool {
    let hidden = part(text, place(error), bad_size(text, error));
    is_of_text(error) && (has_word(hidden, b"packet") || has_word(hidden, b"field"))
}

/// The first error from byte `from` of a text on; `None` if the rest is valid tokens.
fn next_error(alloc: Global, text: &[u8], from: usize) -> Result<Option<LexError>, AllocError> {
    match lex(alloc, behind(text, from)) {
        Ok(_) => Ok(None),
        Err(LexError::Memory) => Err(AllocError),
        Err(error) => Ok(Some(shift_error(error, from))),
    }
}

/// Puts blanks in the place of all bad tokens.
pub fn mend(alloc: Global, text: &[u8]) -> Result<Mended, AllocError> {
    let mut mended = Vec::from_slice(alloc, text)?;
    let mut errors = Vec::new(alloc);
    let mut from = 0usize;
    for _ in 0..text.len() {
        let Some(error) = next_error(alloc, text, from)? else {
            break;
        };
        errors.push(error)?;
        let size = bad_size(text, error);
        blank(mended.as_mut_slice(), place(error), size);
        from = place(error).saturating_add(size);
    }
    Ok(Mended {
        text: mended,
        errors,
    })
}
