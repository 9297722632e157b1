//! Messages about the words that a line has to have, one after the other.

use crate::argument::{is_right, word_said};
use crate::said::{LineMessage, too_many};
use crate::statement::Wanted;
use crate::word::nth_word;
use std::alloc::{AllocError, Global};

/// The message about the first of these words that is missing or doesn't have its required shape, if there is one. `first` is the number of
/// the first of them.
pub fn wrong_said(
    alloc: Global,
    line: &[u8],
    first: usize,
    wanted: &[Wanted],
) -> Result<Option<LineMessage>, AllocError> {
    let mut number = first;
    for one in wanted {
        let found = nth_word(line, number);
        if !is_right(*one, found) {
            return Ok(Some(word_said(alloc, *one, found)?));
        }
        number = number.saturating_add(1);
    }
    Ok(None)
}

/// The message about a word with this number, which is one too many, if there is one.
pub fn surplus_said(
    alloc: Global,
    line: &[u8],
    number: usize,
) -> Result<Option<LineMessage>, AllocError> {
    let behind = nth_word(line, number);
    if behind.is_end() {
        return Ok(None);
    }
    Ok(Some(too_many(alloc, behind)?))
}

/// The message about the words from this number on: the first that is missing or doesn't have its required shape, else one too many. None if
/// they are exactly these words.
pub fn wanted_said(
    alloc: Global,
    line: &[u8],
    first: usize,
    wanted: &[Wanted],
) -> Result<Option<LineMessage>, AllocError> {
    if let Some(said) = wrong_said(alloc, line, first, wanted)? {
        return Ok(Some(said));
    }
    surplus_said(alloc, line, first.saturating_add(wanted.len()))
}
