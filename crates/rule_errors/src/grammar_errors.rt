//! The errors of grammar, item by item.

use crate::bytes::part;
use crate::source::{Source, TokenRange, begins_item};
use crate::token_faults::place;
use crate::wanted::ITEM_WORDS;
use diagnostics::nearest;
use rule_lexer::{LexError, TokenKind, lex};
use rule_parser::{ParseError, parse};
use std::alloc::{AllocError, Global};

/// The place after an item's last token.
fn end_of(source: &Source<'_>, item: TokenRange) -> usize {
    match source.token(item.to.saturating_sub(1)) {
        Some(token) => token.at.saturating_add(token.text.len()),
        None => source.text.len(),
    }
}

/// The place of an item's first token.
fn begin_of(source: &Source<'_>, item: TokenRange) -> usize {
    match source.token(item.from) {
        Some(token) => token.at,
        None => source.text.len(),
    }
}

/// The place from which tokens may belong to an item: its first word; without one, the last token of the item before it, or 0.
fn reach_of(source: &Source<'_>, item: TokenRange) -> usize {
    match source.token(item.from) {
        Some(first) if begins_item(first.kind) => first.at,
        _ => match source.token_before(item.from) {
            Some(before) => before.at,
            None => 0,
        },
    }
}

/// The place at which an item ends: before its `;`, or at the next item's first token.
fn reach_end(source: &Source<'_>, item: TokenRange) -> usize {
    match source.token(item.to.saturating_sub(1)) {
        Some(token) if token.kind == TokenKind::Semicolon => token.at,
        _ => next_place(source, item),
    }
}

/// The errors from this place on.
fn errors_from(errors: &[LexError], begin: usize) -> &[LexError] {
    let count = errors
        .iter()
        .take_while(|error| place(**error) < begin)
        .count();
    if count < errors.len() {
        &errors[count..]
    } else {
        &[]
    }
}

/// Whether the first of these errors is in the item. They are those from the item on, in the order of their places.
fn has_bad_token(source: &Source<'_>, item: TokenRange, errors: &[LexError]) -> bool {
    let end = reach_end(source, item);
    match errors.first() {
        Some(error) => place(*error) < end,
        None => false,
    }
}

/// The place of the first token after an item, or the text's end.
fn next_place(source: &Source<'_>, item: TokenRange) -> usize {
    match source.token(item.to) {
        Some(token) => token.at,
        None => source.text.len(),
    }
}

/// The place in the whole text of an error at this place of an item. After the item's last token it is that of the next token, or the
/// text's end.
fn place_in_text(source: &Source<'_>, item: TokenRange, size: usize, at: usize) -> usize {
    if at < size {
        begin_of(source, item).saturating_add(at)
    } else {
        next_place(source, item)
    }
}

/// The error of an item of `size` bytes, with its place in the whole text.
fn error_in_text(
    source: &Source<'_>,
    item: TokenRange,
    size: usize,
    error: ParseError,
) -> ParseError {
    match error {
        ParseError::Expected { at, what } => ParseError::Expected {
            at: place_in_text(source, item, size, at),
            what,
        },
        ParseError::TooNested { at } => ParseError::TooNested {
            at: place_in_text(source, item, size, at),
        },
        ParseError::Memory => ParseError::Memory,
    }
}

/// The error of an item's grammar.
fn grammar_error(
    alloc: Global,
    source: &Source<'_>,
    clean: &[u8],
    item: TokenRange,
) -> Result<Option<ParseError>, AllocError> {
    let begin = begin_of(source, item);
    let text = part(clean, begin, end_of(source, item).saturating_sub(begin));
    let Ok(tokens) = lex(alloc, text) else {
        return Ok(None);
    };
    match parse(alloc, text, tokens.as_slice()) {
        Ok(_) => Ok(None),
        Err(ParseError::Memory) => Err(AllocError),
        Err(error) => Ok(Some(error_in_text(source, item, text.len(), error))),
    }
}

/// The errors of grammar, and which items are whole.
#[derive(Drop)]
pub struct Grammar {
    /// The errors, in the order of their places.
    pub errors: Vec<ParseError>,
    /// For each item whether it is whole: no bad token and no error of grammar.
    pub whole: Vec<bool>,
}

/// The errors of an item, or of items that continue each other.
#[derive(Clone, Copy)]
struct ItemErrors {
    /// Whether it has a bad token.
    is_bad: bool,
    /// The error of its grammar.
    error: Option<ParseError>,
}

/// No errors.
const NOTHING: ItemErrors = ItemErrors {
    is_bad: false,
    error: None,
};

impl ItemErrors {
    /// The errors of these items and the next, if the next may continue the one before it: their errors may follow from one another.
    fn with(self, next: ItemErrors) -> ItemErrors {
        ItemErrors {
            is_bad: self.is_bad || next.is_bad,
            error: self.error.or(next.error),
        }
    }

    /// The error that is reported: the first, or `None` if there are bad tokens.
    fn first_error(self) -> Option<ParseError> {
        if self.is_bad { None } else { self.error }
    }

    /// Whether there is neither a bad token nor an error.
    fn is_whole(self) -> bool {
        !self.is_bad && self.error.is_none()
    }
}

/// The errors of an item; its grammar is read only if it has no bad token.
fn read_item(
    alloc: Global,
    source: &Source<'_>,
    clean: &[u8],
    item: TokenRange,
    is_bad: bool,
) -> Result<ItemErrors, AllocError> {
    let error = if is_bad {
        None
    } else {
        grammar_error(alloc, source, clean, item)?
    };
    Ok(ItemErrors { is_bad, error })
}

impl Grammar {
    /// Adds the error that is reported for some items.
    fn close(&mut self, items: ItemErrors) -> Result<(), AllocError> {
        if let Some(error) = items.first_error() {
            self.errors.push(error)?;
        }
        Ok(())
    }

    /// Adds an item. Returns the errors of the items that belong together with it, from those before it.
    fn add(
        &mut self,
        before: ItemErrors,
        item: ItemErrors,
        goes_on: bool,
    ) -> Result<ItemErrors, AllocError> {
        self.whole.push(item.is_whole())?;
        if goes_on {
            return Ok(before.with(item));
        }
        self.close(before)?;
        Ok(item)
    }
}

/// The errors of grammar of all items. The errors of tokens are in the order of their places.
pub fn read_items(
    alloc: Global,
    source: &Source<'_>,
    clean: &[u8],
    bad: &[LexError],
) -> Result<Grammar, AllocError> {
    let mut grammar = Grammar {
        errors: Vec::new(alloc),
        whole: Vec::new(alloc),
    };
    let mut group = NOTHING;
    let mut is_bad_before = false;
    let mut left = bad;
    for item in &source.parts {
        left = errors_from(left, reach_of(source, *item));
        let is_bad = has_bad_token(source, *item, left);
        let found = read_item(alloc, source, clean, *item, is_bad)?;
        let goes_on = goes_on(alloc, source, *item, is_bad_before)?;
        group = grammar.add(group, found, goes_on)?;
        is_bad_before = is_bad;
    }
    grammar.close(group)?;
    Ok(grammar)
}

/// Whether an item may continue the one before it: its first token wasn't meant to begin an item, or the one before has neither a `;`
/// nor a bad token that may have been one.
fn goes_on(
    alloc: Global,
    source: &Source<'_>,
    item: TokenRange,
    is_bad_before: bool,
) -> Result<bool, AllocError> {
    let Some(first) = source.token(item.from) else {
        return Ok(true);
    };
    if !begins_item(first.kind) {
        return Ok(nearest(alloc, first.text, ITEM_WORDS)?.is_none());
    }
    let last = source.token_before(item.from);
    Ok(!is_bad_before && !matches!(last, Some(last) if last.kind == TokenKind::Semicolon))
}
