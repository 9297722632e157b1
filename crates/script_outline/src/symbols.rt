//! What a script does when: slots, moments and repetitions.

use crate::blocks::Line;
use crate::outline::{ScriptKind, ScriptOutline};
use crate::word::is_blank;
use editor_text::{Fold, Symbol, WordClass};
use std::alloc::{AllocError, Global};
use text_lines::first_word;

/// The words of a line, one blank between them.
fn words_of(alloc: Global, line: &[u8]) -> Result<String, AllocError> {
    let mut words = Vec::new(alloc);
    for word in line.split(|byte| is_blank(*byte)) {
        if !word.is_empty() && !words.is_empty() {
            words.push(b' ')?;
        }
        words.extend_from_slice(word)?;
    }
    String::from_utf8_lossy(alloc, words.as_slice())
}

/// The first two words of a line.
fn two_words(line: &[u8]) -> &[u8] {
    let rest = match first_word(line) {
        Some((_, rest)) => rest,
        None => line,
    };
    let left = match first_word(rest) {
        Some((_, left)) => left.len(),
        None => 0,
    };
    line.split_at(line.len().saturating_sub(left)).0
}

/// The symbol of some words at the beginning of a line, up to a place.
fn symbol(alloc: Global, at: usize, words: &[u8], to: usize) -> Result<Symbol, AllocError> {
    let end = at.saturating_add(words.len());
    Ok(Symbol {
        class: WordClass::Keyword,
        name: words_of(alloc, words)?,
        detail: String::new(alloc),
        from: at,
        to: to.max(end),
        name_from: at,
        name_to: end,
    })
}

/// Whether a line of a scenario has a symbol.
fn sets_moment(first: &[u8]) -> bool {
    matches!(first, b"at" | b"after")
}

impl<'a> ScriptOutline<'a> {
    /// The symbol of a line, if it has one; `block` is the next repetition.
    fn line_symbol(
        &self,
        alloc: Global,
        line: &Line<'_>,
        block: Option<&Fold>,
    ) -> Result<Option<Symbol>, AllocError> {
        let is_schedule = self.kind == ScriptKind::Schedule;
        match (line.first(), block) {
            ([], _) => Ok(None),
            (_, Some(block)) if block.from == line.at => {
                let to = block.to.saturating_add(1);
                Ok(Some(symbol(alloc, line.at, two_words(line.text), to)?))
            }
            (first, _) if is_schedule || sets_moment(first) => {
                Ok(Some(symbol(alloc, line.at, line.text, line.end())?))
            }
            _ => Ok(None),
        }
    }

    /// The repetitions and moments of a scenario; the slots of a schedule.
    pub fn symbols(&self, alloc: Global) -> Result<Vec<Symbol>, AllocError> {
        let blocks = self.blocks(alloc)?;
        let mut next = 0usize;
        let mut symbols = Vec::new(alloc);
        let mut at = 0usize;
        for text in self.text.split(|byte| *byte == b'\n') {
            let line = Line::new(at, text);
            let block = blocks.as_slice().get(next);
            if block.is_some_and(|block| block.from <= line.at) {
                next = next.saturating_add(1);
            }
            if let Some(symbol) = self.line_symbol(alloc, &line, block)? {
                symbols.push(symbol)?;
            }
            at = at.saturating_add(text.len()).saturating_add(1);
        }
        Ok(symbols)
    }
}
