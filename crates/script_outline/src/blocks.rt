//! Repetitions, and comments of several lines.

use crate::outline::{ScriptKind, ScriptOutline};
use crate::word::{is_blank, is_comment};
use diagnostics::behind;
use editor_text::Fold;
use std::alloc::{AllocError, Global};
use text_lines::{blank_count, first_word};

/// A line from its first word to its last, without comment; empty if it has no word.
#[derive(Clone, Copy)]
pub(crate) struct Line<'a> {
    /// The place of its first byte.
    pub at: usize,
    /// Its bytes.
    pub text: &'a [u8],
}

/// How many bytes of a line stand before its comment.
fn comment_start(line: &[u8]) -> usize {
    let mut at = 0usize;
    for word in line.split(|byte| is_blank(*byte)) {
        if is_comment(word) {
            return at;
        }
        at = at.saturating_add(word.len()).saturating_add(1);
    }
    line.len()
}

impl<'a> Line<'a> {
    /// The part with words of a line that begins at a place.
    pub fn new(at: usize, line: &'a [u8]) -> Line<'a> {
        let (words, _) = line.split_at(comment_start(line).min(line.len()));
        let start = blank_count(words);
        Line {
            at: at.saturating_add(start),
            text: behind(words, start).trim_ascii_end(),
        }
    }

    /// Its first word, or nothing.
    pub fn first(&self) -> &'a [u8] {
        match first_word(self.text) {
            Some((word, _)) => word,
            None => b"",
        }
    }

    /// The place after its last byte.
    pub fn end(&self) -> usize {
        self.at.saturating_add(self.text.len())
    }
}

/// Adds lines of comments, if they are several.
fn add_comments(
    folds: &mut Vec<Fold>,
    first: Option<usize>,
    last: usize,
) -> Result<(), AllocError> {
    if let Some(from) = first {
        if from < last {
            folds.push(Fold {
                from,
                to: last,
                is_comment: true,
            })?;
        }
    }
    Ok(())
}

/// Sets the last line of the innermost open repetition.
fn close(blocks: &mut [Fold], open: &mut Vec<usize>, at: usize) {
    if let Some(number) = open.pop() {
        if let Some(block) = blocks.get_mut(number) {
            block.to = at;
        }
    }
}

impl<'a> ScriptOutline<'a> {
    /// The repetitions of a scenario, by their first lines; one without an end has the same place twice.
    pub(crate) fn blocks(&self, alloc: Global) -> Result<Vec<Fold>, AllocError> {
        let mut blocks = Vec::new(alloc);
        let mut open = Vec::new(alloc);
        let mut at = 0usize;
        for text in self.text.split(|byte| *byte == b'\n') {
            let line = Line::new(at, text);
            match line.first() {
                b"repeat" if self.kind == ScriptKind::Scenario => {
                    open.push(blocks.len())?;
                    blocks.push(Fold {
                        from: line.at,
                        to: line.at,
                        is_comment: false,
                    })?;
                }
                b"}" => close(blocks.as_mut_slice(), &mut open, line.at),
                _ => {}
            }
            at = at.saturating_add(text.len()).saturating_add(1);
        }
        Ok(blocks)
    }

    /// Adds lines with comments alone, where two or more follow one another.
    fn add_all_comments(&self, folds: &mut Vec<Fold>) -> Result<(), AllocError> {
        let mut first = None;
        let mut last = 0;
        let mut at = 0usize;
        for line in self.text.split(|byte| *byte == b'\n') {
            if is_comment(behind(line, blank_count(line))) {
                first = first.or(Some(at));
                last = at;
            } else {
                add_comments(folds, first, last)?;
                first = None;
            }
            at = at.saturating_add(line.len()).saturating_add(1);
        }
        add_comments(folds, first, last)
    }

    /// Repetitions and comments of several lines.
    pub fn folds(&self, alloc: Global) -> Result<Vec<Fold>, AllocError> {
        let mut folds = Vec::new(alloc);
        let blocks = self.blocks(alloc)?;
        for block in &blocks {
            if block.from < block.to {
                folds.push(*block)?;
            }
        }
        self.add_all_comments(&mut folds)?;
        folds.sort_by_key(|fold| fold.from)?;
        Ok(folds)
    }
}
