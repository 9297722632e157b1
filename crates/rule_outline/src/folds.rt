//! Items and comments of several lines.

use crate::classes::is_line_end;
use crate::outline::Outline;
use diagnostics::{behind, front};
use editor_text::Fold;
use std::alloc::{AllocError, Global};

/// Adds the lines from one that begins at `first` to one that begins at `last`, if they are lines of comments and several.
fn add_lines(first: Option<usize>, last: usize, folds: &mut Vec<Fold>) -> Result<(), AllocError> {
    if let Some(from) = first {
        if from < last {
            folds.push(Fold {
                from,
                to: last,
                is_comment: true,
            })?;
        }
    }
    Ok(())
}

/// Adds lines that have a comment and nothing else, where two or more follow one another. No token goes beyond its line, so that a comment
/// stands on each line that begins with `#`.
fn add_comments(text: &[u8], folds: &mut Vec<Fold>) -> Result<(), AllocError> {
    let mut first = None;
    let mut last = 0;
    let mut at = 0usize;
    for line in text.split(|byte| *byte == b'\n') {
        if line.trim_ascii_start().starts_with(b"#") {
            first = first.or(Some(at));
            last = at;
        } else {
            add_lines(first, last, folds)?;
            first = None;
        }
        at = at.saturating_add(line.len()).saturating_add(1);
    }
    add_lines(first, last, folds)
}

impl<'a> Outline<'a> {
    /// Adds the items of several lines.
    fn add_items(&self, folds: &mut Vec<Fold>) -> Result<(), AllocError> {
        for part in &self.source.parts {
            if let [first, .., last] = self.source.tokens_of(*part) {
                let between = behind(front(self.text, last.at), first.at);
                if between.iter().any(|byte| is_line_end(*byte)) {
                    folds.push(Fold {
                        from: first.at,
                        to: last.at,
                        is_comment: false,
                    })?;
                }
            }
        }
        Ok(())
    }

    /// Items and comments of several lines, in the order of the text.
    pub fn folds(&self, alloc: Global) -> Result<Vec<Fold>, AllocError> {
        let mut folds = Vec::new(alloc);
        self.add_items(&mut folds)?;
        add_comments(self.text, &mut folds)?;
        folds.sort_by_key(|fold| fold.from)?;
        Ok(folds)
    }
}
