//! Words of lines, with what came before them.

use crate::explanation::{Explanation, explanation_of};
use crate::outline::{ScriptKind, ScriptNames, ScriptOutline};
use crate::part::fits;
use crate::statement::{STEPS, Stage, WordPart, first_stage};

/// Whether a byte separates words.
pub(crate) fn is_blank(byte: u8) -> bool {
    matches!(byte, b' ' | b'\t' | b'\r')
}

/// Whether a word begins a comment.
pub(crate) fn is_comment(word: &[u8]) -> bool {
    matches!(word, [b'#', ..])
}

/// A word of a line, maybe without bytes, and what came before it.
#[derive(Clone, Copy)]
pub(crate) struct LineWord<'a> {
    /// The place of its first byte.
    pub at: usize,
    /// Its bytes.
    pub text: &'a [u8],
    /// Where it stands in its line.
    pub stage: Stage,
    /// The stage after the word that begins its statement.
    pub statement: Stage,
    /// The first word of its line.
    pub first: &'a [u8],
}

/// What a word is, and the stage after it.
#[derive(Clone, Copy)]
pub(crate) struct Reading {
    /// `None` for a word that may not stand there.
    pub part: Option<WordPart>,
    /// The stage after it.
    pub stage: Stage,
}

/// What a word is at a stage.
pub(crate) fn read_word(names: &ScriptNames<'_>, stage: Stage, word: &[u8]) -> Reading {
    let step = STEPS
        .iter()
        .find(|step| step.0 == stage && fits(names, step.1, word));
    if let Some(step) = step {
        return Reading {
            part: Some(step.1),
            stage: step.2,
        };
    }
    let last = STEPS.iter().rev().find(|step| step.0 == stage);
    Reading {
        part: None,
        stage: last.map_or(Stage::End, |step| step.2),
    }
}

impl<'a> LineWord<'a> {
    /// No word, at the beginning of a line.
    fn start(kind: ScriptKind, at: usize) -> LineWord<'a> {
        LineWord {
            at,
            text: b"",
            stage: first_stage(kind),
            statement: Stage::End,
            first: b"",
        }
    }

    /// What the word is.
    pub fn reading(&self, names: &ScriptNames<'_>) -> Reading {
        read_word(names, self.stage, self.text)
    }

    /// The stage after the word that begins its statement: this one, if it is a keyword of which something is said.
    fn statement_with(&self, reading: Reading) -> Stage {
        match reading.part {
            Some(WordPart::Keyword(_)) if explanation_of(reading.stage).is_some() => reading.stage,
            _ => self.statement,
        }
    }

    /// What is said of the statement of this word.
    pub fn explanation(&self, names: &ScriptNames<'_>) -> Option<Explanation> {
        explanation_of(self.statement_with(self.reading(names)))
    }

    /// The place after its last byte.
    pub fn end(&self) -> usize {
        self.at.saturating_add(self.text.len())
    }

    /// The word with these bytes, in the place of this one.
    fn with_text(self, text: &'a [u8]) -> LineWord<'a> {
        LineWord {
            at: self.at,
            text,
            stage: self.stage,
            statement: self.statement,
            first: self.first,
        }
    }

    /// No word, after this one and a blank.
    fn after(self, names: &ScriptNames<'_>) -> LineWord<'a> {
        let at = self.end().saturating_add(1);
        if self.text.is_empty() {
            return LineWord { at, ..self };
        }
        let reading = self.reading(names);
        LineWord {
            at,
            text: b"",
            stage: reading.stage,
            statement: self.statement_with(reading),
            first: if self.first.is_empty() {
                self.text
            } else {
                self.first
            },
        }
    }
}

/// The line of a place, without its line feed, and the place of its first byte.
fn line_at(text: &[u8], at: usize) -> (usize, &[u8]) {
    let (before, _) = text.split_at(at.min(text.len()));
    let column = before
        .iter()
        .rev()
        .take_while(|byte| **byte != b'\n')
        .count();
    let start = before.len().saturating_sub(column);
    let (_, rest) = text.split_at(start.min(text.len()));
    let size = rest.iter().take_while(|byte| **byte != b'\n').count();
    (start, rest.split_at(size.min(rest.len())).0)
}

/// The word of a line that has a byte, or its end, at a place, or no word there; `None` in a comment. `start` is no word, where the line
/// begins.
fn word_in<'a>(
    names: &ScriptNames<'_>,
    start: LineWord<'a>,
    line: &'a [u8],
    at: usize,
) -> Option<LineWord<'a>> {
    let mut word = start;
    for text in line.split(|byte| is_blank(*byte)) {
        let here = word.with_text(text);
        if is_comment(text) {
            return None;
        }
        if at <= here.end() {
            return Some(here);
        }
        word = here.after(names);
    }
    None
}

impl<'a> ScriptOutline<'a> {
    /// The word that has a byte, or its end, at a place, or no word there; `None` in a comment.
    pub(crate) fn word_at(&self, at: usize) -> Option<LineWord<'a>> {
        let at = at.min(self.text.len());
        let (start, line) = line_at(self.text, at);
        word_in(&self.names, LineWord::start(self.kind, start), line, at)
    }
}
