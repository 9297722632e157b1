//! Words by what they are.

use crate::outline::{ScriptNames, ScriptOutline};
use crate::part::{class_of, is_field, is_number, rule_start};
use crate::statement::{WordPart, first_stage};
use crate::word::{is_blank, is_comment, read_word};
use diagnostics::behind;
use editor_text::{ClassedWord, WordClass};
use std::alloc::{AllocError, Global};

/// Adds a word, if it has bytes.
fn add(
    words: &mut Vec<ClassedWord>,
    at: usize,
    size: usize,
    class: WordClass,
) -> Result<(), AllocError> {
    if size > 0 {
        words.push(ClassedWord {
            at,
            size,
            class,
            is_declaration: false,
        })?;
    }
    Ok(())
}

/// How many bytes of `FIELD=VALUE` stand before its `=`.
pub(crate) fn field_length(word: &[u8]) -> usize {
    word.iter().take_while(|byte| **byte != b'=').count()
}

/// Adds the words of `FIELD=VALUE`.
fn add_value(
    words: &mut Vec<ClassedWord>,
    names: &ScriptNames<'_>,
    at: usize,
    word: &[u8],
) -> Result<(), AllocError> {
    let size = field_length(word);
    let (field, rest) = word.split_at(size.min(word.len()));
    if is_field(names, field) {
        add(words, at, size, WordClass::Field)?;
    }
    let sign = at.saturating_add(size);
    add(words, sign, rest.len().min(1), WordClass::Operator)?;
    let value = behind(rest, 1);
    if is_number(value) {
        add(
            words,
            sign.saturating_add(1),
            value.len(),
            WordClass::Number,
        )?;
    }
    Ok(())
}

/// Adds the words of a rule's name, or of `1:` and a rule's name.
fn add_rule(words: &mut Vec<ClassedWord>, at: usize, word: &[u8]) -> Result<(), AllocError> {
    let start = rule_start(word);
    let name = at.saturating_add(start);
    if start > 0 {
        add(words, at, start.saturating_sub(1), WordClass::Number)?;
        add(words, name.saturating_sub(1), 1, WordClass::Operator)?;
    }
    add(
        words,
        name,
        word.len().saturating_sub(start),
        WordClass::Rule,
    )
}

/// Adds a comment; an editor's lines end with carriage returns, too.
fn add_comment(words: &mut Vec<ClassedWord>, at: usize, comment: &[u8]) -> Result<(), AllocError> {
    let mut place = at;
    for piece in comment.split(|byte| *byte == b'\r') {
        add(words, place, piece.len(), WordClass::Comment)?;
        place = place.saturating_add(piece.len()).saturating_add(1);
    }
    Ok(())
}

impl<'a> ScriptOutline<'a> {
    /// Adds a word that is this part.
    fn add_word(
        &self,
        words: &mut Vec<ClassedWord>,
        at: usize,
        word: &[u8],
        part: WordPart,
    ) -> Result<(), AllocError> {
        match (part, class_of(part)) {
            (WordPart::Value, _) => add_value(words, &self.names, at, word),
            (WordPart::Rule, _) => add_rule(words, at, word),
            (_, Some(class)) => add(words, at, word.len(), class),
            (_, None) => Ok(()),
        }
    }

    /// Adds the words of a line.
    fn add_line(
        &self,
        words: &mut Vec<ClassedWord>,
        start: usize,
        line: &[u8],
    ) -> Result<(), AllocError> {
        let mut at = start;
        let mut stage = first_stage(self.kind);
        for word in line.split(|byte| is_blank(*byte)) {
            if is_comment(word) {
                return add_comment(words, at, behind(line, at.saturating_sub(start)));
            }
            if !word.is_empty() {
                let reading = read_word(&self.names, stage, word);
                if let Some(part) = reading.part {
                    self.add_word(words, at, word, part)?;
                }
                stage = reading.stage;
            }
            at = at.saturating_add(word.len()).saturating_add(1);
        }
        Ok(())
    }

    /// The words and comments, in the order of the text.
    pub fn classed_words(&self, alloc: Global) -> Result<Vec<ClassedWord>, AllocError> {
        let mut words = Vec::new(alloc);
        let mut at = 0usize;
        for line in self.text.split(|byte| *byte == b'\n') {
            self.add_line(&mut words, at, line)?;
            at = at.saturating_add(line.len()).saturating_add(1);
        }
        Ok(words)
    }
}
