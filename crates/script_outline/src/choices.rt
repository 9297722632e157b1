//! What may stand at a place.

use crate::explanation::explanation_of;
use crate::outline::ScriptOutline;
use crate::part::class_of;
use crate::statement::{STEPS, Step, WordPart};
use crate::word::LineWord;
use editor_text::{Choice, WordClass};
use lc_model::TYPE_WORDS;
use std::alloc::{AllocError, Global};

/// The form of the statement that a step begins; empty if it begins none.
fn form_of(step: &Step) -> &'static str {
    match (step.1, explanation_of(step.2)) {
        (WordPart::Keyword(_), Some(explanation)) => explanation.form,
        _ => "",
    }
}

/// Adds words of one class.
fn add_words(
    alloc: Global,
    choices: &mut Vec<Choice>,
    class: WordClass,
    words: &[&[u8]],
    detail: &str,
) -> Result<(), AllocError> {
    for word in words {
        choices.push(Choice {
            class,
            text: String::from_utf8_lossy(alloc, word)?,
            detail: String::from_str(alloc, detail)?,
        })?;
    }
    Ok(())
}

impl<'a> ScriptOutline<'a> {
    /// The number of the packet of this name.
    fn packet_number(&self, name: &[u8]) -> Option<usize> {
        self.names.packets.iter().position(|packet| *packet == name)
    }

    /// Adds the fields of all packets.
    fn add_fields(&self, alloc: Global, choices: &mut Vec<Choice>) -> Result<(), AllocError> {
        for (_, name) in self.names.fields {
            add_words(alloc, choices, WordClass::Field, &[*name], "")?;
        }
        Ok(())
    }

    /// Adds the fields of a packet, each with `=` after it.
    fn add_values(
        &self,
        alloc: Global,
        choices: &mut Vec<Choice>,
        packet: usize,
    ) -> Result<(), AllocError> {
        for (number, name) in self.names.fields {
            if *number == packet {
                let mut text = Vec::from_slice(alloc, name)?;
                text.push(b'=')?;
                add_words(alloc, choices, WordClass::Field, &[text.as_slice()], "")?;
            }
        }
        Ok(())
    }

    /// Adds the words of a step.
    fn add_step(
        &self,
        alloc: Global,
        choices: &mut Vec<Choice>,
        word: &LineWord<'_>,
        step: &Step,
    ) -> Result<(), AllocError> {
        match step.1 {
            WordPart::Keyword(words)
            | WordPart::Constant(words)
            | WordPart::Sign(words)
            | WordPart::Known(words) => {
                let class = class_of(step.1).unwrap_or(WordClass::Keyword);
                let detail = form_of(step);
                add_words(alloc, choices, class, words, detail)
            }
            WordPart::Type => add_words(alloc, choices, WordClass::Type, TYPE_WORDS, ""),
            WordPart::Packet => add_words(
                alloc,
                choices,
                WordClass::Packet,
                self.names.packets,
                "",
            ),
            WordPart::Rule => add_words(alloc, choices, WordClass::Rule, self.names.rules, ""),
            WordPart::Field => self.add_fields(alloc, choices),
            WordPart::Value => match self.packet_number(word.first) {
                Some(packet) => self.add_values(alloc, choices, packet),
                None => Ok(()),
            },
            WordPart::Name | WordPart::Number | WordPart::Bytes => Ok(()),
        }
    }

    /// What may stand at a place, after the words of its line that end before it.
    pub fn choices(&self, alloc: Global, at: usize) -> Result<Vec<Choice>, AllocError> {
        let mut choices = Vec::new(alloc);
        let Some(word) = self.word_at(at) else {
            return Ok(choices);
        };
        let (written, _) = word
            .text
            .split_at(at.saturating_sub(word.at).min(word.text.len()));
        if written.contains(&b'=') {
            return Ok(choices);
        }
        for step in STEPS {
            if step.0 == word.stage {
                self.add_step(alloc, &mut choices, &word, step)?;
            }
        }
        Ok(choices)
    }
}
