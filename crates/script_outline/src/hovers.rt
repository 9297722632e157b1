//! What is said of a word, and the names of rule texts.

ghost use Rattle.std.specs.Prelude.{◌≡◌, true, IfSome};
ghost use Rattle.script_outline.specs.Names.{is_name};

use crate::classes::field_length;
use crate::outline::{ScriptName, ScriptOutline};
use crate::part::{is_field, rule_start};
use crate::statement::WordPart;
use diagnostics::behind;
use editor_text::{Hover, WordClass};
use std::alloc::{AllocError, Global};

impl<'a> ScriptOutline<'a> {
    /// The name of a packet, a field or a rule that has a byte, or its end, at this place.
    pub fn name_at(&self, at: usize) -> Option<ScriptName<'a>>
        ensures { IfSome result (λ name. is_name name.class ≡ true) }
    {
        let word = self.word_at(at)?;
        let column = at.saturating_sub(word.at);
        let (start, text, class) = match word.reading(&self.names).part? {
            WordPart::Packet => (0, word.text, WordClass::Packet),
            WordPart::Field => (0, word.text, WordClass::Field),
            WordPart::Rule => {
                let start = rule_start(word.text);
                (start, behind(word.text, start), WordClass::Rule)
            }
            WordPart::Value => {
                let size = field_length(word.text).min(word.text.len());
                (0, word.text.split_at(size).0, WordClass::Field)
            }
            _ => return None,
        };
        if class == WordClass::Field && !is_field(&self.names, text) {
            return None;
        }
        if column < start || column > start.saturating_add(text.len()) {
            return None;
        }
        Some(ScriptName {
            class,
            at: word.at.saturating_add(start),
            text,
        })
    }

    /// What is said of the word at a place, if it is a word of the script's language: its line of docs/FORMATS.md or docs/TOOLS.md.
    pub fn hover(&self, alloc: Global, at: usize) -> Result<Option<Hover>, AllocError> {
        let Some(word) = self.word_at(at) else {
            return Ok(None);
        };
        let part = word.reading(&self.names).part;
        if !matches!(part, Some(WordPart::Keyword(_) | WordPart::Constant(_))) {
            return Ok(None);
        }
        let Some(explanation) = word.explanation(&self.names) else {
            return Ok(None);
        };
        let (form, says) = (explanation.form, explanation.says);
        Ok(Some(Hover {
            from: word.at,
            to: word.end(),
            text: format!(in alloc; "`{form}`\n\n{says}")?,
        }))
    }
}
