//! What may stand at a place.

use crate::classes::class_of;
use crate::details::detail_of;
use crate::explaining::keyword;
use crate::item_parts::{end_of, text_of};
use crate::offers::{names_after, open_item, words_after};
use crate::outline::Outline;
use crate::symbols::class_of_name;
use diagnostics::{behind, front};
use editor_text::{Choice, WordClass};
use rule_errors::NameKind;
use rule_lexer::{Token, lex};
use std::alloc::{AllocError, Global};

/// Whether a token stands before a place. A word or number that ends there is still being written.
fn is_before(token: Token<'_>, at: usize) -> bool {
    let end = end_of(token);
    let is_open = matches!(
        token.text.last(),
        Some(byte) if byte.is_ascii_alphanumeric() || *byte == b'_'
    );
    end < at || end == at && !is_open
}

/// Whether a comment begins before a place on its line, where the last token before the place ends at `from`.
fn is_in_comment(text: &[u8], from: usize, at: usize) -> bool {
    let mut line = behind(front(text, at), from)
        .iter()
        .rev()
        .take_while(|byte| **byte != b'\n');
    line.any(|byte| *byte == b'#')
}

/// The choice of a word or sign of the language.
fn word_choice(alloc: Global, word: &[u8]) -> Result<Choice, AllocError> {
    let class = match lex(alloc, word) {
        Ok(tokens) => tokens.first().and_then(|token| class_of(token.kind)),
        Err(_) => None,
    };
    let detail = keyword(word).map_or("", |keyword| keyword.first);
    Ok(Choice {
        class: class.unwrap_or(WordClass::Operator),
        text: text_of(alloc, word)?,
        detail: String::from_str(alloc, detail)?,
    })
}

impl<'a> Outline<'a> {
    /// Adds the declared names of a kind.
    fn add_names(
        &self,
        alloc: Global,
        kind: NameKind,
        choices: &mut Vec<Choice>,
    ) -> Result<(), AllocError> {
        for name in &self.source.names {
            let part = self.source.parts.get(name.part).copied();
            if let (true, Some(part)) = (name.kind == Some(kind), part) {
                choices.push(Choice {
                    class: class_of_name(kind),
                    text: text_of(alloc, name.text)?,
                    detail: detail_of(alloc, &self.source, part, kind)?,
                })?;
            }
        }
        Ok(())
    }

    /// The tokens before a place.
    fn tokens_up_to(&self, at: usize) -> &[Token<'a>] {
        let tokens = self.source.tokens.as_slice();
        let count = tokens
            .iter()
            .take_while(|token| is_before(**token, at))
            .count();
        front(tokens, count)
    }

    /// What may stand at a place, after the tokens that end before it.
    pub fn choices(&self, alloc: Global, at: usize) -> Result<Vec<Choice>, AllocError> {
        let mut choices = Vec::new(alloc);
        let before = self.tokens_up_to(at);
        let end = before.last().map_or(0, |token| end_of(*token));
        if is_in_comment(self.source.text, end, at) {
            return Ok(choices);
        }
        let item = open_item(before);
        if let Some(kind) = names_after(item) {
            self.add_names(alloc, kind, &mut choices)?;
        }
        for word in words_after(item) {
            choices.push(word_choice(alloc, *word)?)?;
        }
        Ok(choices)
    }
}
