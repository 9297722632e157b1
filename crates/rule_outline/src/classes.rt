//! Words by what they are.

use crate::item_parts::end_of;
use crate::names::NameUse;
use crate::outline::Outline;
use crate::symbols::class_of_name;
use diagnostics::{behind, front};
use editor_text::{ClassedWord, WordClass};
use rule_lexer::{Token, TokenKind};
use std::alloc::{AllocError, Global};

/// The class of a token that isn't a name; `None` for `;` and parentheses.
pub fn class_of(kind: TokenKind) -> Option<WordClass> {
    match kind {
        TokenKind::Name | TokenKind::Semicolon | TokenKind::Open | TokenKind::Close => None,
        TokenKind::Equals
        | TokenKind::Compare(_)
        | TokenKind::Or
        | TokenKind::Xor
        | TokenKind::And
        | TokenKind::Not => Some(WordClass::Operator),
        TokenKind::FieldKind(_) => Some(WordClass::Type),
        TokenKind::State(_) | TokenKind::Level(_) => Some(WordClass::Constant),
        TokenKind::Number(_) => Some(WordClass::Number),
        TokenKind::Text => Some(WordClass::Text),
        _ => Some(WordClass::Keyword),
    }
}

/// Whether a line ends with this byte for an editor (Language Server Protocol 3.17, "Position").
pub fn is_line_end(byte: u8) -> bool {
    matches!(byte, b'\n' | b'\r')
}

/// Adds the comments between two tokens, from one place of a text without bad tokens to another: what each line has there that isn't blank.
fn add_comments(
    text: &[u8],
    from: usize,
    to: usize,
    words: &mut Vec<ClassedWord>,
) -> Result<(), AllocError> {
    let mut at = from;
    let gap = behind(front(text, to), from);
    for line in gap.split(|byte| is_line_end(*byte)) {
        let size = line.trim_ascii_start().len();
        let end = at.saturating_add(line.len());
        if size > 0 {
            words.push(ClassedWord {
                at: end.saturating_sub(size),
                size,
                class: WordClass::Comment,
                is_declaration: false,
            })?;
        }
        at = end.saturating_add(1);
    }
    Ok(())
}

impl<'a> Outline<'a> {
    /// The name in a token of an item, if the item's form says what it names.
    pub(crate) fn name_in(&self, token: Token<'a>) -> Option<NameUse<'a>> {
        if token.kind != TokenKind::Name {
            return None;
        }
        let found = self.names.binary_search_by_key(&token.at, |name| name.at);
        self.names.get(found.ok()?).copied()
    }

    /// The word in a token, if it has a class.
    fn classed_word(&self, token: Token<'a>) -> Option<ClassedWord> {
        let name = self.name_in(token);
        let class = match name {
            Some(name) => class_of_name(name.kind),
            None => class_of(token.kind)?,
        };
        Some(ClassedWord {
            at: token.at,
            size: token.text.len(),
            class,
            is_declaration: name.is_some_and(|name| name.is_declaration),
        })
    }

    /// The words and comments, in the order of the text.
    pub fn classed_words(&self, alloc: Global) -> Result<Vec<ClassedWord>, AllocError> {
        let text = self.source.text;
        let mut words = Vec::new(alloc);
        let mut from = 0;
        for token in &self.source.tokens {
            add_comments(text, from, token.at, &mut words)?;
            if let Some(word) = self.classed_word(*token) {
                words.push(word)?;
            }
            from = end_of(*token);
        }
        add_comments(text, from, text.len(), &mut words)?;
        Ok(words)
    }
}
