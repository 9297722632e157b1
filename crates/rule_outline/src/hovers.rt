//! What is said of a word.

use crate::explaining::keyword;
use crate::item_hover::ItemHover;
use crate::item_parts::{TokenBytes, end_of};
use crate::outline::Outline;
use analysis_listing::write_outcome_of;
use diagnostics::behind;
use editor_text::Hover;
use rpn_compiler::{CompileError, RuleText};
use rule_errors::NameKind;
use rule_lexer::Token;
use std::alloc::{AllocError, Global};

/// What `flight_tools check --all` prints of the rule with this number, counted from 0; empty if the text doesn't compile.
fn outcome_of(alloc: Global, text: &[u8], number: usize) -> Result<Vec<u8>, AllocError> {
    let mut line = Vec::new(alloc);
    match RuleText::read_valid(alloc, text) {
        Ok(text) => match write_outcome_of(alloc, &text, number, &mut line) {
            Ok(()) => Ok(line),
            Err(_) => Err(AllocError),
        },
        Err(CompileError::Memory) => Err(AllocError),
        Err(_) => Ok(line),
    }
}

impl<'a> Outline<'a> {
    /// Adds values of its fields with which the rule of this name fails and passes, if they are known.
    fn add_outcome(&self, alloc: Global, name: &[u8], text: &mut String) -> Result<(), AllocError> {
        let mut rules = self.names.iter().filter(|other| other.is_declaration
            && other.kind == NameKind::Rule);
        let Some(number) = rules.position(|rule| rule.text == name) else {
            return Ok(());
        };
        let line = outcome_of(alloc, self.text, number)?;
        // The name, a colon and a blank stand before the values.
        let values = behind(line.as_slice(), name.len().saturating_add(2)).trim_ascii_end();
        if values.is_empty() {
            return Ok(());
        }
        let values = TokenBytes(values);
        write!(text, "\n\n`{values}`")
    }

    /// What is said of a packet, field or rule, in Markdown.
    pub fn hover_of(
        &self,
        alloc: Global,
        kind: NameKind,
        name: &[u8],
    ) -> Result<Option<String>, AllocError> {
        let Some(name) = self.source.find_declaration(kind, name) else {
            return Ok(None);
        };
        let Some(part) = self.source.parts.get(name.part).copied() else {
            return Ok(None);
        };
        let item = ItemHover {
            source: &self.source,
            kind,
            name: name.text,
            part,
        };
        let mut text = format!(in alloc; "{item}")?;
        if kind == NameKind::Rule {
            self.add_outcome(alloc, name.text, &mut text)?;
        }
        Ok(Some(text))
    }

    /// What is said of the word in a token.
    fn token_text(&self, alloc: Global, token: Token<'a>) -> Result<Option<String>, AllocError> {
        match (self.name_in(token), keyword(token.text)) {
            (Some(name), _) => self.hover_of(alloc, name.kind, name.text),
            (None, Some(keyword)) => Ok(Some(String::from_str(alloc, keyword.text)?)),
            (None, None) => Ok(None),
        }
    }

    /// What is said of the word that has the byte at this place.
    fn hover_on(&self, alloc: Global, at: usize) -> Result<Option<Hover>, AllocError> {
        let mut tokens = self.source.tokens.iter();
        let Some(token) = tokens.find(|token| token.at <= at && at < end_of(**token)) else {
            return Ok(None);
        };
        match self.token_text(alloc, *token)? {
            Some(text) => Ok(Some(Hover {
                from: token.at,
                to: end_of(*token),
                text,
            })),
            None => Ok(None),
        }
    }

    /// What is said of the word at a place, or else of the word that ends there.
    pub fn hover(&self, alloc: Global, at: usize) -> Result<Option<Hover>, AllocError> {
        let hover = self.hover_on(alloc, at)?;
        if hover.is_some() || at == 0 {
            return Ok(hover);
        }
        self.hover_on(alloc, at - 1)
    }
}
