//! A text's tokens, grouped into items, with the names that the items declare.

ghost use Rattle.std.specs.Prelude.{◌≡◌, IfOk};

use rule_lexer::{Token, TokenKind};
use std::alloc::{AllocError, Global};

/// The kind of a declared name.
#[derive(Clone, Copy, Debug, PartialEq, Eq)]
pub enum NameKind {
    /// A packet.
    Packet,
    /// A field.
    Field,
    /// A rule.
    Rule,
}

/// The tokens of one item, by their numbers.
#[derive(Clone, Copy)]
pub struct TokenRange {
    /// The number of the first token.
    pub from: usize,
    /// The number after that of the last token.
    pub to: usize,
}

/// A name that an item declares.
#[derive(Clone, Copy)]
pub struct Declaration<'a> {
    /// Its kind; `None` if the item's first word isn't known.
    pub kind: Option<NameKind>,
    /// The place of the name, in bytes from the text's first.
    pub at: usize,
    /// The name.
    pub text: &'a [u8],
    /// The number of the item that declares it.
    pub part: usize,
}

/// A text with its tokens.
#[derive(Drop)]
pub struct Source<'a> {
    /// The text's bytes.
    pub text: &'a [u8],
    /// The tokens, in order.
    pub tokens: Vec<Token<'a>>,
    /// The items, in order.
    pub parts: Vec<TokenRange>,
    /// The declared names, in order.
    pub names: Vec<Declaration<'a>>,
}

/// Whether tokens of this kind begin an item.
pub fn begins_item(kind: TokenKind) -> bool {
    matches!(kind, TokenKind::Packet | TokenKind::Field | TokenKind::Rule)
}

/// The kind of name that an item with this first token declares.
fn kind_of(kind: TokenKind) -> Option<NameKind> {
    match kind {
        TokenKind::Packet => Some(NameKind::Packet),
        TokenKind::Field => Some(NameKind::Field),
        TokenKind::Rule => Some(NameKind::Rule),
        _ => None,
    }
}

/// The items: each up to its `;`, or up to the next one's first word, or to the end.
fn parts_of(alloc: Global, tokens: &[Token<'_>]) -> Result<Vec<TokenRange>, AllocError> {
    let mut parts = Vec::new(alloc);
    let mut from = 0;
    for (number, token) in tokens.iter().enumerate() {
        if begins_item(token.kind) && from < number {
            parts.push(TokenRange { from, to: number })?;
            from = number;
        }
        if token.kind == TokenKind::Semicolon {
            parts.push(TokenRange {
                from,
                to: number + 1,
            })?;
            from = number + 1;
        }
    }
    if from < tokens.len() {
        parts.push(TokenRange {
            from,
            to: tokens.len(),
        })?;
    }
    Ok(parts)
}

/// The names that items declare: the second token of each, if it is a name.
fn names_of<'a>(
    alloc: Global,
    tokens: &[Token<'a>],
    parts: &[TokenRange],
) -> Result<Vec<Declaration<'a>>, AllocError> {
    let mut names = Vec::new(alloc);
    for (number, part) in parts.iter().enumerate() {
        let Some(first) = tokens.get(part.from) else {
            continue;
        };
        let Some(second) = tokens.get(part.from.saturating_add(1)) else {
            continue;
        };
        if part.to.saturating_sub(part.from) > 1 && second.kind == TokenKind::Name {
            names.push(Declaration {
                kind: kind_of(first.kind),
                at: second.at,
                text: second.text,
                part: number,
            })?;
        }
    }
    Ok(names)
}

impl<'a> Source<'a> {
    /// A text with these tokens. The only error is a lack of memory.
    pub fn new(
        alloc: Global,
        text: &'a [u8],
        tokens: Vec<Token<'a>>,
    ) -> Result<Source<'a>, AllocError>
        ensures { IfOk result (λ source. source.text.now ≡ text.now) }
    {
        let parts = parts_of(alloc, tokens.as_slice())?;
        let names = names_of(alloc, tokens.as_slice(), parts.as_slice())?;
        Ok(Source {
            text,
            tokens,
            parts,
            names,
        })
    }

    /// The token with this number.
    pub fn token(&self, number: usize) -> Option<Token<'a>> {
        self.tokens.get(number).copied()
    }

    /// The token before the one with this number.
    pub fn token_before(&self, number: usize) -> Option<Token<'a>> {
        self.token(number.checked_sub(1)?)
    }

    /// The number of the token at this place of the text, or the number of tokens if there is none.
    pub fn number_at(&self, at: usize) -> usize {
        self.tokens
            .as_slice()
            .binary_search_by_key(&at, |token| token.at)
            .unwrap_or(self.tokens.len())
    }

    /// The item of the token with this number.
    pub fn part_of(&self, number: usize) -> TokenRange {
        self.parts
            .iter()
            .find(|part| part.from <= number && number < part.to)
            .copied()
            .unwrap_or(TokenRange {
                from: number,
                to: number,
            })
    }

    /// The tokens of an item.
    pub fn tokens_of(&self, part: TokenRange) -> &[Token<'a>] {
        let tokens = self.tokens.as_slice();
        let to = part.to.min(tokens.len());
        let from = part.from.min(to);
        &tokens[from..to]
    }

    /// The kind of name that an item declares.
    pub fn kind_of(&self, part: TokenRange) -> Option<NameKind> {
        kind_of(self.token(part.from)?.kind)
    }

    /// The first declaration of this name as this kind.
    pub fn find_declaration(&self, kind: NameKind, text: &[u8]) -> Option<Declaration<'a>> {
        self.names
            .iter()
            .find(|name| name.kind == Some(kind) && name.text == text)
            .copied()
    }

    /// The first declaration of this name.
    pub fn first_declared(&self, text: &[u8]) -> Option<Declaration<'a>> {
        self.names.iter().find(|name| name.text == text).copied()
    }

    /// The token that is `count` tokens after the first of this kind in an item.
    pub fn behind_first(
        &self,
        part: TokenRange,
        kind: TokenKind,
        count: usize,
    ) -> Option<Token<'a>> {
        let tokens = self.tokens_of(part);
        let before = tokens.iter().position(|token| token.kind == kind)?;
        tokens.get(before.saturating_add(count)).copied()
    }

    /// The first token of an item that is of this kind.
    pub fn first_of(&self, part: TokenRange, kind: TokenKind) -> Option<Token<'a>> {
        self.behind_first(part, kind, 0)
    }

    /// The token after the first of this kind in an item.
    pub fn first_number(&self, part: TokenRange, kind: TokenKind) -> Option<Token<'a>> {
        self.behind_first(part, kind, 1)
    }

    /// The token after the first of this kind in the item that declares a name.
    pub fn value_in(&self, name: Declaration<'a>, kind: TokenKind) -> Option<Token<'a>> {
        self.behind_first(*self.parts.get(name.part)?, kind, 1)
    }
}
