//! The names of a text, where they stand.

ghost use Rattle.std.specs.Prelude.{◌≡◌, IsTrue};

use crate::item_parts::tokens_before;
use diagnostics::behind;
use rule_errors::{NameKind, Source, TokenRange};
use rule_lexer::{Token, TokenKind};
use std::alloc::{AllocError, Global};

/// A name where it stands in a text.
#[derive(Clone, Copy, Debug, PartialEq, Eq)]
pub struct NameUse<'a> {
    /// What it names.
    pub kind: NameKind,
    /// The place of its first byte.
    pub at: usize,
    /// The name.
    pub text: &'a [u8],
    /// Whether an item declares it here.
    pub is_declaration: bool,
}

impl<'a> NameUse<'a> {
    /// Whether a byte of it, or its end, is at this place.
    pub(crate) fn touches(&self, at: usize) -> bool {
        self.at <= at && at <= self.at.saturating_add(self.text.len())
    }

    /// Whether it has this kind and this name.
    pub(crate) fn is_of(&self, kind: NameKind, text: &[u8]) -> bool
        ensures { IsTrue result → (self.now.kind ≡ kind) × (self.now.text.now ≡ text.now) }
    {
        self.kind == kind && self.text == text
    }
}

/// Adds the use of the name in this token, if it is a name.
fn add_name<'a>(
    token: Option<Token<'a>>,
    kind: NameKind,
    is_declaration: bool,
    uses: &mut Vec<NameUse<'a>>,
) -> Result<(), AllocError> {
    if let Some(token) = token {
        if token.kind == TokenKind::Name {
            uses.push(NameUse {
                kind,
                at: token.at,
                text: token.text,
                is_declaration,
            })?;
        }
    }
    Ok(())
}

/// Adds the fields that the condition of a rule names.
fn add_fields<'a>(
    source: &Source<'a>,
    rule: TokenRange,
    uses: &mut Vec<NameUse<'a>>,
) -> Result<(), AllocError> {
    let tokens = source.tokens_of(rule);
    let head = tokens_before(tokens, TokenKind::When).len();
    for token in behind(tokens, head) {
        add_name(Some(*token), NameKind::Field, false, uses)?;
    }
    Ok(())
}

/// Adds the names of an item: the one that it declares, then those that it uses.
fn add_item<'a>(
    source: &Source<'a>,
    part: TokenRange,
    uses: &mut Vec<NameUse<'a>>,
) -> Result<(), AllocError> {
    let Some(kind) = source.kind_of(part) else {
        return Ok(());
    };
    let second = source.tokens_of(part).get(1).copied();
    add_name(second, kind, true, uses)?;
    match kind {
        NameKind::Packet => Ok(()),
        NameKind::Field => {
            let packet = source.first_number(part, TokenKind::Equals);
            add_name(packet, NameKind::Packet, false, uses)
        }
        NameKind::Rule => add_fields(source, part, uses),
    }
}

/// The names of all items, in the order of the text.
pub fn names_in<'a>(alloc: Global, source: &Source<'a>) -> Result<Vec<NameUse<'a>>, AllocError> {
    let mut uses = Vec::new(alloc);
    for part in &source.parts {
        add_item(source, *part, &mut uses)?;
    }
    Ok(uses)
}
