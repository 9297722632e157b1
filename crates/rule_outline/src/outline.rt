//! The outline of a rule text.

ghost use Rattle.std.specs.Prelude.{All, IfOk};
ghost use Rattle.rule_outline.specs.Uses.{IsUseOf};

use crate::names::{NameUse, names_in};
use rule_errors::{Mended, NameKind, Source};
use rule_lexer::{LexError, Token, lex};
use std::alloc::{AllocError, Global};

/// The outline of a rule text.
#[derive(Drop)]
pub struct Outline<'a> {
    /// The text.
    pub(crate) text: &'a [u8],
    /// The text with blanks in the place of bad tokens, its tokens and its items.
    pub(crate) source: Source<'a>,
    /// The names in the items, in the order of the text.
    pub(crate) names: Vec<NameUse<'a>>,
}

/// The tokens of a text without bad ones. A text that is too long has none.
fn tokens_of<'a>(alloc: Global, text: &'a [u8]) -> Result<Vec<Token<'a>>, AllocError> {
    match lex(alloc, text) {
        Ok(tokens) => Ok(tokens),
        Err(LexError::Memory) => Err(AllocError),
        Err(_) => Ok(Vec::new(alloc)),
    }
}

impl<'a> Outline<'a> {
    /// The outline of a text, with what `mend` returned for it. The only error is a lack of memory.
    pub fn new(
        alloc: Global,
        text: &'a [u8],
        mended: &'a Mended,
    ) -> Result<Outline<'a>, AllocError> {
        let whole = mended.text.as_slice();
        let tokens = tokens_of(alloc, whole)?;
        let source = Source::new(alloc, whole, tokens)?;
        let names = names_in(alloc, &source)?;
        Ok(Outline {
            text,
            source,
            names,
        })
    }

    /// The name that has a byte, or its end, at this place.
    pub fn name_at(&self, at: usize) -> Option<NameUse<'a>> {
        self.names.iter().find(|name| name.touches(at)).copied()
    }

    /// Where a name is declared: the first declaration of its kind.
    pub fn declaration(&self, name: NameUse<'a>) -> Option<NameUse<'a>> {
        self.declaration_of(name.kind, name.text)
    }

    /// Where a packet, field or rule of this name is declared: the first declaration.
    pub fn declaration_of(&self, kind: NameKind, name: &[u8]) -> Option<NameUse<'a>> {
        self.names
            .iter()
            .find(|other| other.is_declaration && other.is_of(kind, name))
            .copied()
    }

    /// All uses of a name, declarations included, in the order of the text.
    pub fn uses(&self, alloc: Global, name: NameUse<'a>) -> Result<Vec<NameUse<'a>>, AllocError>
        ensures { IfOk result (λ uses. All (IsUseOf name.entry) uses.items) }
    {
        let mut uses = Vec::new(alloc);
        for other in &self.names {
            if other.is_of(name.kind, name.text) {
                uses.push(*other)?;
            }
        }
        Ok(uses)
    }
}
