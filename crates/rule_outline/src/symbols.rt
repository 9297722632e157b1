//! The packets, fields and rules that a text declares.

use crate::details::detail_of;
use crate::item_parts::{end_of, text_of};
use crate::outline::Outline;
use editor_text::{Symbol, WordClass};
use rule_errors::{Declaration, NameKind, TokenRange};
use std::alloc::{AllocError, Global};

/// The class of a name.
pub fn class_of_name(kind: NameKind) -> WordClass {
    match kind {
        NameKind::Packet => WordClass::Packet,
        NameKind::Field => WordClass::Field,
        NameKind::Rule => WordClass::Rule,
    }
}

impl<'a> Outline<'a> {
    /// The symbol of an item that declares this name.
    fn symbol(
        &self,
        alloc: Global,
        name: Declaration<'a>,
        kind: NameKind,
        part: TokenRange,
    ) -> Result<Symbol, AllocError> {
        let name_to = name.at.saturating_add(name.text.len());
        let tokens = self.source.tokens_of(part);
        Ok(Symbol {
            class: class_of_name(kind),
            name: text_of(alloc, name.text)?,
            detail: detail_of(alloc, &self.source, part, kind)?,
            from: tokens.first().map_or(name.at, |token| token.at),
            to: tokens.last().map_or(name_to, |token| end_of(*token)),
            name_from: name.at,
            name_to,
        })
    }

    /// The packets, fields and rules that the text declares, in its order.
    pub fn symbols(&self, alloc: Global) -> Result<Vec<Symbol>, AllocError> {
        let mut symbols = Vec::new(alloc);
        for name in &self.source.names {
            let part = self.source.parts.get(name.part).copied();
            if let (Some(kind), Some(part)) = (name.kind, part) {
                symbols.push(self.symbol(alloc, *name, kind, part)?)?;
            }
        }
        Ok(symbols)
    }
}
