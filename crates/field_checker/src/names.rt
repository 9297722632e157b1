//! The items of a file, and the declaration of each name.

ghost use Rattle.std.specs.Prelude.{◌≡◌, IfOk, option_map};
ghost use Rattle.std.specs.List.{list_any};
ghost use Rattle.lc_model.specs.Text.Meaning as meaning;
ghost use Rattle.lc_model.specs.Text.Meaning.{is_earlier, packet_named, field_named};
ghost use Rattle.rule_parser.specs.Syntax.{field_of, items_of, name_of, packet_of};
ghost use Rattle.field_checker.specs.Index.{at_name, is_named_before, is_rule_before, IsIndexOf};

use crate::index::{Declared, Index};
use crate::key::key;
use rule_parser::{FieldItem, Item, Name, PacketItem};
use std::alloc::{AllocError, Global};

/// The items of a file, with an index of their declarations. A look-up takes at most logarithmically many comparisons in the
/// number of names, whatever the names are.
#[derive(Drop)]
pub(crate) struct Names<'f, 'a> {
    pub items: &'f [Item<'a>],
    index: Index<'f, 'a>,
    ghost indexed: { IsIndexOf index (items_of items.now) },
}

impl<'f, 'a> Names<'f, 'a> {
    /// Indexes the items. The error is a lack of memory.
    pub fn new(alloc: Global, items: &'f [Item<'a>]) -> Result<Names<'f, 'a>, AllocError>
        ensures { IfOk result (λ names. items_of names.items.now ≡ items_of items.now) }
    {
        let mut index = Index::empty(alloc);
        for item in items {
            index.declare(item)?;
        }
        Ok(Names { items, index })
    }

    /// The declarations of the name by packets and fields, if there are any.
    fn declarations_of(&self, name: Name<'a>) -> Option<&Declared<'f, 'a>>
        ensures { option_map (λ d. d.now) result ≡ at_name self.now.index.named
            name.entry.text.now }
    {
        self.index.named.get(&key(name.text))
    }

    /// Whether a packet or a field declares the name at a lesser place.
    fn is_named_before(&self, name: Name<'a>) -> bool
        ensures { result ≡ is_named_before self.now.index name.entry.text.now name.entry.at }
    {
        match self.declarations_of(name) {
            Some(declared) => declared.least < name.at,
            None => false,
        }
    }

    /// Whether a rule declares the name at a lesser place.
    fn is_rule_before(&self, name: Name<'a>) -> bool
        ensures { result ≡ is_rule_before self.now.index name.entry.text.now name.entry.at }
    {
        match self.index.rules.get(&key(name.text)) {
            Some(least) => *least < name.at,
            None => false,
        }
    }

    /// Whether an item declares the name at a lesser place.
    pub fn is_declared_before(&self, name: Name<'a>) -> bool
        ensures { result ≡
            list_any (λ other. is_earlier (meaning.name_of other) (name_of name.entry))
            (items_of self.now.items.now) }
    {
        self.is_named_before(name) || self.is_rule_before(name)
    }

    /// The first packet of the name.
    pub fn packet(&self, name: Name<'a>) -> Option<&'f PacketItem<'a>>
        ensures { option_map (λ p. packet_of p.now) result ≡
            packet_named (items_of self.now.items.now) (name_of name.entry) }
    {
        self.declarations_of(name)?.packet
    }

    /// The first field of the name.
    pub fn field(&self, name: Name<'a>) -> Option<&'f FieldItem<'a>>
        ensures { option_map (λ f. field_of f.now) result ≡
            field_named (items_of self.now.items.now) (name_of name.entry) }
    {
        self.declarations_of(name)?.field
    }
}
