//! The declarations of names.

ghost use Rattle.std.specs.Prelude.{◌≡◌, ℕ, List, [], ◌∷◌, ◌++◌, Some, None, OnOk, bytes_eq, cond, nat_lt, ◌&&◌, ◌||◌};
ghost use Rattle.lc_model.specs.Text.Syntax as model;
ghost use Rattle.lc_model.specs.Text.Meaning as meaning;
ghost use Rattle.rule_parser.specs.Syntax.{field_of, item_of, name_of, packet_of};
ghost use Rattle.field_checker.specs.Index.{at_name, both, is_before, joined, spread, Declares, IsIndexOf};

use crate::key::key;
use rule_parser::{FieldItem, Item, Name, PacketItem};
use std::alloc::{AllocError, Global};
use std::collections::BTreeMap;

/// The declarations of one name by packets and fields.
#[derive(Clone, Copy)]
pub(crate) struct Declared<'f, 'a> {
    /// The least place at which one of them declares the name.
    pub least: usize,
    /// The first packet among them.
    pub packet: Option<&'f PacketItem<'a>>,
    /// The first field among them.
    pub field: Option<&'f FieldItem<'a>>,
}

/// The declarations of some items, by the keys of names. Rules have a map of their own: conditions never name a rule, so a
/// look-up for a condition need not search among them.
#[derive(Drop)]
pub(crate) struct Index<'f, 'a> {
    /// The declarations of packets and fields.
    pub named: BTreeMap<(u64, &'a [u8]), Declared<'f, 'a>>,
    /// The least place at which a rule declares the name.
    pub rules: BTreeMap<(u64, &'a [u8]), usize>,
}

/// The name that an item declares.
pub(crate) fn declared_name<'a>(item: &Item<'a>) -> Name<'a>
    ensures { name_of result ≡ meaning.name_of (item_of item.entry.now) }
{
    match item {
        Item::Packet(packet) => packet.name,
        Item::Field(field) => field.name,
        Item::Rule(rule) => rule.name,
    }
}

impl<'f, 'a> Declared<'f, 'a> {
    /// The declaration of one packet.
    fn by_packet(packet: &'f PacketItem<'a>) -> Declared<'f, 'a>
        ensures { Declares (model.Packet (packet_of packet.now)) result }
    {
        Declared {
            least: packet.name.at,
            packet: Some(packet),
            field: None,
        }
    }

    /// The declaration of one field.
    fn by_field(field: &'f FieldItem<'a>) -> Declared<'f, 'a>
        ensures { Declares (model.Field (field_of field.now)) result }
    {
        Declared {
            least: field.name.at,
            packet: None,
            field: Some(field),
        }
    }

    /// The declarations of these items and of those after them.
    fn with(self, behind: Declared<'f, 'a>) -> Declared<'f, 'a>
        ensures { result ≡ both self.entry behind.entry }
    {
        Declared {
            least: self.least.min(behind.least),
            packet: self.packet.or(behind.packet),
            field: self.field.or(behind.field),
        }
    }
}

/// Adds the declaration of a packet or a field to the name with this key, after all others. A new name costs one search.
fn insert<'f, 'a>(
    named: &mut BTreeMap<(u64, &'a [u8]), Declared<'f, 'a>>,
    key: (u64, &'a [u8]),
    declared: Declared<'f, 'a>,
) -> Result<(), AllocError>
    requires { key.0 ≡ spread key.1.now }
    ensures { OnOk result ((text : List ℕ) →
        at_name named.new text ≡ joined (at_name named.old text)
        (cond (bytes_eq key.entry.1.now text) (Some declared.entry) None)) }
{
    if let Some(before) = named.insert(key, declared)? {
        named.insert(key, before.with(declared))?;
    }
    Ok(())
}

/// Stores the place for the name with this key, unless a lesser one is stored. A new name costs one search.
fn insert_least<'a>(
    map: &mut BTreeMap<(u64, &'a [u8]), usize>,
    key: (u64, &'a [u8]),
    place: usize,
) -> Result<(), AllocError>
    requires { key.0 ≡ spread key.1.now }
    ensures { OnOk result ((text : List ℕ) (at : ℕ) →
        is_before (at_name map.new text) at ≡
        (is_before (at_name map.old text) at ||
        (bytes_eq key.entry.1.now text && nat_lt place at))) }
{
    if let Some(least) = map.insert(key, place)? {
        map.insert(key, least.min(place))?;
    }
    Ok(())
}

impl<'f, 'a> Index<'f, 'a> {
    /// The index of no items.
    pub fn empty(alloc: Global) -> Index<'f, 'a>
        ensures { IsIndexOf result [] }
    {
        Index {
            named: BTreeMap::new(alloc),
            rules: BTreeMap::new(alloc),
        }
    }

    /// Adds the declaration of one more item.
    pub fn declare(&mut self, item: &'f Item<'a>) -> Result<(), AllocError>
        ensures { (items : List model.Item) → IsIndexOf self.old items →
            OnOk result (IsIndexOf self.new (items ++ item_of item.now ∷ [])) }
    {
        match item {
            Item::Packet(packet) => {
                let declared = Declared::by_packet(packet);
                insert(&mut self.named, key(packet.name.text), declared)?;
            }
            Item::Field(field) => {
                let declared = Declared::by_field(field);
                insert(&mut self.named, key(field.name.text), declared)?;
            }
            Item::Rule(rule) => insert_least(&mut self.rules, key(rule.name.text), rule.name.at)?,
        }
        Ok(())
    }
}
