//! The warnings about declarations.

ghost use Rattle.std.specs.Prelude.{◌≡◌, ◌++◌, [], IfOk, OnOk, length};
ghost use Rattle.std.specs.List.{list_any};
ghost use Rattle.lc_model.specs.Text.Meaning.{faults};
ghost use Rattle.rule_parser.specs.Syntax.{field_of, item_of, items_of, packet_of, rule_of};
ghost use Rattle.rule_lints.specs.Items.{declared, fields_of, has_id_before, is_debug, is_field_used, is_id_taken, is_packet_used, is_requested_before, is_rule, of_field, of_item, of_overlap, of_packet, of_rule, requests_before, uses_field, uses_packet, warn_by, warn_if};

use crate::fields::{DeclaredField, declared_in, fields_of, overlapped_by};
use crate::lint::Lint;
use crate::warning::Warning;
use analysis_listing::compares;
use lc_model::EventKind;
use rule_parser::{FieldItem, Item, PacketItem, RuleItem};
use std::alloc::{AllocError, Global};

/// Whether the item is a rule that compares the field of this name.
fn uses_field(item: &Item<'_>, name: &[u8]) -> bool
    ensures { result ≡ uses_field name.now (item_of item.now) }
{
    match item {
        Item::Rule(rule) => compares(&rule.condition, name),
        _ => false,
    }
}

/// Whether some rule compares the field of this name.
fn is_field_used(items: &[Item<'_>], name: &[u8]) -> bool
    ensures { result ≡ is_field_used (items_of items.now) name.now }
{
    for item in items {
        if uses_field(item, name) {
            return true;
        }
    }
    false
}

/// Whether the item is a field of the packet of this name that some rule compares.
fn uses_packet(items: &[Item<'_>], item: &Item<'_>, name: &[u8]) -> bool
    ensures { result ≡ uses_packet (items_of items.now) name.now (item_of item.now) }
{
    match item {
        Item::Field(field) => field.packet.text == name && is_field_used(items, field.name.text),
        _ => false,
    }
}

/// Whether some rule compares a field of the packet of this name.
fn is_packet_used(items: &[Item<'_>], name: &[u8]) -> bool
    ensures { result ≡ is_packet_used (items_of items.now) name.now }
{
    for item in items {
        if uses_packet(items, item, name) {
            return true;
        }
    }
    false
}

/// Whether the item is an earlier packet with the same message id as this packet.
fn has_id_before(packet: &PacketItem<'_>, item: &Item<'_>) -> bool
    ensures { result ≡ has_id_before (packet_of packet.now) (item_of item.now) }
{
    match item {
        Item::Packet(other) => other.mid.value == packet.mid.value
            && other.name.at < packet.name.at,
        _ => false,
    }
}

/// Whether an earlier packet has the same message id.
fn is_id_taken(items: &[Item<'_>], packet: &PacketItem<'_>) -> bool
    ensures { result ≡ is_id_taken (items_of items.now) (packet_of packet.now) }
{
    for item in items {
        if has_id_before(packet, item) {
            return true;
        }
    }
    false
}

/// Whether events of this type are off at first.
fn is_debug(kind: EventKind) -> bool
    ensures { result ≡ is_debug kind }
{
    matches!(kind, EventKind::Debug)
}

/// Whether the item is an earlier rule that requests the same sequence as this rule.
fn requests_before(rule: &RuleItem<'_>, item: &Item<'_>) -> bool
    ensures { result ≡ requests_before (rule_of rule.now) (item_of item.now) }
{
    match item {
        Item::Rule(other) => other.sequence.value == rule.sequence.value
            && other.sequence.at < rule.sequence.at,
        _ => false,
    }
}

/// Whether an earlier rule requests the same sequence.
fn is_requested_before(items: &[Item<'_>], rule: &RuleItem<'_>) -> bool
    ensures { result ≡ is_requested_before (items_of items.now) (rule_of rule.now) }
{
    for item in items {
        if requests_before(rule, item) {
            return true;
        }
    }
    false
}

/// Whether the item is a rule.
fn is_rule(item: &Item<'_>) -> bool
    ensures { result ≡ is_rule (item_of item.now) }
{
    matches!(item, Item::Rule(_))
}

/// Whether there is a rule.
fn has_rule(items: &[Item<'_>]) -> bool
    ensures { result ≡ list_any is_rule (items_of items.now) }
{
    for item in items {
        if is_rule(item) {
            return true;
        }
    }
    false
}

/// Adds this warning if the test is true.
pub(crate) fn warn_if(
    found: &mut Vec<Warning>,
    test: bool,
    lint: Lint,
    at: usize,
    about: usize,
) -> Result<(), AllocError>
    ensures { OnOk result (found.new.items ≡ found.old.items ++ warn_if test lint at about) }
{
    if test {
        found.push(Warning { lint, at, about })?;
    }
    Ok(())
}

/// Adds this warning, if there is another field that it is about.
fn warn_by(
    found: &mut Vec<Warning>,
    lint: Lint,
    at: usize,
    other: Option<DeclaredField>,
) -> Result<(), AllocError>
    ensures { OnOk result (found.new.items ≡ found.old.items ++ warn_by lint at other) }
{
    if let Some(other) = other {
        found.push(Warning {
            lint,
            at,
            about: other.at,
        })?;
    }
    Ok(())
}

/// Adds the warning of a field that overlaps an earlier one of these.
fn add_overlap(
    fields: &[DeclaredField],
    field: Option<DeclaredField>,
    found: &mut Vec<Warning>,
) -> Result<(), AllocError>
    ensures { OnOk result (found.new.items ≡ found.old.items ++ of_overlap fields.now field) }
{
    match field {
        Some(field) => {
            let other = overlapped_by(fields, &field);
            warn_by(found, Lint::OverlappingFields, field.at, other)
        }
        None => Ok(()),
    }
}

/// Adds the warnings of a packet.
fn add_packet(
    items: &[Item<'_>],
    packet: &PacketItem<'_>,
    found: &mut Vec<Warning>,
) -> Result<(), AllocError>
    ensures { OnOk result (found.new.items ≡
        found.old.items ++ of_packet (items_of items.now) (packet_of packet.now)) }
{
    let is_used = is_packet_used(items, packet.name.text);
    warn_if(found, !is_used, Lint::UnusedPacket, packet.name.at, 0)?;
    let is_taken = is_id_taken(items, packet);
    warn_if(found, is_taken, Lint::SameMessageId, packet.name.at, 0)
}

/// Adds the warnings of a field. All fields of the text are `fields`.
fn add_field(
    items: &[Item<'_>],
    fields: &[DeclaredField],
    field: &FieldItem<'_>,
    found: &mut Vec<Warning>,
) -> Result<(), AllocError>
    requires accepted { faults (items_of items.now) ≡ [] }
    requires all { fields.now ≡ fields_of (items_of items.now) }
    ensures { OnOk result (found.new.items ≡
        found.old.items ++ of_field (items_of items.now) (field_of field.now)) }
{
    let is_used = is_field_used(items, field.name.text);
    warn_if(found, !is_used, Lint::UnusedField, field.name.at, 0)?;
    add_overlap(fields, declared_in(items, field), found)
}

/// Adds the warnings of a rule.
fn add_rule(
    items: &[Item<'_>],
    rule: &RuleItem<'_>,
    found: &mut Vec<Warning>,
) -> Result<(), AllocError>
    ensures { OnOk result (found.new.items ≡
        found.old.items ++ of_rule (items_of items.now) (rule_of rule.now)) }
{
    warn_if(
        found,
        is_debug(rule.event_kind),
        Lint::DebugEvent,
        rule.name.at,
        0,
    )?;
    let is_requested = is_requested_before(items, rule);
    warn_if(found, is_requested, Lint::SameSequence, rule.sequence.at, 0)
}

/// Adds the warnings of an item. All fields of the text are `fields`.
fn add_item(
    items: &[Item<'_>],
    fields: &[DeclaredField],
    item: &Item<'_>,
    found: &mut Vec<Warning>,
) -> Result<(), AllocError>
    requires accepted { faults (items_of items.now) ≡ [] }
    requires all { fields.now ≡ fields_of (items_of items.now) }
    ensures { OnOk result (found.new.items ≡
        found.old.items ++ of_item (items_of items.now) (item_of item.now)) }
{
    match item {
        Item::Packet(packet) => add_packet(items, packet, found),
        Item::Field(field) => add_field(items, fields, field, found),
        Item::Rule(rule) => add_rule(items, rule, found),
    }
}

/// The warnings of all items of a text of `end` bytes, in its order.
pub(crate) fn declaration_warnings(
    alloc: Global,
    items: &[Item<'_>],
    end: usize,
) -> Result<Vec<Warning>, AllocError>
    requires { faults (items_of items.now) ≡ [] }
    ensures { IfOk result (λ found. found.items ≡ declared (items_of items.now) end) }
{
    let fields = fields_of(alloc, items)?;
    let mut found = Vec::new(alloc);
    warn_if(&mut found, !has_rule(items), Lint::NoRules, end, 0)?;
    for item in items {
        add_item(items, &fields, item, &mut found)?;
    }
    Ok(found)
}
