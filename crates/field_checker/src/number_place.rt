//! Which of a rule text's numbers is out of its range at a place.

ghost use Rattle.std.specs.Prelude.{◌≡◌, ◌==◌, ◌&&◌, None, IfSome, option_map, true, false};
ghost use Rattle.rule_parser.specs.Syntax.{item_of, items_of, number_of};
ghost use Rattle.field_checker.specs.Number.{StandsOutside, is_out_of_range, number_in, stands_at};
ghost use Rattle.field_checker.specs.declared.number.RuleNumber as model;

use crate::number::RuleNumber;
use rule_parser::{Item, Number, RuleFile};

/// The number of this kind that an item has.
fn number_in(item: &Item, kind: RuleNumber) -> Option<Number>
    ensures { option_map number_of result ≡ number_in kind (item_of item.now) }
{
    match item {
        Item::Rule(rule) => match kind {
            RuleNumber::Fails => Some(rule.fails),
            RuleNumber::Sequence => Some(rule.sequence),
            RuleNumber::EventId => Some(rule.event_id),
            RuleNumber::ReportPassive => rule.report.map(|report| report.passive),
            RuleNumber::ReportPassToFail => rule.report.map(|report| report.pass_to_fail),
            RuleNumber::ReportFailToPass => rule.report.map(|report| report.fail_to_pass),
            RuleNumber::Stale => None,
        },
        Item::Field(field) => match kind {
            RuleNumber::Stale => field.stale,
            _ => None,
        },
        Item::Packet(_) => None,
    }
}

/// Whether the number is out of the range of its kind.
fn is_out_of_range(number: Number, kind: RuleNumber) -> bool
    ensures { result ≡ is_out_of_range kind (number_of number) }
{
    number.value < i64::from(kind.least()) || i64::from(kind.most()) < number.value
}

/// Whether the item has a number of this kind at this place, out of its range.
fn stands_at(item: &Item, kind: RuleNumber, at: usize) -> bool
    ensures { result ≡ stands_at kind at (item_of item.now) }
{
    match number_in(item, kind) {
        Some(number) => number.at == at && is_out_of_range(number, kind),
        None => false,
    }
}

/// Which number of the item is out of its range at this place.
fn number_of_item(item: &Item, at: usize) -> Option<RuleNumber>
    ensures found { IfSome result (λ number. stands_at number at (item_of item.now) ≡ true) }
    ensures absent { result ≡ None → (number : model.RuleNumber) → stands_at number at
        (item_of item.now) ≡ false }
{
    if stands_at(item, RuleNumber::Fails, at) {
        return Some(RuleNumber::Fails);
    }
    if stands_at(item, RuleNumber::Sequence, at) {
        return Some(RuleNumber::Sequence);
    }
    if stands_at(item, RuleNumber::EventId, at) {
        return Some(RuleNumber::EventId);
    }
    if stands_at(item, RuleNumber::ReportPassive, at) {
        return Some(RuleNumber::ReportPassive);
    }
    if stands_at(item, RuleNumber::ReportPassToFail, at) {
        return Some(RuleNumber::ReportPassToFail);
    }
    if stands_at(item, RuleNumber::ReportFailToPass, at) {
        return Some(RuleNumber::ReportFailToPass);
    }
    if stands_at(item, RuleNumber::Stale, at) {
        return Some(RuleNumber::Stale);
    }
    None
}

/// Which number of the items is out of its range at place `at`, the number of the text's bytes before it, as in
/// `CheckError::NumberRange`. `None` where no number at this place is out of its range.
pub fn number_at(file: &RuleFile, at: usize) -> Option<RuleNumber>
    ensures found { IfSome result
        (λ number. StandsOutside (items_of file.now.items.items) number at) }
    ensures absent { result ≡ None → (number : model.RuleNumber) →
        StandsOutside (items_of file.now.items.items) number at → ⊥ }
{
    for item in &file.items {
        let number = number_of_item(item, at);
        if number.is_some() {
            return number;
        }
    }
    None
}
