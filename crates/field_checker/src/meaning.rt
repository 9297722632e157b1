//! The rules that items without a fault mean.

ghost use Rattle.std.specs.Prelude.{◌≡◌, ◌<◌, ◌^◌, [], Some, IfOk, nat_abs, option_map};
ghost use Rattle.std.specs.Option.{option_map_or};
ghost use Rattle.lc_model.specs.Condition.{Watch, condition_of};
ghost use Rattle.lc_model.specs.Rule as model;
ghost use Rattle.lc_model.specs.Rule.{rules_of};
ghost use Rattle.lc_model.specs.Text.Meaning as meaning;
ghost use Rattle.lc_model.specs.Text.Meaning.{condition_faults, condition_in, faults, named_rule, report_faults, rule_faults, rules_in, term_of};
ghost use Rattle.rule_parser.specs.Syntax.{comparison_of, expression_of, field_of, items_of, number_of, packet_of, report_of, rule_of};

use crate::names::Names;
use lc_model::{Bytes, Cond, ReportMaxima, Rule, Term};
use rule_parser::{
    Comparison, Expression, FieldItem, Item, Number, PacketItem, ReportItem, RuleItem,
};
use std::alloc::{AllocError, Global};

/// The bytes, as a value of their own.
fn bytes_of(alloc: Global, text: &[u8]) -> Result<Bytes, AllocError>
    ensures { IfOk result (λ bytes. bytes ≡ text.now) }
{
    Ok(Bytes::from_vec(text.to_vec(alloc)?))
}

/// A number that isn't negative, in 16 bits.
fn short(number: Number) -> u16
    requires { nat_abs number.value < 2 ^ 16 }
    ensures { result ≡ nat_abs number.value }
{
    number.value.unsigned_abs() as u16
}

/// A number's magnitude, in 32 bits.
fn magnitude(number: Number) -> u32
    ensures { result ≡ nat_abs number.value }
{
    number.value.unsigned_abs() as u32
}

/// The watchpoint of a comparison with a packet's field. If no mask is written it is all ones; if no stale age is written it is
/// 0, never.
fn watchpoint(field: &FieldItem, packet: &PacketItem, comparison: &Comparison) -> Term
    requires { nat_abs packet.now.mid.value < 2 ^ 16 }
    ensures { let c = comparison.now in
        result ≡ term_of (field_of field.now) c.op (number_of c.value) (packet_of packet.now) }
{
    Term {
        kind: field.kind,
        mid: short(packet.mid),
        offset: magnitude(field.offset),
        mask: field.mask.map_or(field.kind.full_mask(), magnitude),
        stale: field.stale.map_or(0, magnitude),
        op: comparison.op,
        value: comparison.value.value,
    }
}

/// The watchpoint that a comparison means.
fn term<'a>(names: &Names<'_, 'a>, comparison: &Comparison<'a>) -> Term
    requires accepted { faults (items_of names.now.items.now) ≡ [] }
    requires clean { condition_faults (items_of names.now.items.now)
        (comparison_of comparison.now) ≡ [] }
    ensures { condition_in (items_of names.now.items.now) (comparison_of comparison.now) ≡
        Some (Watch result) }
{
    let field = names.field(comparison.field).unwrap();
    let packet = names.packet(field.packet).unwrap();
    watchpoint(field, packet, comparison)
}

/// The two conditions, in one box, with resolved names. It is a function of its own, so that a comparison needs no stack for
/// its locals.
#[cycle(conditions)]
fn operands<'a>(
    alloc: Global,
    names: &Names<'_, 'a>,
    first: &Expression<'a>,
    second: &Expression<'a>,
) -> Result<Box<(Cond, Cond)>, AllocError>
    requires accepted { faults (items_of names.now.items.now) ≡ [] }
    requires first { condition_faults (items_of names.now.items.now)
        (expression_of first.now) ≡ [] }
    requires second { condition_faults (items_of names.now.items.now)
        (expression_of second.now) ≡ [] }
    ensures first { IfOk result
        (λ found. condition_in (items_of names.now.items.now) (expression_of first.now) ≡
        Some (condition_of found.value.0)) }
    ensures second { IfOk result
        (λ found. condition_in (items_of names.now.items.now) (expression_of second.now) ≡
        Some (condition_of found.value.1)) }
{
    let first = condition(alloc, names, first)?;
    let second = condition(alloc, names, second)?;
    Ok(Box::new(alloc, (first, second))?)
}

/// The condition, with resolved names. The recursion is as deep as the condition.
#[cycle(conditions)]
fn condition<'a>(
    alloc: Global,
    names: &Names<'_, 'a>,
    expression: &Expression<'a>,
) -> Result<Cond, AllocError>
    requires accepted { faults (items_of names.now.items.now) ≡ [] }
    requires clean { condition_faults (items_of names.now.items.now)
        (expression_of expression.now) ≡ [] }
    ensures { IfOk result
        (λ cond. condition_in (items_of names.now.items.now) (expression_of expression.now) ≡
        Some (condition_of cond)) }
{
    match expression {
        Expression::Compare(comparison) => Ok(Cond::Watch(term(names, comparison))),
        Expression::Not(operand) => {
            let operand = condition(alloc, names, operand)?;
            Ok(Cond::Not(Box::new(alloc, operand)?))
        }
        Expression::And(both) => Ok(Cond::And(operands(alloc, names, &both.0, &both.1)?)),
        Expression::Or(both) => Ok(Cond::Or(operands(alloc, names, &both.0, &both.1)?)),
        Expression::Xor(both) => Ok(Cond::Xor(operands(alloc, names, &both.0, &both.1)?)),
    }
}

/// The most reports of each kind; 0 where they aren't written.
fn report(item: Option<ReportItem>) -> ReportMaxima
    requires { option_map_or report_faults (option_map report_of item) [] ≡ [] }
    ensures { result ≡ option_map_or meaning.report_of (option_map report_of item)
        (record { passive = 0; pass_to_fail = 0; fail_to_pass = 0 }) }
{
    match item {
        Some(item) => ReportMaxima {
            passive: item.passive.value.unsigned_abs() as u8,
            pass_to_fail: short(item.pass_to_fail),
            fail_to_pass: short(item.fail_to_pass),
        },
        None => ReportMaxima {
            passive: 0,
            pass_to_fail: 0,
            fail_to_pass: 0,
        },
    }
}

/// The rule that an item means.
fn rule<'a>(alloc: Global, names: &Names<'_, 'a>, item: &RuleItem<'a>) -> Result<Rule, AllocError>
    requires accepted { faults (items_of names.now.items.now) ≡ [] }
    requires clean { rule_faults (items_of names.now.items.now) (rule_of item.now) ≡ [] }
    ensures { IfOk result
        (λ rule. option_map (named_rule (rule_of item.now))
        (condition_in (items_of names.now.items.now) (expression_of item.now.condition)) ≡
        Some (model.rule_of rule)) }
{
    Ok(Rule {
        name: bytes_of(alloc, item.name.text)?,
        mode: item.mode,
        fails: short(item.fails),
        sequence: short(item.sequence),
        event_kind: item.event_kind,
        event_id: short(item.event_id),
        text: bytes_of(alloc, item.text)?,
        report: report(item.report),
        cond: condition(alloc, names, &item.condition)?,
    })
}

/// The rules that items without a fault mean, in the text's order. The error is a lack of memory.
pub(crate) fn rules(alloc: Global, names: &Names) -> Result<Vec<Rule>, AllocError>
    requires { faults (items_of names.now.items.now) ≡ [] }
    ensures { IfOk result
        (λ rules. rules_in (items_of names.now.items.now) (items_of names.now.items.now) ≡
        Some (rules_of rules.items)) }
{
    let mut rules = Vec::new(alloc);
    for item in names.items {
        if let Item::Rule(item) = item {
            rules.push(rule(alloc, names, item)?)?;
        }
    }
    Ok(rules)
}
