//! What the account lists of rule texts: their rules, and the message ids that they name.

ghost use Rattle.std.specs.Prelude.{◌≡◌, IfOk, OnOk};
ghost use Rattle.std.specs.List.{AllByRecursion};
ghost use Rattle.run_account.specs.Counts.{none_counted};

use crate::counts::{RuleCounts, RuleRow};
use crate::packets::PacketCount;
use lc_model::{Cond, Rule};
use rpn_compiler::RuleText;
use rule_parser::{Item, PacketItem};
use std::alloc::{AllocError, Global};

/// The number of rules in the text with the most rules.
pub fn most_rules(texts: &[RuleText<'_>]) -> usize {
    let mut most = 0usize;
    for text in texts {
        most = most.max(text.rules.rules.as_slice().len());
    }
    most
}

/// Adds the rows of this number of rules of a text. The only error is a lack of memory.
fn push_rows(text: usize, count: usize, rows: &mut Vec<RuleRow>) -> Result<(), AllocError>
    ensures { AllByRecursion (λ row. row.counts ≡ none_counted) rows.old.items →
        OnOk result (AllByRecursion (λ row. row.counts ≡ none_counted) rows.new.items) }
{
    for rule in 0..count {
        rows.push(RuleRow {
            text,
            rule,
            counts: RuleCounts::none(),
        })?;
    }
    Ok(())
}

/// The rows of all rules of these texts, text by text, before the first record. The only error is a lack of memory.
pub fn rows_of(alloc: Global, texts: &[RuleText<'_>]) -> Result<Vec<RuleRow>, AllocError>
    ensures { IfOk result (λ rows. AllByRecursion (λ row. row.counts ≡ none_counted) rows.items) }
{
    let mut rows = Vec::new(alloc);
    for (text, source) in texts.iter().enumerate() {
        push_rows(text, source.rules.rules.as_slice().len(), &mut rows)?;
    }
    Ok(rows)
}

/// Adds a message id, unless it is there. The only error is a lack of memory.
fn push_mid(mid: u16, counts: &mut Vec<PacketCount>) -> Result<(), AllocError>
    ensures { AllByRecursion (λ count. count.packets ≡ 0) counts.old.items →
        OnOk result (AllByRecursion (λ count. count.packets ≡ 0) counts.new.items) }
{
    if !counts.iter().any(|count| count.mid == mid) {
        counts.push(PacketCount { mid, packets: 0 })?;
    }
    Ok(())
}

/// The message id of a packet's declaration; 0 if it has more than 16 bits, which no text that compiles has.
fn mid_of(packet: &PacketItem<'_>) -> u16 {
    u16::try_from(packet.mid.value).unwrap_or(0)
}

/// Adds the message ids that a text names, each once. The only error is a lack of memory.
fn add_packets(text: &RuleText<'_>, counts: &mut Vec<PacketCount>) -> Result<(), AllocError>
    ensures { AllByRecursion (λ count. count.packets ≡ 0) counts.old.items →
        OnOk result (AllByRecursion (λ count. count.packets ≡ 0) counts.new.items) }
{
    for item in &text.file.items {
        if let Item::Packet(packet) = item {
            push_mid(mid_of(packet), counts)?;
        }
    }
    Ok(())
}

/// The message ids that these texts name, in the order of their declarations, before the first record. The only error is a lack of
/// memory.
pub fn packets_of(alloc: Global, texts: &[RuleText<'_>]) -> Result<Vec<PacketCount>, AllocError>
    ensures { IfOk result
        (λ counts. AllByRecursion (λ count. count.packets ≡ 0) counts.items) }
{
    let mut counts = Vec::new(alloc);
    for text in texts {
        add_packets(text, &mut counts)?;
    }
    Ok(counts)
}

/// The name that a text gives the packet with this message id, if it does.
pub fn packet_name<'a>(text: &RuleText<'a>, mid: u16) -> Option<&'a [u8]> {
    for item in &text.file.items {
        if let Item::Packet(packet) = item {
            if mid_of(packet) == mid {
                return Some(packet.name.text);
            }
        }
    }
    None
}

/// Whether a condition compares a field of packets with this message id.
pub fn reads(condition: &Cond, mid: u16) -> bool {
    match condition {
        Cond::Watch(term) => term.mid == mid,
        Cond::Not(operand) => reads(operand, mid),
        Cond::And(operands) | Cond::Or(operands) | Cond::Xor(operands) => {
            reads(&operands.0, mid) || reads(&operands.1, mid)
        }
    }
}

/// The rule with this number of the text with this number, if there is one.
pub fn rule_at<'f>(texts: &'f [RuleText<'_>], text: usize, rule: usize) -> Option<&'f Rule> {
    texts.get(text)?.rules.rules.as_slice().get(rule)
}
