//! Prints what changed from one rule text to another.

use lc_model::Rule;
use lc_model::packet::{TELEMETRY_HEADERS, padded_message_id};
use rpn_compiler::RuleText;
use rule_changes::{Chance, ChangedParts, ConditionChange, RuleChange, Situation, changes};
use std::fs;

/// Prints packets: message id, size, and the bytes after the headers.
fn show_packets(rt: &HostRuntime, packets: &[Vec<u8>]) -> anyhow::Result<()> {
    for packet in packets {
        print!(rt; " {:04X}:{}[", padded_message_id(packet), packet.len())?;
        for byte in packet.iter().skip(TELEMETRY_HEADERS) {
            print!(rt; "{byte:02X}")?;
        }
        print!(rt; "]")?;
    }
    Ok(())
}

/// Prints a situation in the order of time.
fn show_situation(rt: &HostRuntime, what: &str, situation: &Situation) -> anyhow::Result<()> {
    print!(rt; "; {what} after")?;
    show_packets(rt, &situation.earlier)?;
    if situation.agings > 0 {
        print!(rt; " agings {}", situation.agings)?;
    }
    show_packets(rt, &situation.recent)
}

/// Prints whether one condition can be true where the other one is not.
fn show_chance(rt: &HostRuntime, what: &str, chance: &Chance) -> anyhow::Result<()> {
    match chance {
        Chance::Never => print!(rt; "; never {what}")?,
        Chance::Possible(situation) => show_situation(rt, what, situation)?,
        Chance::Unknown(reason) => print!(rt; "; {what}: unknown, {reason:?}")?,
    }
    Ok(())
}

/// Prints how a rule's conditions are related.
fn show_condition(rt: &HostRuntime, condition: &ConditionChange) -> anyhow::Result<()> {
    match condition {
        ConditionChange::Same => print!(rt; "same")?,
        ConditionChange::SameButForStaleAndError => print!(rt; "same but for stale and error")?,
        ConditionChange::FailsAlike => print!(rt; "fails at the same times")?,
        ConditionChange::FailsOnlyWhere(lost) => {
            print!(rt; "fails only where it failed")?;
            show_situation(rt, "lost", lost)?;
        }
        ConditionChange::FailsWherever(gained) => {
            print!(rt; "fails wherever it failed")?;
            show_situation(rt, "gained", gained)?;
        }
        ConditionChange::Differs { lost, gained } => {
            print!(rt; "differs")?;
            show_situation(rt, "lost", lost)?;
            show_situation(rt, "gained", gained)?;
        }
        ConditionChange::NotKnown { lost, gained } => {
            print!(rt; "not known")?;
            show_chance(rt, "lost", lost)?;
            show_chance(rt, "gained", gained)?;
        }
    }
    Ok(())
}

/// Prints the parts of a rule that changed.
fn show_parts(rt: &HostRuntime, parts: ChangedParts) -> anyhow::Result<()> {
    if let Some((old, new)) = parts.mode {
        print!(rt; "; state {old:?} to {new:?}")?;
    }
    if let Some((old, new)) = parts.fails {
        print!(rt; "; fails {old} to {new}")?;
    }
    if let Some((old, new)) = parts.sequence {
        print!(rt; "; sequence {old} to {new}")?;
    }
    if let Some((old, new)) = parts.event_kind {
        print!(rt; "; event {old:?} to {new:?}")?;
    }
    if let Some((old, new)) = parts.event_id {
        print!(rt; "; event {old} to {new}")?;
    }
    if parts.is_text {
        print!(rt; "; other text")?;
    }
    if let Some((old, new)) = parts.report {
        print!(rt; "; report {old:?} to {new:?}")?;
    }
    Ok(())
}

/// Prints a rule's name.
fn show_name(rt: &HostRuntime, rule: &Rule) -> anyhow::Result<()> {
    print!(rt;
        "{}",
        String::from_utf8_lossy(rt.alloc(), rule.name.as_slice())?
    )?;
    Ok(())
}

/// Prints the name of the rule with this number.
fn show_name_of(rt: &HostRuntime, rules: &[Rule], number: usize) -> anyhow::Result<()> {
    match rules.get(number) {
        Some(rule) => show_name(rt, rule),
        None => Ok(()),
    }
}

/// Prints how a rule of the new text came about.
fn show_change(rt: &HostRuntime, old: &[Rule], change: &RuleChange) -> anyhow::Result<()> {
    match change {
        RuleChange::Kept {
            parts,
            condition,
            ..
        } => {
            show_condition(rt, condition)?;
            show_parts(rt, *parts)?;
        }
        RuleChange::Renamed { old: number } => {
            print!(rt; "was ")?;
            show_name_of(rt, old, *number)?;
        }
        RuleChange::New => print!(rt; "is new")?,
    }
    println!(rt; "")?;
    Ok(())
}

/// Prints what changed from one rule text to another.
pub fn show_changes(rt: &HostRuntime, before: &str, after: &str) -> anyhow::Result<()> {
    println!(rt; "{before} to {after}")?;
    let (source, other) = (fs::read(rt, before)?, fs::read(rt, after)?);
    let old = RuleText::read_valid(rt.alloc(), source.as_slice())?;
    let new = RuleText::read_valid(rt.alloc(), other.as_slice())?;
    let (old, new) = (&old.rules.rules, &new.rules.rules);
    let found = changes(rt.alloc(), old, new)?;
    for (rule, change) in new.as_slice().iter().zip(found.rules.iter()) {
        show_name(rt, rule)?;
        print!(rt; ": ")?;
        show_change(rt, old.as_slice(), change)?;
    }
    for number in &found.gone {
        show_name_of(rt, old.as_slice(), *number)?;
        println!(rt; ": is gone")?;
    }
    println!(rt; "every byte the same: {}", found.is_same)?;
    Ok(())
}
