//! Judges the rule texts of `data/`, two of them also as tables and one by schedules, and what changed from one to another. It also makes 4,000 conditions at
//! random and compares their judgements with what trying all values shows.
#![tactic(auto)]

mod changing;
mod comparing;
mod making;
mod measuring;
mod random;
mod trying;

use crate::changing::show_changes;
use crate::comparing::Counts;
use crate::measuring::measure;
use analysis_listing::{LineChoice, list_actionpoints, list_outcomes};
use diagnostics::Message;
use rpn_compiler::{RuleText, compile};
use rule_lints::warnings;
use schedules::parse_schedule;
use std::{env, fs};

/// The texts, in the order in which they are judged.
const TEXTS: [&str; 3] = [
    "dead_rules.rules",
    "double_rules.rules",
    "shared_bits.rules",
];

/// Prints a warning, and what stands beside its place.
fn show_warning(rt: &HostRuntime, message: &Message) -> anyhow::Result<()> {
    if let (Some(name), Some(mark)) = (message.warning, &message.first) {
        let (head, label) = (&message.head, &mark.label);
        println!(rt; "warning[{name}]: {head}: {label}")?;
    }
    Ok(())
}

/// Prints the outcomes of a text's rules, and its warnings.
fn show(rt: &HostRuntime, name: &str) -> anyhow::Result<()> {
    println!(rt; "{name}")?;
    let source = fs::read(rt, name)?;
    let text = RuleText::read_valid(rt.alloc(), source.as_slice())?;
    list_outcomes(rt.alloc(), &text, &mut rt.stdout())?;
    for message in &warnings(rt.alloc(), &text, None)?.messages {
        show_warning(rt, message)?;
    }
    Ok(())
}

/// Prints the counts of one set of fields.
fn show_counts(rt: &HostRuntime, what: &str, counts: Counts) -> anyhow::Result<()> {
    let Counts {
        never,
        possible,
        unknown,
        never_unknown,
        same,
        follow,
        wrong,
    } = counts;
    println!(rt;
        "{what}: {never} never, {possible} possible, {unknown} unknown ({never_unknown} of them never)"
    )?;
    println!(rt; "{what}: {same} pairs the same, {follow} pairs follow, {wrong} wrong")?;
    Ok(())
}

/// Prints the rules of a text that a schedule never samples.
fn show_unsampled(rt: &HostRuntime, name: &str, schedule: &str) -> anyhow::Result<()> {
    println!(rt; "{name} by {schedule}")?;
    let source = fs::read(rt, name)?;
    let text = RuleText::read_valid(rt.alloc(), source.as_slice())?;
    let schedule = fs::read(rt, schedule)?;
    let schedule = parse_schedule(rt.alloc(), &schedule)?;
    for message in &warnings(rt.alloc(), &text, Some(&schedule))?.messages {
        if message.warning == Some("never-sampled") {
            show_warning(rt, message)?;
        }
    }
    Ok(())
}

/// Prints the judgement of the tables to which a text compiles.
fn show_tables(rt: &HostRuntime, name: &str) -> anyhow::Result<()> {
    println!(rt; "the tables of {name}")?;
    let source = fs::read(rt, name)?;
    let tables = compile(rt.alloc(), &source)?;
    list_actionpoints(
        rt.alloc(),
        &tables.wdt,
        &tables.adt,
        LineChoice::All,
        &mut rt.stdout(),
    )?;
    Ok(())
}

/// Prints the refusal of tables from two different texts.
fn show_apart(rt: &HostRuntime, name: &str, other: &str) -> anyhow::Result<()> {
    let (source, second) = (fs::read(rt, name)?, fs::read(rt, other)?);
    let tables = compile(rt.alloc(), &source)?;
    let others = compile(rt.alloc(), &second)?;
    let mut out = rt.stdout();
    if let Err(error) = list_actionpoints(
        rt.alloc(),
        &tables.wdt,
        &others.adt,
        LineChoice::Warnings,
        &mut out,
    ) {
        println!(rt; "{name} with {other}: {error}")?;
    }
    Ok(())
}

/// Prints all judgements, and then the counts.
fn show_all(rt: &HostRuntime) -> anyhow::Result<()> {
    for name in TEXTS {
        show(rt, name)?;
    }
    show_unsampled(rt, "double_rules.rules", "gaps.schedule")?;
    show_unsampled(rt, "double_rules.rules", "all.schedule")?;
    show_tables(rt, "dead_rules.rules")?;
    show_tables(rt, "shared_bits.rules")?;
    show_apart(rt, "dead_rules.rules", "double_rules.rules")?;
    show_changes(rt, "before.rules", "after.rules")?;
    show_changes(rt, "before.rules", "before.rules")?;
    show_counts(rt, "free fields", Counts::of_free_fields(rt.alloc())?)?;
    show_counts(rt, "shared bits", Counts::of_shared_bits(rt.alloc())?)
}

/// Without a word prints all judgements; with any word, such as `measure`, prints times.
fn main(rt: HostRuntime) -> anyhow::Result<()> {
    match env::args(&rt)?.nth(1) {
        Some(_) => measure(&rt),
        None => show_all(&rt),
    }
}
