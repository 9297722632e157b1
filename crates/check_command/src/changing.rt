//! `changes OLD NEW`

use crate::change_words::{KeptRule, Parts};
use crate::situation_words::BothNames;
use analysis_listing::FieldNames;
use diagnostics::around;
use lc_model::Rule;
use rpn_compiler::RuleText;
use rule_changes::{
    ChangedParts, Changes, ConditionChange, RequestedSequence, RuleChange, SequenceChange, changes,
};
use rule_parser::{Item, RuleItem};
use std::alloc::{AllocError, Global};
use std::fs::Files;
use std::io::Write;
use tool_faults::{Fault, listing_result, read_text, rule_text_of};

/// A valid rule text with the name of its file.
#[derive(Clone, Copy)]
struct NamedText<'s, 't, 'a> {
    name: &'a str,
    text: &'s RuleText<'t>,
}

/// The two texts that are compared.
#[derive(Clone, Copy)]
struct BothTexts<'s, 't, 'a> {
    old: NamedText<'s, 't, 'a>,
    new: NamedText<'s, 't, 'a>,
    names: BothNames<'s>,
}

impl<'s, 't> NamedText<'s, 't, '_> {
    /// The rule with this number, from 0.
    fn rule(self, number: usize) -> Option<&'s Rule> {
        self.text.rules.rules.as_slice().get(number)
    }

    /// The item of the rule with this number.
    fn item(self, number: usize) -> Option<&'s RuleItem<'t>> {
        let mut left = number;
        for item in &self.text.file.items {
            if let Item::Rule(rule) = item {
                if left == 0 {
                    return Some(rule);
                }
                left -= 1;
            }
        }
        None
    }
}

/// The number of the line of a place, from 1.
fn line_number(text: &[u8], at: usize) -> usize {
    let before = text.iter().take(at);
    before
        .filter(|byte| **byte == b'\n')
        .count()
        .saturating_add(1)
}

/// Writes what changed of a rule, after its place and its name; nothing if there are no words.
fn write_rule<'a, W: Write>(
    text: NamedText<'_, '_, 'a>,
    number: usize,
    words: &str,
    out: &mut W,
) -> Result<(), Fault<'a>> {
    let Some(item) = text.item(number) else {
        return Ok(());
    };
    if words.is_empty() {
        return Ok(());
    }
    let line = line_number(text.text.bytes, item.name.at);
    listing_result(write!(out, "{}:{line}: ", text.name))?;
    listing_result(out.write_all(item.name.text))?;
    listing_result(writeln!(out, ": {words}"))
}

/// The words about a rule that both texts have, by its old and its new number; none if nothing changed.
fn kept_words(
    alloc: Global,
    texts: BothTexts<'_, '_, '_>,
    numbers: (usize, usize),
    changed: &ChangedParts,
    condition: &ConditionChange,
) -> Result<String, AllocError> {
    let mut parts = Parts::new(alloc);
    let (Some(old), Some(new)) = (texts.old.rule(numbers.0), texts.new.rule(numbers.1)) else {
        return Ok(parts.text);
    };
    KeptRule::of(alloc, texts.names, old, new)?.add_condition(condition, &mut parts)?;
    parts.add_parts(changed)?;
    parts.add_place(numbers.0, numbers.1)?;
    Ok(parts.text)
}

/// The words about a rule with another name, by its old and its new number.
fn renamed_words(
    alloc: Global,
    texts: BothTexts<'_, '_, '_>,
    numbers: (usize, usize),
) -> Result<String, AllocError> {
    let mut parts = Parts::new(alloc);
    if let Some(item) = texts.old.item(numbers.0) {
        let part = around(alloc, "is ", item.name.text, " with another name")?;
        parts.add(part.as_str())?;
    }
    parts.add_place(numbers.0, numbers.1)?;
    Ok(parts.text)
}

/// The words about a rule that only one text has.
fn lone_words(alloc: Global, before: &str, rule: Option<&Rule>) -> Result<String, AllocError> {
    match rule {
        Some(rule) => {
            let sequence = rule.sequence;
            format!(in alloc; "{before} sequence {sequence}")
        }
        None => Ok(String::new(alloc)),
    }
}

/// Writes how the rule of the new text with this number came about, if something changed.
fn write_change<'a, W: Write>(
    alloc: Global,
    texts: BothTexts<'_, '_, 'a>,
    number: usize,
    change: &RuleChange,
    out: &mut W,
) -> Result<(), Fault<'a>> {
    let words = match change {
        RuleChange::Kept {
            old,
            parts,
            condition,
        } => kept_words(alloc, texts, (*old, number), parts, condition)?,
        RuleChange::Renamed { old } => renamed_words(alloc, texts, (*old, number))?,
        RuleChange::New => lone_words(alloc, "is new, requests", texts.new.rule(number))?,
    };
    write_rule(texts.new, number, words.as_str(), out)
}

/// Whether a rule of the text requests this sequence.
fn has_sequence(text: NamedText<'_, '_, '_>, sequence: u16) -> bool {
    let rules = text.text.rules.rules.as_slice();
    rules.iter().any(|rule| rule.sequence == sequence)
}

/// Writes how often the new text requests a sequence; nothing if as often as the old one.
fn write_sequence<'a, W: Write>(
    texts: BothTexts<'_, '_, 'a>,
    listed: RequestedSequence,
    out: &mut W,
) -> Result<(), Fault<'a>> {
    let words = match listed.change {
        SequenceChange::Same => return Ok(()),
        _ if !has_sequence(texts.old, listed.sequence) => "is new",
        _ if !has_sequence(texts.new, listed.sequence) => "is requested no more",
        SequenceChange::NoMoreOften =>
            "comes no more often and no sooner, unless a command makes LC passive",
        SequenceChange::NoLessOften =>
            "comes no less often and no later, unless a command makes LC passive",
        SequenceChange::Unknown => "may come more often, or less",
    };
    let sequence = listed.sequence;
    listing_result(writeln!(out, "sequence {sequence}: {words}"))
}

/// Whether each rule's sequence is listed, as one that is requested at the same records. The rules are looked at and not the list, so
/// that a sequence that is not listed is never taken for the same.
fn are_same_for(text: NamedText<'_, '_, '_>, found: &Changes) -> bool {
    let rules = text.text.rules.rules.as_slice();
    rules.iter().all(|rule| {
        found.sequences.iter().any(|listed| {
            listed.sequence == rule.sequence && listed.change == SequenceChange::Same
        })
    })
}

/// Whether each sequence of both texts is requested at the same records.
fn are_requests_same(texts: BothTexts<'_, '_, '_>, found: &Changes) -> bool {
    are_same_for(texts.old, found) && are_same_for(texts.new, found)
}

/// What holds of every run without table files of the two texts.
fn last_line(texts: BothTexts<'_, '_, '_>, found: &Changes) -> &'static str {
    if found.is_same {
        "every byte is the same, without table files of these texts in the stream"
    } else if are_requests_same(texts, found) {
        "each sequence comes at the same records, without table files of these texts in the stream"
    } else {
        "requests may differ"
    }
}

/// Writes how each rule of the new text came about, which rules are gone, and how often sequences are requested.
fn write_changes<'a, W: Write>(
    alloc: Global,
    texts: BothTexts<'_, '_, 'a>,
    found: &Changes,
    out: &mut W,
) -> Result<(), Fault<'a>> {
    for (number, change) in found.rules.iter().enumerate() {
        write_change(alloc, texts, number, change, out)?;
    }
    for number in &found.gone {
        let words = lone_words(alloc, "is gone, requested", texts.old.rule(*number))?;
        write_rule(texts.old, *number, words.as_str(), out)?;
    }
    for listed in &found.sequences {
        write_sequence(texts, *listed, out)?;
    }
    let last = last_line(texts, found);
    listing_result(writeln!(out, "{last}"))?;
    listing_result(out.flush())
}

/// Lists what a valid rule text does differently from another one.
fn compare_valid<'s, 't, 'a, W: Write>(
    alloc: Global,
    old: NamedText<'s, 't, 'a>,
    new: NamedText<'s, 't, 'a>,
    out: &mut W,
) -> Result<(), Fault<'a>> {
    let old_names = FieldNames::of(alloc, old.text)?;
    let new_names = FieldNames::of(alloc, new.text)?;
    let names = BothNames {
        old: &old_names,
        new: &new_names,
    };
    let found = changes(alloc, &old.text.rules.rules, &new.text.rules.rules)?;
    let texts = BothTexts { old, new, names };
    write_changes(alloc, texts, &found, out)?;
    if found.is_same || are_requests_same(texts, &found) {
        Ok(())
    } else {
        Err(Fault::Differs)
    }
}

/// A rule text with the name of its file.
#[derive(Clone, Copy)]
struct TextSource<'t, 'a> {
    name: &'a str,
    bytes: &'t [u8],
}

/// Lists what a rule text does differently from another one. Errors: those of `compare_texts`, but for files.
fn compare_sources<'t, 'a, W: Write>(
    alloc: Global,
    old: TextSource<'t, 'a>,
    new: TextSource<'t, 'a>,
    out: &mut W,
) -> Result<(), Fault<'a>> {
    let before = rule_text_of(alloc, old.name, old.bytes)?;
    let after = rule_text_of(alloc, new.name, new.bytes)?;
    let old = NamedText {
        name: old.name,
        text: &before,
    };
    let new = NamedText {
        name: new.name,
        text: &after,
    };
    compare_valid(alloc, old, new, out)
}

/// Lists what the new rule text does differently, whatever packets come. Errors: `Rules` for a text that does not compile; `Differs` if
/// requests may differ; others are of files, output and memory.
pub fn compare_texts<'a, R: Files + AllocGlobal, W: Write>(
    rt: &R,
    old: &'a str,
    new: &'a str,
    out: &mut W,
) -> Result<(), Fault<'a>> {
    let before = read_text(rt, old)?;
    let after = read_text(rt, new)?;
    let old = TextSource {
        name: old,
        bytes: before.as_slice(),
    };
    let new = TextSource {
        name: new,
        bytes: after.as_slice(),
    };
    compare_sources(rt.alloc(), old, new, out)
}
