//! The rules of texts, by what events and sequence requests say of them.

use crate::text_front::number_in;
use rpn_compiler::RuleText;
use rule_parser::{Item, RuleItem};
use std::alloc::{AllocError, Global};

/// The part of a rule's own event between the rule's text and its number.
const OF_RULE: &[u8] = b": AP = ";

/// The front of the Limit Checker's other events about a rule, before its number.
const ABOUT_RULE: &[u8] = b"actionpoint ";

/// The ids of the events by which the Limit Checker reports that a rule failed, or that its result changed.
const ABOUT_RULES: [u16; 4] = [3, 4, 5, 6];

/// A rule's name, and what it sends.
#[derive(Clone, Copy)]
pub struct RuleNames<'a> {
    pub name: &'a [u8],
    /// The id of its own event, and the text with which that begins.
    event: i64,
    text: &'a [u8],
    /// The command sequence that it requests.
    pub sequence: i64,
}

impl<'a> RuleNames<'a> {
    /// The name of a rule, and what it sends.
    fn of(rule: &RuleItem<'a>) -> RuleNames<'a> {
        RuleNames {
            name: rule.name.text,
            event: rule.event_id.value,
            text: rule.text,
            sequence: rule.sequence.value,
        }
    }
}

/// The rules of a text, in order: a rule's place here is its number.
#[derive(Drop)]
pub struct TextRules<'a> {
    pub rules: Vec<RuleNames<'a>>,
}

/// The rules of a text. Out of memory is the only error.
pub fn rules_of<'a>(alloc: Global, text: &RuleText<'a>) -> Result<TextRules<'a>, AllocError> {
    let mut rules = Vec::new(alloc);
    for item in &text.file.items {
        if let Item::Rule(rule) = item {
            rules.push(RuleNames::of(rule))?;
        }
    }
    Ok(TextRules { rules })
}

/// The rules of these texts, text by text. Out of memory is the only error.
pub fn rules_of_texts<'a>(
    alloc: Global,
    texts: &[RuleText<'a>],
) -> Result<Vec<TextRules<'a>>, AllocError> {
    let mut all = Vec::new(alloc);
    for text in texts {
        all.push(rules_of(alloc, text)?)?;
    }
    Ok(all)
}

/// The rule that an event is about, and what the event says apart from the rule's number.
#[derive(Clone, Copy)]
pub struct About<'r, 't> {
    /// The number of the rule's text.
    pub of: usize,
    pub name: &'r [u8],
    /// The rule's own text; empty for an event of the Limit Checker about a rule.
    pub text: &'r [u8],
    /// What follows the rule's number.
    pub rest: &'t [u8],
}

/// This rule, with this number, if the event is its own.
fn own_event<'r, 't>(
    of: usize,
    rule: &RuleNames<'r>,
    number: usize,
    id: u16,
    text: &'t [u8],
) -> Option<About<'r, 't>> {
    if rule.event != i64::from(id) {
        return None;
    }
    let (place, rest) = number_in(text.strip_prefix(rule.text)?.strip_prefix(OF_RULE)?)?;
    if place != number {
        return None;
    }
    Some(About {
        of,
        name: rule.name,
        text: rule.text,
        rest,
    })
}

/// The rule that an event of the Limit Checker names by its number; `None` for another event, or without a rule of this number.
fn about_rule<'r, 't>(
    of: usize,
    rules: &[RuleNames<'r>],
    id: u16,
    text: &'t [u8],
) -> Option<About<'r, 't>> {
    if !ABOUT_RULES.contains(&id) {
        return None;
    }
    let (number, rest) = number_in(text.strip_prefix(ABOUT_RULE)?)?;
    Some(About {
        of,
        name: rules.get(number)?.name,
        text: b"",
        rest: rest.strip_prefix(b" ")?,
    })
}

/// The rule of one text that an event of the Limit Checker is about; `None` if it is about none of them.
fn spoken_in<'r, 't>(
    of: usize,
    rules: &[RuleNames<'r>],
    id: u16,
    text: &'t [u8],
) -> Option<About<'r, 't>> {
    for (number, rule) in rules.iter().enumerate() {
        let found = own_event(of, rule, number, id, text);
        if found.is_some() {
            return found;
        }
    }
    about_rule(of, rules, id, text)
}

/// The rule that an event of the Limit Checker is about, of the first text that has it; `None` if no text has it, or if texts give it
/// different names.
pub fn spoken_of<'r, 't>(
    texts: &[TextRules<'r>],
    id: u16,
    text: &'t [u8],
) -> Option<About<'r, 't>> {
    let mut first: Option<About<'r, 't>> = None;
    for (of, rules) in texts.iter().enumerate() {
        let found = spoken_in(of, rules.rules.as_slice(), id, text);
        match (first, found) {
            (None, Some(_)) => first = found,
            (Some(one), Some(other)) if one.name != other.name => return None,
            _ => {}
        }
    }
    first
}
