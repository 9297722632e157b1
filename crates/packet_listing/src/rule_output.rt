//! Requests and events as lines, with the names of rules and the words of commands.

use crate::command_word::{LIMIT_CHECKER, command_word};
use crate::display::TextField;
use crate::naming::{RuleNames, TextRules, spoken_of};
use crate::sent::{Event, Sent};
use std::fmt::{self, Display, Formatter, Write};

/// A rule's name, with the number of its text in front if there are several texts.
#[derive(Clone, Copy)]
struct RuleWord<'a> {
    text: Option<usize>,
    name: &'a [u8],
}

impl Display for RuleWord<'_> {
    fn fmt<W: Write>(&self, f: &mut Formatter<W>) -> fmt::Result {
        if let Some(text) = self.text {
            write!(f, "{text}:")?;
        }
        write!(f, "{}", TextField(self.name))
    }
}

/// The word for a rule of the text with this number.
fn word_in<'a>(texts: &[TextRules<'_>], text: usize, name: &'a [u8]) -> RuleWord<'a> {
    RuleWord {
        text: if texts.len() > 1 { Some(text) } else { None },
        name,
    }
}

/// Writes the rules of one text that request a sequence, with `sign` before the first of them. Returns the sign before a further one.
fn say_requesters_of<W: Write>(
    texts: &[TextRules<'_>],
    text: usize,
    rules: &[RuleNames<'_>],
    sequence: u16,
    sign: &'static str,
    f: &mut Formatter<W>,
) -> Result<&'static str, fmt::Error> {
    let mut sign = sign;
    for rule in rules {
        if rule.sequence == i64::from(sequence) {
            write!(f, "{sign}{}", word_in(texts, text, rule.name))?;
            sign = ", ";
        }
    }
    Ok(sign)
}

/// How many rules of these texts request the sequence of this number.
fn requester_count(texts: &[TextRules<'_>], sequence: u16) -> usize {
    let mut count = 0usize;
    for rules in texts {
        for rule in &rules.rules {
            if rule.sequence == i64::from(sequence) {
                count = count.saturating_add(1);
            }
        }
    }
    count
}

/// Writes the rules that request the sequence of this number, in parentheses, since one of them did; nothing if there are none.
pub fn say_requesters<W: Write>(
    texts: &[TextRules<'_>],
    sequence: u16,
    f: &mut Formatter<W>,
) -> fmt::Result {
    let mut sign = if requester_count(texts, sequence) > 1 {
        " (one of "
    } else {
        " ("
    };
    for (text, rules) in texts.iter().enumerate() {
        sign = say_requesters_of(texts, text, rules.rules.as_slice(), sequence, sign, f)?;
    }
    if sign == ", " { write!(f, ")") } else { Ok(()) }
}

/// Writes the part of an event's line after its type: its rule and the text without the rule's number, or the text and the word of the
/// command that was done.
pub fn say_event_text<W: Write>(
    texts: &[TextRules<'_>],
    sender: &[u8],
    id: u16,
    text: &[u8],
    f: &mut Formatter<W>,
) -> fmt::Result {
    let found = if sender == LIMIT_CHECKER {
        spoken_of(texts, id, text)
    } else {
        None
    };
    if let Some(rule) = found {
        return write!(
            f,
            " of {}: {}{}",
            word_in(texts, rule.of, rule.name),
            TextField(rule.text),
            TextField(rule.rest)
        );
    }
    write!(f, ": {}", TextField(text))?;
    match command_word(sender, id, text) {
        Some(word) => write!(f, " ({word})"),
        None => Ok(()),
    }
}

/// The content of a packet, and the rules of its run's texts; it displays as its line in a comparison of runs.
#[derive(Clone, Copy)]
pub struct RuleOutput<'a> {
    pub sent: Sent<'a>,
    pub texts: &'a [TextRules<'a>],
}

/// Writes an event: its sender, id, type and text.
fn say_event<W: Write>(
    texts: &[TextRules<'_>],
    event: Event<'_>,
    f: &mut Formatter<W>,
) -> fmt::Result {
    let sender = TextField(event.sender);
    let level = event.kind.listed_word();
    write!(f, "{sender} {} {level}", event.id)?;
    say_event_text(texts, event.sender, event.id, event.text, f)
}

impl Display for RuleOutput<'_> {
    fn fmt<W: Write>(&self, f: &mut Formatter<W>) -> fmt::Result {
        match self.sent {
            Sent::Request(sequence) => {
                write!(f, "sequence {sequence}")?;
                say_requesters(self.texts, sequence, f)
            }
            Sent::Event(event) => say_event(self.texts, event, f),
            Sent::Housekeeping {
                mode: _,
                count,
                rules: _,
            } => write!(f, "housekeeping of {count} rules"),
        }
    }
}
