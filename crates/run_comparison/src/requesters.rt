//! The rules that may have requested a sequence.

use crate::meaning::rule_number;
use lc_model::packet::first_packet;
use packet_listing::{Sent, TextField, TextRules, read_packet};
use std::fmt::{self, Display, Formatter, Write};

/// A request with the packets of its record and the rules of the text in force, if one is; it displays as `sequence 7 (LOW)`.
#[derive(Clone, Copy)]
pub struct RequestWords<'a> {
    pub sequence: u16,
    pub packets: &'a [u8],
    pub rules: &'a [TextRules<'a>],
}

/// The names of the rules that may have made a request.
#[derive(Clone, Copy)]
pub struct Requesters<'a> {
    request: RequestWords<'a>,
    /// The number of the rule, if its own event decides it.
    decided: Option<usize>,
}

impl<'a> RequestWords<'a> {
    /// The number of rules.
    fn rule_count(&self) -> usize {
        match self.rules {
            [only] => only.rules.len(),
            _ => 0,
        }
    }

    /// Whether the rule with this number requests the sequence.
    fn is_of(&self, number: usize) -> bool {
        match self.rules {
            [only] => match only.rules.as_slice().get(number) {
                Some(rule) => rule.sequence == i64::from(self.sequence),
                None => false,
            },
            _ => false,
        }
    }

    /// The name of the rule with this number.
    fn name(&self, number: usize) -> &'a [u8] {
        match self.rules {
            [only] => match only.rules.as_slice().get(number) {
                Some(rule) => rule.name,
                None => b"",
            },
            _ => b"",
        }
    }

    /// The number of the rule of which a packet is the own event, if that rule requests the sequence.
    fn rule_in(&self, packet: &[u8]) -> Option<usize> {
        let event = match read_packet(packet) {
            Some(Sent::Event(event)) => event,
            _ => return None,
        };
        if event.id < 1_000 {
            return None;
        }
        let number = rule_number(event.sender, event.id, event.text)?;
        if self.is_of(number) {
            Some(number)
        } else {
            None
        }
    }

    /// Whether a packet is such a request.
    fn is_in(&self, packet: &[u8]) -> bool {
        match read_packet(packet) {
            Some(Sent::Request(sequence)) => sequence == self.sequence,
            _ => false,
        }
    }

    /// The rule that made the request, if the record has one such request and one own event of a rule that requests the sequence.
    fn decided(&self) -> Option<usize> {
        let (mut requests, mut events) = (0usize, 0usize);
        let mut number = 0usize;
        let mut rest = self.packets;
        while let Some((packet, others)) = first_packet(rest) {
            if self.is_in(packet) {
                requests = requests.saturating_add(1);
            }
            if let Some(rule) = self.rule_in(packet) {
                events = events.saturating_add(1);
                number = rule;
            }
            rest = others;
        }
        if requests == 1 && events == 1 {
            Some(number)
        } else {
            None
        }
    }

    /// The rules that may have made it.
    pub fn requesters(self) -> Requesters<'a> {
        Requesters {
            request: self,
            decided: self.decided(),
        }
    }
}

impl<'a> Requesters<'a> {
    /// The number of rules among which they are.
    pub fn rule_count(&self) -> usize {
        self.request.rule_count()
    }

    /// The name of the rule with this number, if it may have made the request.
    pub fn name(&self, number: usize) -> Option<&'a [u8]> {
        let is_one = match self.decided {
            Some(decided) => decided == number,
            None => self.request.is_of(number),
        };
        if is_one {
            Some(self.request.name(number))
        } else {
            None
        }
    }

    /// How many there are.
    fn count(&self) -> usize {
        let mut count = 0usize;
        for number in 0..self.rule_count() {
            if self.name(number).is_some() {
                count = count.saturating_add(1);
            }
        }
        count
    }
}

impl Display for Requesters<'_> {
    /// The names in parentheses, after a space: ` (LOW)`, ` (one of LOW, HOT)`; nothing without a name.
    fn fmt<W: Write>(&self, f: &mut Formatter<W>) -> fmt::Result {
        let mut sign = if self.count() > 1 { " (one of " } else { " (" };
        for number in 0..self.rule_count() {
            if let Some(name) = self.name(number) {
                write!(f, "{sign}{}", TextField(name))?;
                sign = ", ";
            }
        }
        if sign == ", " { write!(f, ")") } else { Ok(()) }
    }
}

impl Display for RequestWords<'_> {
    fn fmt<W: Write>(&self, f: &mut Formatter<W>) -> fmt::Result {
        write!(f, "sequence {}{}", self.sequence, self.requesters())
    }
}
