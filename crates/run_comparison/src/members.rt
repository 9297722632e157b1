//! Records, requests and events as members of JSON objects.

use crate::json::{JsonText, JsonTextOrNull};
use crate::meaning::{EventMeaning, rule_number};
use crate::met::MetRecord;
use crate::requesters::RequestWords;
use packet_listing::{TextRules, Time};
use run_stepper::moment_of;
use std::fmt::{self, Display, Formatter, Write};

/// A record's number and time, as members of an object.
#[derive(Clone, Copy)]
pub struct PlaceMembers<'r>(pub &'r MetRecord);

impl Display for PlaceMembers<'_> {
    fn fmt<W: Write>(&self, f: &mut Formatter<W>) -> fmt::Result {
        let time = Time::at(moment_of(self.0.record.as_slice()));
        write!(f, "\"record\":{},\"time\":{time}", self.0.number)
    }
}

/// A request: its sequence, and the names of the rules that may have made it, as members of an object.
#[derive(Clone, Copy)]
pub struct RequestMembers<'a>(pub RequestWords<'a>);

impl Display for RequestMembers<'_> {
    fn fmt<W: Write>(&self, f: &mut Formatter<W>) -> fmt::Result {
        write!(f, "\"sequence\":{},\"rules\":[", self.0.sequence)?;
        let requesters = self.0.requesters();
        let mut sign = "";
        for number in 0..requesters.rule_count() {
            if let Some(name) = requesters.name(number) {
                write!(f, "{sign}{}", JsonText(name))?;
                sign = ",";
            }
        }
        f.write_char(']')
    }
}

/// An event: its sender, id, type and text, and the name of the rule that it is about, as members of an object.
#[derive(Clone, Copy)]
pub struct EventMembers<'a> {
    pub event: EventMeaning<'a>,
    pub rules: &'a [TextRules<'a>],
}

/// The name of the rule that an event is about.
fn rule_name<'a>(event: EventMeaning<'_>, rules: &'a [TextRules<'a>]) -> Option<&'a [u8]> {
    let number = rule_number(event.sender, event.id, event.text)?;
    Some(rules.first()?.rules.as_slice().get(number)?.name)
}

impl Display for EventMembers<'_> {
    fn fmt<W: Write>(&self, f: &mut Formatter<W>) -> fmt::Result {
        let event = self.event;
        write!(
            f,
            "\"sender\":{},\"id\":{},\"type\":\"{}\",\"text\":{},\"rule\":{}",
            JsonText(event.sender),
            event.id,
            event.kind.listed_word(),
            JsonText(event.text),
            JsonTextOrNull(rule_name(event, self.rules))
        )
    }
}
