//! Requests and events of a record in words.

use crate::meaning::{EventMeaning, Meaning};
use crate::requesters::RequestWords;
use lc_model::Moment;
use packet_listing::{Event, RuleOutput, Sent, TextField, TextRules};
use std::fmt::{self, Display, Formatter, Write};

/// A request or an event with the packets of its record and the rules of the text in force, if one is; it displays as `sequence 7 (LOW)`
/// or `LC 1001 error of LOW: low volts, FailCount = 2, RTS = 7`.
#[derive(Clone, Copy)]
pub struct PacketWords<'a> {
    pub meaning: Meaning<'a>,
    pub packets: &'a [u8],
    pub rules: &'a [TextRules<'a>],
}

/// An event as its packet has it, but for its time.
fn sent_event(event: EventMeaning<'_>) -> Event<'_> {
    Event {
        moment: Moment {
            seconds: 0,
            subseconds: 0,
        },
        sender: event.sender,
        id: event.id,
        kind: event.kind,
        text: event.text,
    }
}

impl Display for PacketWords<'_> {
    fn fmt<W: Write>(&self, f: &mut Formatter<W>) -> fmt::Result {
        let PacketWords {
            meaning,
            packets,
            rules,
        } = *self;
        match meaning {
            Meaning::Request(sequence) => {
                let request = RequestWords {
                    sequence,
                    packets,
                    rules,
                };
                write!(f, "{request}")
            }
            Meaning::Event(event) => {
                let output = RuleOutput {
                    sent: Sent::Event(sent_event(event)),
                    texts: rules,
                };
                write!(f, "{output}")
            }
        }
    }
}

/// Requests or events in their order, short: the numbers of sequences, or senders and ids.
#[derive(Clone, Copy)]
pub struct OrderWords<'a> {
    pub all: &'a [Meaning<'a>],
}

impl Display for OrderWords<'_> {
    fn fmt<W: Write>(&self, f: &mut Formatter<W>) -> fmt::Result {
        let mut sign = "";
        for meaning in self.all {
            match meaning {
                Meaning::Request(sequence) => write!(f, "{sign}{sequence}")?,
                Meaning::Event(event) => write!(
                    f,
                    "{sign}{} {}",
                    TextField(event.sender),
                    event.id
                )?,
            }
            sign = ", ";
        }
        Ok(())
    }
}
