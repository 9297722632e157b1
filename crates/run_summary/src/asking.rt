//! Finds the rule that made a request, and the samples that counted for it.

use crate::about::{number_behind, rule_of};
use crate::place::{ACTIVE, PASSIVE, Stand, stand_in};
use crate::plans::{RulePlans, may_request, planned_at};
use crate::samples::{FailRun, Sample};
use crate::sent::{FIRST_RULE_EVENT, Sending};
use lc_model::packet::first_packet;
use packet_listing::{Event, Sent, read_packet};
use std::alloc::{AllocError, Global};

/// The most rules that are kept of those that may have made a request.
pub const MOST_MAY: usize = 8;

/// A request among the packets of a record: its sequence, and what the rule's event after it names, if it came.
#[derive(Clone, Copy)]
pub(crate) struct Ask {
    pub(crate) sequence: u16,
    /// The rule that the next packet names.
    pub(crate) named: Option<usize>,
    /// The failures in a row that the next packet names.
    pub(crate) fails: Option<u16>,
}

/// What a record tells of its requests.
#[derive(Drop)]
pub(crate) struct Asks {
    pub(crate) all: Vec<Ask>,
    /// The rules that were active before the record and are passive after it, in order, if they are exactly those that made its requests.
    pub(crate) askers: Option<Vec<usize>>,
    /// Whether the record had one sample, so that the requests came in the order of their rules.
    pub(crate) is_in_order: bool,
}

/// The rule that made a request, or those that may have made it.
#[derive(Drop)]
pub(crate) struct Askers {
    pub(crate) rule: Option<usize>,
    pub(crate) one_of: Vec<usize>,
    /// Whether there are more than these.
    pub(crate) are_more: bool,
}

/// Whether a rule was active before a record and is passive after it.
pub(crate) fn has_asked(now: Stand, before: Stand) -> bool {
    now.state == PASSIVE && before.state == ACTIVE
}

/// The number of failures in a row that a rule's own event has in its text.
fn fails_in(text: &[u8]) -> Option<u16> {
    match number_behind(b", FailCount = ", text) {
        Some(fails) => u16::try_from(fails).ok(),
        None => None,
    }
}

/// The rule that a rule's own event names, and its failures in a row.
fn own_rule(event: Event<'_>) -> (Option<usize>, Option<u16>) {
    if event.id < FIRST_RULE_EVENT {
        return (None, None);
    }
    match rule_of(event.sender, event.id, event.text) {
        Some(rule) => (Some(rule), fails_in(event.text)),
        None => (None, None),
    }
}

/// The request for this sequence, which these packets of the record follow.
fn ask_of(sequence: u16, behind: &[u8]) -> Ask {
    let (named, fails) = match first_packet(behind) {
        None => (None, None),
        Some((packet, _)) => match read_packet(packet) {
            Some(Sent::Event(event)) => own_rule(event),
            _ => (None, None),
        },
    };
    Ask {
        sequence,
        named,
        fails,
    }
}

/// The requests among the packets of a record. The only error is a lack of memory.
pub(crate) fn asks_in(alloc: Global, packets: &[u8]) -> Result<Vec<Ask>, AllocError> {
    let mut asks = Vec::new(alloc);
    let mut rest = packets;
    for _ in 0..packets.len() {
        let Some((packet, behind)) = first_packet(rest) else {
            return Ok(asks);
        };
        if let Some(Sent::Request(sequence)) = read_packet(packet) {
            asks.push(ask_of(sequence, behind))?;
        }
        rest = behind;
    }
    Ok(asks)
}

/// The rules, less than `lanes`, that were active before a record and are passive after it. The only error is a lack of memory.
pub(crate) fn askers_in(
    alloc: Global,
    lanes: usize,
    before: &[Stand],
    stands: &[Stand],
) -> Result<Vec<usize>, AllocError> {
    let mut askers = Vec::new(alloc);
    for rule in 0..lanes {
        if has_asked(stand_in(stands, rule), stand_in(before, rule)) {
            askers.push(rule)?;
        }
    }
    Ok(askers)
}

/// Whether one of these requests is followed by the event of a rule.
fn is_named(asks: &[Ask], rule: usize) -> bool {
    asks.iter().any(|ask| ask.named == Some(rule))
}

/// One rule that is known.
fn known(alloc: Global, rule: usize) -> Askers {
    Askers {
        rule: Some(rule),
        one_of: Vec::new(alloc),
        are_more: false,
    }
}

impl Askers {
    /// Adds a rule that may have made the request. The only error is a lack of memory.
    fn add(&mut self, rule: usize) -> Result<(), AllocError> {
        if self.one_of.len() < MOST_MAY {
            self.one_of.push(rule)?;
        } else {
            self.are_more = true;
        }
        Ok(())
    }

    /// If only one rule may have made the request, it did.
    fn settle(self) -> Askers {
        let mut askers = self;
        if askers.one_of.len() == 1 && !askers.are_more {
            askers.rule = askers.one_of.pop();
        }
        askers
    }
}

/// Those of the rules `from` that may have requested this sequence, and that no event names. The only error is a lack of memory.
fn some_of(
    alloc: Global,
    plans: &[RulePlans],
    text: Option<usize>,
    asks: &[Ask],
    sequence: u16,
    from: &[usize],
) -> Result<Askers, AllocError> {
    let mut askers = Askers {
        rule: None,
        one_of: Vec::new(alloc),
        are_more: false,
    };
    for rule in from {
        if may_request(plans, text, *rule, sequence) && !is_named(asks, *rule) {
            askers.add(*rule)?;
        }
    }
    Ok(askers.settle())
}

/// Those of all rules of a text that request this sequence, and that no event names; none if the text isn't known. The only error is a
/// lack of memory.
fn any_of(
    alloc: Global,
    plans: &[RulePlans],
    text: Option<usize>,
    asks: &[Ask],
    sequence: u16,
    lanes: usize,
) -> Result<Askers, AllocError> {
    let mut rules = Vec::new(alloc);
    for rule in 0..lanes {
        if planned_at(plans, text, rule).is_some() {
            rules.push(rule)?;
        }
    }
    some_of(alloc, plans, text, asks, sequence, rules.as_slice())
}

/// The request of this number in its record; one for sequence 0 if there is none.
pub(crate) fn ask_at(asks: &Asks, number: usize) -> Ask {
    match asks.all.get(number) {
        Some(ask) => *ask,
        None => Ask {
            sequence: 0,
            named: None,
            fails: None,
        },
    }
}

/// The rule that made the request of this number in its record: the one that the rule's event after it names; or by the order of the
/// rules, if the record had one sample; or the only one that may have. Else those that may have. The only error is a lack of memory.
pub(crate) fn askers_of(
    alloc: Global,
    plans: &[RulePlans],
    text: Option<usize>,
    lanes: usize,
    asks: &Asks,
    number: usize,
) -> Result<Askers, AllocError> {
    let all = asks.all.as_slice();
    let Some(ask) = all.get(number) else {
        return any_of(alloc, plans, None, all, 0, 0);
    };
    if let Some(rule) = ask.named {
        return Ok(known(alloc, rule));
    }
    let Some(from) = &asks.askers else {
        return any_of(alloc, plans, text, all, ask.sequence, lanes);
    };
    match from.get(number) {
        Some(rule) if asks.is_in_order && may_request(plans, text, *rule, ask.sequence) => {
            Ok(known(alloc, *rule))
        }
        _ => some_of(alloc, plans, text, all, ask.sequence, from.as_slice()),
    }
}

/// The row of failures of a rule, if there is one.
pub(crate) fn row_asked(rows: &[FailRun], rule: Option<usize>) -> Option<&FailRun> {
    match rule {
        None => None,
        Some(rule) => rows.get(rule),
    }
}

/// A copy of the samples. The only error is a lack of memory.
fn copy_samples(alloc: Global, samples: &[Sample]) -> Result<Vec<Sample>, AllocError> {
    let mut copies = Vec::new(alloc);
    for sample in samples {
        copies.push(sample.same(alloc)?)?;
    }
    Ok(copies)
}

/// The samples that counted, if there is room for them and the text in force is known. The only error is a lack of memory.
pub(crate) fn samples_of(
    alloc: Global,
    row: Option<&FailRun>,
    text: Option<usize>,
    sending: &mut Sending,
) -> Result<Vec<Sample>, AllocError> {
    match row {
        None => Ok(Vec::new(alloc)),
        Some(row) => {
            let is_room = sending.take_parts(row.samples());
            if is_room && text.is_some() {
                return copy_samples(alloc, row.samples());
            }
            Ok(Vec::new(alloc))
        }
    }
}
