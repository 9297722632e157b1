//! What a run sent: the first and the last of its requests and events.

use crate::ends::Ends;
use crate::holds::{Hold, hold_unless};
use crate::place::{Place, is_place};
use crate::recent::FieldValues;
use crate::samples::Sample;
use lc_model::EventKind;
use std::alloc::{AllocError, Global};

/// The number of first, and of last, requests and events that are kept.
const REQUESTS: usize = 300;

const EVENTS: usize = 500;

/// The most `Met` values in all samples that are kept.
const PARTS: usize = 3_072;

/// The least number of a rule's own event.
pub(crate) const FIRST_RULE_EVENT: u16 = 1_000;

/// A request for a command sequence.
#[derive(Drop)]
pub struct Request {
    /// The number of its packet among those that the run wrote, counted from 1.
    pub packet: u64,
    /// The place of the record that led to it.
    pub place: Place,
    /// The number of the rule that made it, if it is known.
    pub rule: Option<usize>,
    /// The rules that may have made it, if it isn't known: the first eight of them.
    pub one_of: Vec<usize>,
    /// Whether more than these may have made it.
    pub are_more: bool,
    /// The number of the text in force, if it is known.
    pub text: Option<usize>,
    /// The number of the requested sequence.
    pub sequence: u16,
    /// The sequence count of its packet.
    pub count: u16,
    /// The packet number of the rule's event after it, if one came.
    pub event: Option<u64>,
    pub(crate) hold: Option<Hold>,
    /// The number of samples that counted for it, if it is known.
    pub counted: Option<u16>,
    /// The first three and the last three of these samples, or none.
    pub samples: Vec<Sample>,
    /// The newest values of the fields that the rule compares.
    pub around: Vec<FieldValues>,
}

/// An event that a run sent.
#[derive(Drop)]
pub struct SeenEvent {
    /// The number of its packet among those that the run wrote, counted from 1.
    pub packet: u64,
    /// The place of the record that led to it.
    pub place: Place,
    /// The number of the rule that it is about, if it is about one.
    pub rule: Option<usize>,
    /// The sender's name.
    pub sender: Vec<u8>,
    /// The event id.
    pub id: u16,
    /// The event's type.
    pub kind: EventKind,
    /// The event's text.
    pub text: Vec<u8>,
}

/// Whether two rules are the same, or both are unknown.
fn is_rule(one: Option<usize>, other: Option<usize>) -> bool {
    match one {
        None => other.is_none(),
        Some(one) => match other {
            None => false,
            Some(other) => one == other,
        },
    }
}

impl Request {
    /// What held back the rule's event; `None` if it came, or if the rule isn't known.
    pub fn hold(&self) -> Option<Hold> {
        hold_unless(self.event, self.hold)
    }

    /// Whether an event is the request's own.
    fn is_own(&self, event: &SeenEvent) -> bool {
        event.id >= FIRST_RULE_EVENT
            && is_place(self.place, event.place)
            && self.event.is_none()
            && is_rule(self.rule, event.rule)
    }

    /// The request after this event came.
    fn with_event(self, event: &SeenEvent) -> Request {
        let mut request = self;
        if request.is_own(event) {
            request.event = Some(event.packet);
        }
        request
    }

    fn record(&self) -> u64 {
        self.place.record
    }
}

impl SeenEvent {
    fn record(&self) -> u64 {
        self.place.record
    }
}

/// The newest request after this event came.
fn newest_with_event(newest: Option<Request>, event: &SeenEvent) -> Option<Request> {
    match newest {
        None => None,
        Some(request) => Some(request.with_event(event)),
    }
}

/// Adds a request. The only error is a lack of memory.
fn keep_request(requests: &mut Ends<Request>, request: Request) -> Result<(), AllocError> {
    let number = match requests.add(request)? {
        None => None,
        Some(gone) => Some(gone.record()),
    };
    requests.leave(number);
    Ok(())
}

/// Adds an event. The only error is a lack of memory.
fn keep_event(events: &mut Ends<SeenEvent>, event: SeenEvent) -> Result<(), AllocError> {
    let number = match events.add(event)? {
        None => None,
        Some(gone) => Some(gone.record()),
    };
    events.leave(number);
    Ok(())
}

/// Adds the request before the newest, if there is one. The only error is a lack of memory.
fn keep_before(requests: &mut Ends<Request>, request: Option<Request>) -> Result<(), AllocError> {
    match request {
        None => Ok(()),
        Some(request) => keep_request(requests, request),
    }
}

/// The number of `Met` values in samples, at most 2^64 - 1.
pub(crate) fn parts_in(samples: &[Sample]) -> usize {
    let mut parts = 0usize;
    for sample in samples {
        parts = parts.saturating_add(sample.comparisons().len());
    }
    parts
}

/// All that is kept of what was sent.
#[derive(Drop)]
pub struct Sending {
    requests: Ends<Request>,
    newest: Option<Request>,
    events: Ends<SeenEvent>,
    parts: usize,
}

impl Sending {
    pub(crate) fn new(alloc: Global) -> Sending {
        Sending {
            requests: Ends::new(alloc, REQUESTS, REQUESTS - 1),
            newest: None,
            events: Ends::new(alloc, EVENTS, EVENTS),
            parts: 0,
        }
    }

    /// All requests except the newest.
    pub fn requests(&self) -> &Ends<Request> {
        &self.requests
    }

    /// The newest request, if there is one.
    pub fn newest(&self) -> Option<&Request> {
        self.newest.as_ref()
    }

    /// The events.
    pub fn events(&self) -> &Ends<SeenEvent> {
        &self.events
    }

    /// Takes room for these samples' `Met` values, and returns whether there is any. After it returned false once, it always does.
    pub(crate) fn take_parts(&mut self, samples: &[Sample]) -> bool {
        self.parts = self.parts.saturating_add(parts_in(samples)).min(PARTS + 1);
        self.parts <= PARTS
    }

    /// Takes a request. The only error is a lack of memory.
    pub(crate) fn request(&mut self, request: Request) -> Result<(), AllocError> {
        let before = self.newest.replace(request);
        keep_before(&mut self.requests, before)
    }

    /// Takes an event. The first event of the rule that made the newest request becomes that request's event. The only error is a lack
    /// of memory.
    pub(crate) fn event(&mut self, event: SeenEvent) -> Result<(), AllocError> {
        self.newest = newest_with_event(self.newest.take(), &event);
        keep_event(&mut self.events, event)
    }
}
