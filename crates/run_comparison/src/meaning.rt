//! What requests and events mean, without the names and numbers of rules.

ghost use Rattle.std.specs.Prelude.{◌≡◌, ◌++◌, ◌+◌, ◌≤◌, ◌<◌, ◌∷◌, [], length, min, option_map, bytes_eq, IfOk, IfSome, OnOk, None};
ghost use Rattle.std.specs.List.{filter_map};
ghost use Rattle.lc_model.specs.Name.{lc_name};
ghost use Rattle.run_comparison.specs.Meaning.{Event, after_digits, all_held, event_cut, event_held, last_colon, meaning_in, meaning_of, meanings_in, number_place, of_held};

use lc_model::EventKind;
use lc_model::packet::first_packet;
use packet_listing::{Event, Sent, read_packet};
use std::alloc::{AllocError, Global};
use text_lines::{decimal_number, split_digits};

/// The length of `actionpoint `, after which the Limit Checker's events 3 to 6 have the number of a rule.
const ABOUT_RULE: usize = 12;

/// The length of `: AP = `, after which a rule's own event has its number.
const OF_RULE: usize = 7;

/// The most digits of a rule's number.
const MOST_DIGITS: usize = 5;

/// What an event means: its sender, id and type, and its text before and after the number of a rule.
#[derive(Clone, Copy)]
pub struct EventMeaning<'a> {
    pub sender: &'a [u8],
    pub id: u16,
    pub kind: EventKind,
    /// All of the text, which means nothing more.
    pub text: &'a [u8],
    pub before: &'a [u8],
    pub after: &'a [u8],
}

/// What a request or an event means.
#[derive(Clone, Copy)]
pub enum Meaning<'a> {
    /// A request for the command sequence with this number.
    Request(u16),
    /// An event.
    Event(EventMeaning<'a>),
}

/// Requests or events.
#[derive(Clone, Copy, Debug, PartialEq, Eq)]
pub enum Sort {
    Requests,
    Events,
}

/// Whether a sender is the Limit Checker.
fn is_checker(sender: &[u8]) -> bool
    ensures { result ≡ bytes_eq sender.now lc_name }
{
    let checker: &[u8] = b"LC";
    sender == checker
}

/// The place of the last colon of a text.
fn last_colon(text: &[u8]) -> Option<usize>
    ensures exact { result ≡ last_colon None 0 text.now }
    ensures inside { IfSome result (λ at. at < length text.now) }
{
    let mut found = None;
    for at in 0..text.len() {
        if text[at] == b':' {
            found = Some(at);
        }
    }
    found
}

/// The place of the number after the colon at this place, or the text's end if that comes first.
fn number_after(text: &[u8], colon: usize) -> usize
    requires { colon < length text.now }
    ensures { result ≡ min (colon + 7) (length text.now) }
{
    if text.len() - colon < OF_RULE {
        text.len()
    } else {
        colon + OF_RULE
    }
}

/// The place in an event's text at which the number of a rule stands; `None` for an event without one.
pub(crate) fn number_place(sender: &[u8], id: u16, text: &[u8]) -> Option<usize>
    ensures exact { result ≡ number_place sender.now id text.now }
    ensures inside { IfSome result (λ place. place ≤ length text.now) }
{
    if !is_checker(sender) {
        return None;
    }
    if 3 <= id && id <= 6 {
        return Some(ABOUT_RULE.min(text.len()));
    }
    if 1_000 <= id {
        return match last_colon(text) {
            Some(colon) => Some(number_after(text, colon)),
            None => None,
        };
    }
    None
}

/// The number of the rule that an event is about, if it is about one.
pub(crate) fn rule_number(sender: &[u8], id: u16, text: &[u8]) -> Option<usize> {
    let place = number_place(sender, id, text)?;
    let (_, rest) = text.split_at(place);
    let (digits, _) = split_digits(rest);
    Some(decimal_number(MOST_DIGITS, digits)? as usize)
}

/// A text without the digits at its front.
fn after_digits(text: &[u8]) -> &[u8]
    ensures { result.now ≡ after_digits text.now }
{
    let (_, after) = split_digits(text);
    after
}

/// What an event means.
fn event_meaning(event: Event<'_>) -> EventMeaning<'_>
    ensures { event_held result ≡ event_cut event.entry.sender.now event.entry.id event.entry.kind event.entry.text.now
        (number_place event.entry.sender.now event.entry.id event.entry.text.now) }
{
    let (before, after) = match number_place(event.sender, event.id, event.text) {
        Some(place) => {
            let (before, rest) = event.text.split_at(place);
            (before, after_digits(rest))
        }
        None => (event.text, &event.text[..0]),
    };
    EventMeaning {
        sender: event.sender,
        id: event.id,
        kind: event.kind,
        text: event.text,
        before,
        after,
    }
}

/// What a packet means, if it is a request or an event.
pub fn meaning_of(packet: &[u8]) -> Option<Meaning<'_>>
    ensures { option_map of_held result ≡ meaning_of packet.now }
{
    match read_packet(packet) {
        Some(Sent::Request(sequence)) => Some(Meaning::Request(sequence)),
        Some(Sent::Event(event)) => Some(Meaning::Event(event_meaning(event))),
        _ => None,
    }
}

/// What a packet means, if it is a request, or an event.
fn meaning_in(packet: &[u8], sort: Sort) -> Option<Meaning<'_>>
    ensures { option_map of_held result ≡ meaning_in sort packet.now }
{
    match (meaning_of(packet), sort) {
        (Some(Meaning::Request(sequence)), Sort::Requests) => Some(Meaning::Request(sequence)),
        (Some(Meaning::Event(event)), Sort::Events) => Some(Meaning::Event(event)),
        _ => None,
    }
}

/// Adds what a packet means, if it is a request, or an event.
fn push_meaning<'a>(
    all: &mut Vec<Meaning<'a>>,
    packet: &'a [u8],
    sort: Sort,
) -> Result<(), AllocError>
    ensures { OnOk result (all_held all.new.items ≡
        all_held all.old.items ++ filter_map (meaning_in sort) (packet.now ∷ [])) }
{
    if let Some(meaning) = meaning_in(packet, sort) {
        all.push(meaning)?;
    }
    Ok(())
}

/// What the requests, or the events, among packets mean that follow one another, in order. Out of memory is the only error.
pub fn meanings_of<'a>(
    alloc: Global,
    packets: &'a [u8],
    sort: Sort,
) -> Result<Vec<Meaning<'a>>, AllocError>
    ensures { IfOk result (λ all. all_held all.items ≡ meanings_in sort packets.now) }
{
    let mut all = Vec::new(alloc);
    let mut rest = packets;
    while let Some((packet, others)) = first_packet(rest) {
        push_meaning(&mut all, packet, sort)?;
        rest = others;
    }
    Ok(all)
}
