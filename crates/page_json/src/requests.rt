//! The requests, with the samples that counted, and the events of a page's data.

use crate::json::{Item, Json};
use crate::value_names::{hold, level};
use bounded_history::Changes;
use run_summary::{
    Account, FieldValues, Left, Met, Part, Request, Sample, SeenEvent, ValueFrom, verdict,
};
use std::fmt::Write;

/// The texts of the row for what a comparison met: with a packet of the field, and without one.
const MET: &[&str] = &["[", ",", ",", ",\"", "\"]"];

const UNMET: &[&str] = &["[", ",null,null,\"", "\"]"];

/// What a comparison met.
fn put_met<W: Write>(json: &mut Json<'_, W>, part: Part, met: Met) {
    let value = Item::NumberIf(met.value);
    let verdict = Item::Word(verdict(part, met));
    match met.place {
        Some(place) => {
            let record = Item::Natural(place.record);
            json.member(MET, &[value, record, Item::Time(place.time), verdict])
        }
        None => json.member(UNMET, &[value, verdict]),
    }
}

/// What the comparisons of a sample met.
fn put_all_met<W: Write>(json: &mut Json<'_, W>, parts: &[Part], all: &[Met]) {
    for (number, met) in all.iter().enumerate() {
        if let Some(part) = parts.get(number) {
            put_met(json, *part, *met);
        }
    }
}

const SAMPLE: &[&str] = &["[", ",", ""];

/// The samples that counted for a request.
fn put_samples<W: Write>(json: &mut Json<'_, W>, parts: &[Part], samples: &[Sample]) {
    for sample in samples {
        let place = sample.place();
        let items = [Item::Natural(place.record), Item::Time(place.time)];
        json.member(SAMPLE, &items);
        json.open(",[");
        put_all_met(json, parts, sample.comparisons());
        json.text("]]");
    }
}

/// The rules that may have made a request, if it isn't known which did; and null where there are more.
fn put_one_of<W: Write>(json: &mut Json<'_, W>, request: &Request) {
    for rule in &request.one_of {
        json.member(ONE, &[Item::Natural(*rule as u64)]);
    }
    if request.are_more {
        json.member(ONE, &[Item::NaturalIf(None)]);
    }
}

/// Whether a list has entries that stand for several changes.
fn is_reduced(values: &[Changes], field: usize) -> bool {
    match values.get(field) {
        Some(list) => list.entries().iter().any(|entry| entry.changes > 1),
        None => false,
    }
}

const VALUE: &[&str] = &["[", ",", ",", "]"];

/// The newest values of a field.
fn put_newest<W: Write>(json: &mut Json<'_, W>, values: &[ValueFrom]) {
    for from in values {
        let items = [
            Item::Natural(from.place.record),
            Item::Time(from.place.time),
            Item::NumberIf(from.value),
        ];
        json.member(VALUE, &items);
    }
}

/// The newest values of the fields of a request whose lists don't have each value.
fn put_around<W: Write>(json: &mut Json<'_, W>, around: &[FieldValues], values: &[Changes]) {
    for newest in around {
        if is_reduced(values, newest.field) {
            json.member(AROUND, &[Item::Natural(newest.field as u64)]);
            json.open(",[");
            put_newest(json, newest.values.as_slice());
            json.text("]]");
        }
    }
}

const ONE: &[&str] = &[""];

const AROUND: &[&str] = &["[", ""];

/// The comparisons of the rule of a request.
fn parts_of<'a>(account: &'a Account<'_>, request: &Request) -> &'a [Part] {
    match request.rule {
        Some(rule) => account.parts(request.text, rule),
        None => &[],
    }
}

const REQUEST: &[&str] = &[
    "{\"packet\":",
    ",\"record\":",
    ",\"time\":",
    ",\"rule\":",
    ",\"text\":",
    ",\"sequence\":",
    ",\"count\":",
    ",\"event\":",
    ",\"held\":",
    ",\"counted\":",
    "",
];

/// A request, with the samples that counted.
fn put_request<W: Write>(
    json: &mut Json<'_, W>,
    account: &Account<'_>,
    values: &[Changes],
    request: &Request,
) {
    let items = [
        Item::Natural(request.packet),
        Item::Natural(request.place.record),
        Item::Time(request.place.time),
        Item::RuleIf(request.rule),
        Item::TextIf(request.text),
        Item::Natural(request.sequence as u64),
        Item::Natural(request.count as u64),
        Item::NaturalIf(request.event),
        hold(request.hold()),
        Item::NumberIf(request.counted.map(i64::from)),
    ];
    json.member(REQUEST, &items);
    json.open(",\"one_of\":[");
    put_one_of(json, request);
    json.open("],\"samples\":[");
    put_samples(json, parts_of(account, request), request.samples.as_slice());
    json.open("],\"around\":[");
    put_around(json, request.around.as_slice(), values);
    json.text("]}")
}

/// Requests, in order.
fn put_some<W: Write>(
    json: &mut Json<'_, W>,
    account: &Account<'_>,
    values: &[Changes],
    requests: &[Request],
) {
    for request in requests {
        put_request(json, account, values, request);
    }
}

/// All requests that are kept, the newest last.
fn put_requests<W: Write>(json: &mut Json<'_, W>, account: &Account<'_>, values: &[Changes]) {
    let requests = account.sending.requests();
    let (from, before) = requests.last();
    put_some(json, account, values, requests.first());
    put_some(json, account, values, from);
    put_some(json, account, values, before);
    if let Some(request) = account.sending.newest() {
        put_request(json, account, values, request);
    }
}

const EVENT: &[&str] = &["[", ",", ",", ",", ",\"", "\",", ",\"", "\",\"", "\"]"];

/// Events, in order.
fn put_events<W: Write>(json: &mut Json<'_, W>, events: &[SeenEvent]) {
    for event in events {
        let items = [
            Item::Natural(event.packet),
            Item::Natural(event.place.record),
            Item::Time(event.place.time),
            Item::RuleIf(event.rule),
            Item::Text(event.sender.as_slice()),
            Item::Natural(event.id as u64),
            level(event.kind),
            Item::Text(event.text.as_slice()),
        ];
        json.member(EVENT, &items);
    }
}

const LEFT: &[&str] = &["[", ",", ",", "]"];

/// The number and the records of what is left out of a list.
pub fn put_left<W: Write>(json: &mut Json<'_, W>, left: Option<Left>) {
    match left {
        Some(left) => {
            let count = Item::Natural(left.count);
            json.row(
                LEFT,
                &[count, Item::Natural(left.from), Item::Natural(left.to)],
            )
        }
        None => json.text("null"),
    }
}

/// Requests and events, with how many are left out.
pub fn put_sent<W: Write>(json: &mut Json<'_, W>, account: &Account<'_>, values: &[Changes]) {
    put_requests(json, account, values);
    json.text("],\"requests_left_out\":");
    put_left(json, account.sending.requests().omission());
    json.open(",\"events\":[");
    let events = account.sending.events();
    let (from, before) = events.last();
    put_events(json, events.first());
    put_events(json, from);
    put_events(json, before);
    json.text("],\"events_left_out\":");
    put_left(json, events.omission())
}
