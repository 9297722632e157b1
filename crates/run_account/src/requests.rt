//! The requests for samples that a record brings to the Limit Checker.

ghost use Rattle.std.specs.Prelude.{◌≡◌, ◌<◌, ℕ, [], false, true, option_map, slice_get, IsTrue, Some, not};
ghost use Rattle.lc_model.specs.LimitChecker.Steps.{is_disabled};
ghost use Rattle.schedules.specs.Entry.{entries_of, entry_of};
ghost use Rattle.run_account.specs.Samples.{are_taking, entry_request, entry_requests, has_sample, packet_request, point_result, requests_in, requests_of, result_of, sampled_from, standing_result};

use lc_model::packet::{COMMAND_HEADERS, message_id, stream_fault};
use lc_model::stream::HEADER;
use lc_model::{ApMode, ApResult, LcMode, SampleRequest, mids, sample_request};
use limit_engine::Engine;
use schedules::{Entry, Schedule};

/// The requests for samples that a record brings.
#[derive(Clone, Copy)]
pub enum Requests<'a> {
    /// None.
    Nothing,
    /// Those among the entries of a slot, which a tick published.
    Slot(&'a [Entry]),
    /// One: the only one of a slot, or one from the ground.
    One(SampleRequest),
}

/// Whether an entry of the schedule requests a sample that takes the rule with this number.
fn is_entry_taking(entry: Entry, rule: usize) -> bool
    ensures { result ≡ are_taking (entry_request (entry_of entry)) rule }
{
    match entry {
        Entry::Sample { first, last, ages } => SampleRequest { first, last, ages }.takes(rule),
        Entry::Housekeeping => false,
    }
}

/// Whether one of these entries requests a sample that takes the rule with this number.
pub fn are_entries_taking(entries: &[Entry], rule: usize) -> bool
    ensures { result ≡ are_taking (entry_requests (entries_of entries.now)) rule }
{
    for entry in entries {
        if is_entry_taking(*entry, rule) {
            return true;
        }
    }
    false
}

/// The request that a packet is, if it is a request for a sample that the host and the Limit Checker accept.
fn packet_request(packet: &[u8]) -> Option<SampleRequest>
    ensures { result ≡ packet_request packet.now }
{
    // Most packets are telemetry, so the id is looked at before the headers are judged.
    if packet.len() < COMMAND_HEADERS || message_id(packet) != mids::SAMPLE {
        return None;
    }
    if stream_fault(packet).is_some() {
        return None;
    }
    sample_request(packet).ok()
}

/// The requests for samples among the entries of a slot.
fn slot_requests(entries: &[Entry]) -> Requests<'_>
    ensures { requests_of result ≡ entry_requests (entries_of entries.now) }
{
    let mut found: Option<SampleRequest> = None;
    for entry in entries {
        if let Entry::Sample { first, last, ages } = *entry {
            if found.is_some() {
                return Requests::Slot(entries);
            }
            found = Some(SampleRequest { first, last, ages });
        }
    }
    match found {
        Some(request) => Requests::One(request),
        None => Requests::Nothing,
    }
}

/// The requests for samples that a record brings. `slot` is the slot of the schedule that the next tick publishes before the record;
/// none if no scheduler runs.
pub fn requests_in<'s>(schedule: &'s Schedule, slot: Option<usize>, bytes: &[u8]) -> Requests<'s>
    ensures { requests_of result ≡ requests_in schedule.now slot bytes.now }
{
    if bytes.len() < HEADER {
        return Requests::Nothing;
    }
    match (bytes[0], slot) {
        (1, _) => match packet_request(bytes.split_at(HEADER).1) {
            Some(request) => Requests::One(request),
            None => Requests::Nothing,
        },
        (2, Some(slot)) if slot < schedule.len() => slot_requests(schedule.entries(slot)),
        _ => Requests::Nothing,
    }
}

impl Requests<'_> {
    /// Whether there is no request, as far as a glance shows.
    pub fn is_nothing(&self) -> bool
        ensures { IsTrue result → requests_of self.now ≡ [] }
    {
        match self {
            Requests::Nothing => true,
            Requests::Slot(entries) => entries.is_empty(),
            Requests::One(_) => false,
        }
    }

    /// Whether one of them takes the rule with this number.
    pub fn takes(&self, rule: usize) -> bool
        ensures { result ≡ are_taking (requests_of self.now) rule }
    {
        match self {
            Requests::Nothing => false,
            Requests::Slot(entries) => are_entries_taking(entries, rule),
            Requests::One(request) => request.takes(rule),
        }
    }
}

/// Whether a Limit Checker in this mode samples.
pub(crate) fn is_mode_on(mode: LcMode) -> bool
    ensures { result ≡ not (is_disabled mode) }
{
    match mode {
        LcMode::Active | LcMode::Passive => true,
        LcMode::Disabled => false,
    }
}

/// The last result of the rule with this number, if it is sampled where a request takes it and the mode allows samples.
#[inline(always)]
fn point_result(engine: &Engine, rule: usize) -> Option<ApResult>
    ensures { result ≡ point_result (slice_get engine.now.points rule) }
{
    if engine.rule_count() <= rule {
        return None;
    }
    let standing = engine.standing(rule);
    match standing.state {
        ApMode::Active | ApMode::Passive => standing.last,
        ApMode::Disabled | ApMode::PermOff => None,
    }
}

/// The result that these requests led to for the rule with this number, in an engine after them whose mode allows samples.
#[inline(always)]
pub(crate) fn sampled_result(
    requests: &Requests<'_>,
    engine: &Engine,
    rule: usize,
) -> Option<ApResult>
    requires { is_disabled engine.now.mode ≡ false }
    ensures { result ≡ result_of (requests_of requests.now) (Some engine.now) rule }
{
    if requests.takes(rule) {
        point_result(engine, rule)
    } else {
        None
    }
}

/// The last result of the rule with this number, if it is sampled where a request takes it.
fn standing_result(engine: &Engine, rule: usize) -> Option<ApResult>
    ensures { result ≡ standing_result engine.now rule }
{
    if is_mode_on(engine.mode()) {
        point_result(engine, rule)
    } else {
        None
    }
}

/// The result that these requests led to for the rule with this number, in the engine after them; none if it was not sampled. Of two
/// samples in one record it is that of the last.
pub fn result_of(requests: &Requests<'_>, engine: Option<&Engine>, rule: usize) -> Option<ApResult>
    ensures { result ≡ result_of (requests_of requests.now)
        (option_map (λ engine. engine.now) engine.entry) rule }
{
    if !requests.takes(rule) {
        return None;
    }
    match engine {
        Some(engine) => standing_result(engine, rule),
        None => None,
    }
}

/// Whether these requests led to a result of some rule in this engine.
fn has_sampled(requests: &Requests<'_>, checker: &Engine) -> bool
    ensures { result ≡ sampled_from (requests_of requests.now) checker.now 0 checker.now.points }
{
    if !is_mode_on(checker.mode()) {
        return false;
    }
    for rule in 0..checker.rule_count() {
        if sampled_result(requests, checker, rule).is_some() {
            return true;
        }
    }
    false
}

/// Whether some rule was sampled: these requests led to a result of it, in the engine after them.
pub fn is_sampled(requests: &Requests<'_>, engine: Option<&Engine>) -> bool
    ensures { result ≡ has_sample (requests_of requests.now)
        (option_map (λ engine. engine.now) engine.entry) }
{
    if requests.is_nothing() {
        return false;
    }
    match engine {
        Some(checker) => has_sampled(requests, checker),
        None => false,
    }
}
