//! Sends the requests and events of sampled rules, in order (cFS Limit Checker user's guide).

ghost use Rattle.std.specs.Prelude.{◌≡◌, ◌+◌, ◌<◌, ◌≤◌, length, slice_get, Some};
ghost use Rattle.lc_model.specs.Codes.{rule_text_size};
ghost use Rattle.lc_model.specs.Name.{lc_name};
ghost use Rattle.lc_model.specs.Rule.{Actionpoint};
ghost use Rattle.lc_model.specs.Services.Interface.{outgoing_room};
ghost use Rattle.app_host.specs.Telling.{Tells};
ghost use Rattle.limit_engine.specs.Reactions.{failure_requests, requests_at, requests_in, requests_of, turn_requests};
ghost use Rattle.limit_engine.specs.declared.reaction.Failure.TheVariants.{Requested};
ghost use Rattle.limit_checker.specs.Sending.{IsEventOf, MaySend, failure_size, largest_request, reactions_size, sizes, turn_size};

use crate::telling::tell;
use crate::texts;
use app_host::Services;
use app_host::laws::seats_are_kept_by_the_rules;
use app_host::sending::telling_goes_on;
use lc_model::{EventKind, Seat};
use limit_engine::{Asked, Engine, Failure, Reactions, RuleEvent, Turn};

/// Reports the turn of a rule, if there is one: event 5 or 6.
fn tell_turn(rule: u16, turn: Option<Turn>, from: &Option<Seat>, services: &mut Services)
    requires sends { MaySend from.now services.old }
    requires room { length services.old.outgoing + turn_size turn ≤ outgoing_room }
    ensures told { Tells from.now lc_name (turn_requests rule turn) services.old services.new }
    ensures size { length services.new.outgoing ≤ length services.old.outgoing + turn_size turn }
{
    // For the proof: each call of the services keeps the rules of the interface, and the requests of several calls are sent in
    // order.
    seats_are_kept_by_the_rules();
    telling_goes_on();
    match turn {
        None => {}
        Some(Turn::ToFail) => {
            let text = texts::turned_to_fail(rule);
            tell(services, *from, 5, EventKind::Information, text.as_bytes());
        }
        Some(Turn::ToPass) => {
            let text = texts::turned_to_pass(rule);
            tell(services, *from, 6, EventKind::Information, text.as_bytes());
        }
    }
}

/// Requests a rule's sequence, and then sends the rule's own event, with the number of its failures in a row.
fn request(rule: u16, run: u16, event: &RuleEvent<'_>, from: &Option<Seat>, services: &mut Services)
    requires sends { MaySend from.now services.old }
    requires short { length event.now.text.now < rule_text_size }
    requires room { length services.old.outgoing + largest_request ≤ outgoing_room }
    ensures told { (this : Actionpoint) → IsEventOf this event.now →
        Tells from.now lc_name (failure_requests this rule (Some (Requested run))) services.old
        services.new }
    ensures size { length services.new.outgoing ≤ length services.old.outgoing + largest_request }
{
    // For the proof: each call of the services keeps the rules of the interface, and the requests of several calls are sent in
    // order.
    seats_are_kept_by_the_rules();
    telling_goes_on();
    services.request_sequence(event.sequence);
    let text = texts::rule_failed(event.text, rule, run, event.sequence);
    tell(services, *from, event.id, event.kind, text.as_bytes());
}

/// Sends the reaction to enough failures in a row.
fn tell_failure(
    rule: u16,
    failure: Failure,
    event: &RuleEvent<'_>,
    from: &Option<Seat>,
    services: &mut Services,
)
    requires sends { MaySend from.now services.old }
    requires short { length event.now.text.now < rule_text_size }
    requires room { length services.old.outgoing + failure_size (Some failure) ≤ outgoing_room }
    ensures told { (this : Actionpoint) → IsEventOf this event.now →
        Tells from.now lc_name (failure_requests this rule (Some failure)) services.old
        services.new }
    ensures size { length services.new.outgoing ≤ length services.old.outgoing + failure_size
        (Some failure) }
{
    // For the proof: each call of the services keeps the rules of the interface.
    seats_are_kept_by_the_rules();
    match failure {
        Failure::Requested(run) => request(rule, run, event, from, services),
        Failure::LcPassive => {
            let text = texts::failed_lc_passive(rule);
            tell(services, *from, 3, EventKind::Information, text.as_bytes());
        }
        Failure::Passive => {
            let text = texts::failed_passive(rule);
            tell(services, *from, 4, EventKind::Information, text.as_bytes());
        }
    }
}

/// Sends all reactions of a sampled rule, the turn first.
#[inline(never)]
fn tell_reactions(
    rule: u16,
    reactions: Reactions,
    event: &RuleEvent<'_>,
    from: &Option<Seat>,
    services: &mut Services,
)
    requires sends { MaySend from.now services.old }
    requires short { length event.now.text.now < rule_text_size }
    requires room { length services.old.outgoing + reactions_size reactions ≤ outgoing_room }
    ensures told { (this : Actionpoint) → IsEventOf this event.now →
        Tells from.now lc_name (requests_of this rule reactions) services.old services.new }
    ensures size { length services.new.outgoing ≤ length services.old.outgoing + reactions_size
        reactions }
{
    // For the proof: the requests of several calls are sent in order.
    telling_goes_on();
    tell_turn(rule, reactions.turn, from, services);
    match reactions.failure {
        None => {}
        Some(failure) => tell_failure(rule, failure, event, from, services),
    }
}

/// Sends the reactions of one item of a sample.
fn tell_item(engine: &Engine, item: &Asked, from: &Option<Seat>, services: &mut Services)
    requires sends { MaySend from.now services.old }
    requires room { length services.old.outgoing + sizes
        (requests_at (slice_get engine.now.rules item.now.rule) item.now) ≤ outgoing_room }
    ensures told { Tells from.now lc_name
        (requests_at (slice_get engine.now.rules item.now.rule) item.now) services.old
        services.new }
    ensures size { length services.new.outgoing ≤ length services.old.outgoing + sizes
        (requests_at (slice_get engine.now.rules item.now.rule) item.now) }
    ensures sends { MaySend from.now services.new }
{
    // For the proof: the requests of several calls are sent in order.
    telling_goes_on();
    let index = usize::from(item.rule);
    if index < engine.rule_count() {
        let event = engine.rule_event(index);
        tell_reactions(item.rule, item.reactions, &event, from, services);
    }
}

/// Sends all reactions of a sample, in order.
pub(crate) fn tell_all(
    engine: &Engine,
    asked: &[Asked],
    from: &Option<Seat>,
    services: &mut Services,
)
    requires sends { MaySend from.now services.old }
    requires room { length services.old.outgoing + sizes
        (requests_in engine.now.rules asked.now) ≤ outgoing_room }
    ensures told { Tells from.now lc_name (requests_in engine.now.rules asked.now) services.old
        services.new }
    ensures size { length services.new.outgoing ≤ length services.old.outgoing + sizes
        (requests_in engine.now.rules asked.now) }
{
    // For the proof: the requests of several calls are sent in order.
    telling_goes_on();
    for item in asked {
        tell_item(engine, item, from, services);
    }
}
