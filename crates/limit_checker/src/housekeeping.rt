//! Housekeeping requests (cFS Limit Checker user's guide: validation, adoption of tables, housekeeping).

ghost use Rattle.std.specs.Prelude.{◌≡◌, ◌+◌, ◌≤◌, ◌++◌, [], ◌∷◌, length, map};
ghost use Rattle.lc_model.specs.Command.{answer_of, bare_request};
ghost use Rattle.lc_model.specs.Events.Outgoing.{event_packet_size};
ghost use Rattle.lc_model.specs.Events.Request.{Housekeeping};
ghost use Rattle.lc_model.specs.Kept.Next.{by_counts};
ghost use Rattle.lc_model.specs.LimitChecker.Steps.{standing};
ghost use Rattle.lc_model.specs.Name.{lc_name};
ghost use Rattle.lc_model.specs.Packet.{function_code, message_id, payload, lc_housekeeping_request_mid, command_header_size};
ghost use Rattle.lc_model.specs.Services.Interface.{outgoing_room};
ghost use Rattle.app_host.specs.Telling.{Tells};
ghost use Rattle.limit_checker.specs.Application.{IsHome, MayHave, Answers};
ghost use Rattle.limit_checker.specs.Housekeeping.{adoption_requests, renewal_requests, MayRenew, Renews};
ghost use Rattle.limit_checker.specs.Sending.{MaySend, largest_renewal, largest_report};

use crate::adoption::adopt;
use crate::application::Application;
use crate::telling::tell;
use crate::texts;
use crate::verdict::{Verdict, judge, tell_verdict};
use app_host::Services;
use app_host::laws::seats_are_kept_by_the_rules;
use app_host::sending::telling_goes_on;
use lc_model::packet::function_code;
use lc_model::{CommandRefusal, EventKind, Kind, Seat};
use limit_engine::Engine;
use tbl_service::Slot;

/// The bytes of a request's headers. It has no payload.
const HEADERS: usize = 8;

/// The result of validation and adoption.
#[derive(Clone, Copy)]
pub(crate) struct Renewal {
    wdt: Verdict,
    adt: Verdict,
    /// A pair of tables came into force, with an activated image in it.
    adopted: bool,
}

/// Whether a packet is a housekeeping request: code 0, without a payload. Errors, the first that holds: `UnknownFunction`,
/// `WrongLength`.
fn check_request(packet: &[u8]) -> Result<(), CommandRefusal>
    requires { command_header_size ≤ length packet.now }
    ensures { answer_of result ≡ bare_request 0 (function_code packet.now) (payload packet.now) }
{
    if function_code(packet) != 0 {
        return Err(CommandRefusal::UnknownFunction);
    }
    if packet.len() != HEADERS {
        return Err(CommandRefusal::WrongLength);
    }
    Ok(())
}

/// Validates the images that are asked to be validated, the WDT's first, and then adopts the pair with an activated image, if
/// there is one that matches.
fn renew(engine: &mut Engine, services: &mut Services, seat: Seat) -> Renewal
    requires { MayRenew seat engine.old services.old }
    ensures { Renews seat engine.old engine.new services.old services.new result }
{
    let wdt = judge(&mut services.tables, Slot::new(seat, 0), Kind::Wdt);
    let adt = judge(&mut services.tables, Slot::new(seat, 1), Kind::Adt);
    let adopted = adopt(engine, services, seat);
    Renewal { wdt, adt, adopted }
}

/// Reports that new tables are in force: event 2.
fn tell_adoption(adopted: bool, from: &Option<Seat>, services: &mut Services)
    requires sends { MaySend from.now services.old }
    requires room { length services.old.outgoing + event_packet_size ≤ outgoing_room }
    ensures told { Tells from.now lc_name (adoption_requests adopted) services.old services.new }
    ensures size { length services.new.outgoing ≤ length services.old.outgoing + event_packet_size }
{
    // For the proof: each call of the services keeps the rules of the interface, and the requests of several calls are sent in
    // order.
    seats_are_kept_by_the_rules();
    telling_goes_on();
    if adopted {
        let text = texts::tables_adopted();
        tell(services, *from, 2, EventKind::Information, text.as_bytes());
    }
}

/// Reports validation and adoption: events 10, 11 and 2.
fn tell_renewal(renewal: &Renewal, from: &Option<Seat>, services: &mut Services)
    requires sends { MaySend from.now services.old }
    requires room { length services.old.outgoing + largest_renewal ≤ outgoing_room }
    ensures told { Tells from.now lc_name (renewal_requests renewal.now) services.old services.new }
    ensures size { length services.new.outgoing ≤ length services.old.outgoing + largest_renewal }
{
    // For the proof: the requests of several calls are sent in order.
    telling_goes_on();
    tell_verdict(Kind::Wdt, renewal.wdt, from, services);
    tell_verdict(Kind::Adt, renewal.adt, from, services);
    tell_adoption(renewal.adopted, from, services);
}

impl Application {
    /// Reports validation and adoption (events 10, 11 and 2), and then sends housekeeping (message id 0x08A7).
    fn report(&self, renewal: &Renewal, services: &mut Services)
        requires sends { MaySend self.now.seat services.old }
        requires room { length services.old.outgoing + largest_report ≤ outgoing_room }
        ensures told { Tells self.now.seat lc_name
            (renewal_requests renewal.now ++ Housekeeping self.now.engine.mode
            (map (standing by_counts) self.now.engine.points) ∷ []) services.old services.new }
        ensures size { length services.new.outgoing ≤
            length services.old.outgoing + largest_report }
    {
        // For the proof: the requests of several calls are sent in order.
        telling_goes_on();
        tell_renewal(renewal, &self.seat, services);
        self.tell_standing(services);
    }

    /// Handles a housekeeping request (message id 0x18A5): validates the images that are asked to be validated, adopts a
    /// matching pair with an activated image, reports this (events 10, 11 and 2), and then sends housekeeping (message id
    /// 0x08A7). A refused request: event 9.
    pub(crate) fn housekeeping(&mut self, services: &mut Services, packet: &[u8])
        requires home { IsHome self.old.seat self.old.engine services.old }
        requires given { MayHave self.old.seat packet.now services.old }
        requires kind { message_id packet.now ≡ lc_housekeeping_request_mid }
        ensures seat { self.new.seat ≡ self.old.seat }
        ensures answers { Answers self.old.seat self.old.engine self.new.engine packet.now
            services.old services.new }
    {
        // For the proof: each call of the services keeps the rules of the interface, and tables and files are within their
        // bounds, and no name is used twice.
        seats_are_kept_by_the_rules();
        services.tables.is_service();
        match check_request(packet) {
            Ok(()) => {
                let seat = self.seat.unwrap();
                let renewal = renew(&mut self.engine, services, seat);
                self.report(&renewal, services);
            }
            Err(refusal) => {
                let text = texts::command_refused(&[u16::from(refusal.code())]);
                tell(services, self.seat, 9, EventKind::Error, text.as_bytes());
            }
        }
    }
}
