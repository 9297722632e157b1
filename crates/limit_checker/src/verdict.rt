//! Verdicts on the images that are asked to be validated (cFE user's guide, table services: validation by the owner).

ghost use Rattle.std.specs.Prelude.{◌≡◌, ◌+◌, ◌≤◌, length, IsTrue, is_some, option_map};
ghost use Rattle.lc_model.specs.Codes.{kind_code};
ghost use Rattle.lc_model.specs.Events.Outgoing.{event_packet_size};
ghost use Rattle.lc_model.specs.Name.{lc_name};
ghost use Rattle.lc_model.specs.Services.Interface.{outgoing_room};
ghost use Rattle.lc_model.specs.Tables.Slot.{Asked, waiting_at};
ghost use Rattle.lc_model.specs.Services.Tables.{slot_at, slot_changed, table_at};
ghost use Rattle.app_host.specs.Telling.{Tells};
ghost use Rattle.limit_checker.specs.Sending.{MaySend};
ghost use Rattle.limit_checker.specs.Housekeeping.{fault_on_board, requested_by, requests_of, validation, verdict_seen};

use crate::telling::tell;
use crate::texts;
use app_host::Services;
use app_host::laws::seats_are_kept_by_the_rules;
use app_host::sending::telling_goes_on;
use lc_model::{EventKind, Kind, Seat};
use table_validator::{TableFault, validate};
use tbl_service::{Slot, Stage, Tables};

/// The verdict on a table's image.
#[derive(Clone, Copy)]
pub(crate) enum Verdict {
    /// No validation was asked for.
    Unasked,
    /// It has no fault.
    Sound,
    /// It has this fault.
    Faulty(TableFault),
}

/// The number of a table in events.
fn number_of(kind: Kind) -> u16
    ensures { result ≡ kind_code kind }
{
    match kind {
        Kind::Wdt => 1,
        Kind::Adt => 2,
    }
}

/// The verdict on a table's image that is asked to be validated.
fn verdict_on(tables: &Tables, slot: Slot, kind: Kind) -> Verdict
    requires { IsTrue (is_some (table_at slot tables.now.places)) }
    ensures { verdict_seen result ≡ option_map (fault_on_board kind)
        (waiting_at Asked (slot_at slot tables.now)) }
{
    match tables.pending(slot) {
        Some((Stage::Asked, image)) => match validate(kind, image) {
            Ok(_valid) => Verdict::Sound,
            Err(fault) => Verdict::Faulty(fault),
        },
        _other => Verdict::Unasked,
    }
}

/// Validates a table's image that is asked to be validated, and sets the verdict. Otherwise nothing changes.
pub(crate) fn judge(tables: &mut Tables, slot: Slot, kind: Kind) -> Verdict
    requires { IsTrue (is_some (table_at slot tables.old.places)) }
    ensures after { tables.new ≡ slot_changed (validation kind) slot tables.old }
    ensures requests { requests_of kind result ≡ requested_by kind (slot_at slot tables.old) }
{
    let verdict = verdict_on(tables, slot, kind);
    match verdict {
        Verdict::Unasked => {}
        Verdict::Sound => tables.set_verdict(slot, true),
        Verdict::Faulty(_fault) => tables.set_verdict(slot, false),
    }
    verdict
}

/// Reports the verdict on a table's image, if there is one: event 10 or 11.
pub(crate) fn tell_verdict(
    kind: Kind,
    verdict: Verdict,
    from: &Option<Seat>,
    services: &mut Services,
)
    requires sends { MaySend from.now services.old }
    requires room { length services.old.outgoing + event_packet_size ≤ outgoing_room }
    ensures told { Tells from.now lc_name (requests_of kind verdict) services.old services.new }
    ensures size { length services.new.outgoing ≤ length services.old.outgoing + event_packet_size }
{
    // For the proof: each call of the services keeps the rules of the interface, and the requests of several calls are sent in
    // order.
    seats_are_kept_by_the_rules();
    telling_goes_on();
    match verdict {
        Verdict::Unasked => {}
        Verdict::Sound => {
            let text = texts::table_valid(number_of(kind));
            tell(services, *from, 10, EventKind::Information, text.as_bytes());
        }
        Verdict::Faulty(fault) => {
            let code = u16::from(fault.code.number());
            let text = texts::table_invalid(number_of(kind), code, fault.entry);
            tell(services, *from, 11, EventKind::Error, text.as_bytes());
        }
    }
}
