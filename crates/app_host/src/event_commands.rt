//! Commands to the event services (cFE user's guide, event services).

ghost use Rattle.std.specs.Prelude.{◌≡◌, ◌≤◌, ◌==◌, length, take, OnErr};
ghost use Rattle.std.specs.List.{position_or_len};
ghost use Rattle.lc_model.specs.Name.{name_in};
ghost use Rattle.lc_model.specs.Packet.{function_code, payload, command_header_size};
ghost use Rattle.lc_model.specs.Command.{event_command};
ghost use Rattle.app_host.specs.Hosted.{shown};
ghost use Rattle.app_host.specs.Whole.{IsWhole, IsQuiet};
ghost use Rattle.app_host.specs.Told.{ObeysEvents};
ghost use Rattle.app_host.specs.Response.{obeying_events, RespondsCounted};
ghost use Rattle.app_host.specs.Obeyed.{obeyed_by, set_filter_by, reset_by, set_types_by, events_by};

use crate::app::App;
use crate::error::WriteFault;
use crate::host::Host;
use crate::numbers::{Numbers, of_events};
use crate::texts::{self, Service};
use event_service::{EventTypes, Events};
use lc_model::packet::function_code;
use lc_model::{ByteSink, EventKind, name_in, u16_at};

/// Sets a filter. Payload: 20 bytes of a name, then an id and a mask.
fn set_filter(events: &mut Events, payload: &[u8]) -> Result<(), Numbers>
    ensures answer { obeyed_by result events.new ≡ set_filter_by payload.now events.old }
    ensures refused { OnErr result (events.new ≡ events.old) }
{
    if payload.len() != 24 {
        return Err(Numbers::one(152));
    }
    match events.set_filter(
        name_in(&payload[..20]),
        u16_at(payload, 20),
        u16_at(payload, 22),
    ) {
        Ok(()) => Ok(()),
        Err(error) => Err(of_events(error)),
    }
}

/// Resets all filters of a sender. Payload: 20 bytes of its name.
fn reset_filters(events: &mut Events, payload: &[u8]) -> Result<(), Numbers>
    ensures answer { obeyed_by result events.new ≡ reset_by payload.now events.old }
    ensures refused { OnErr result (events.new ≡ events.old) }
{
    if payload.len() != 20 {
        return Err(Numbers::one(152));
    }
    match events.reset_filters(name_in(payload)) {
        Ok(()) => Ok(()),
        Err(error) => Err(of_events(error)),
    }
}

/// Turns types on or off. Payload: 20 bytes of a name, a byte whose lower four bits are types, and an ignored byte.
fn set_types(events: &mut Events, payload: &[u8], on: bool) -> Result<(), Numbers>
    ensures answer { obeyed_by result events.new ≡ set_types_by on payload.now events.old }
    ensures refused { OnErr result (events.new ≡ events.old) }
{
    if payload.len() != 22 {
        return Err(Numbers::one(152));
    }
    let types = EventTypes::of_command(payload[20]);
    match events.set_types(name_in(&payload[..20]), types, on) {
        Ok(()) => Ok(()),
        Err(error) => Err(of_events(error)),
    }
}

/// Executes a command to the event services. It is refused with 151 for its code, 152 for its length, and then with the
/// services' own refusals; a refused command changes nothing.
pub(crate) fn obey(events: &mut Events, packet: &[u8]) -> Result<(), Numbers>
    requires { command_header_size ≤ length packet.now }
    ensures answer { obeyed_by result events.new ≡
        events_by (event_command (function_code packet.now) (payload packet.now)) events.old }
    ensures refused { OnErr result (events.new ≡ events.old) }
{
    let payload = &packet[8..];
    match function_code(packet) {
        1 => set_filter(events, payload),
        2 => reset_filters(events, payload),
        3 => set_types(events, payload, true),
        4 => set_types(events, payload, false),
        _ => Err(Numbers::one(151)),
    }
}

impl<B: App> Host<B> {
    /// Executes or refuses a command to the event services, and sends `HOST`'s event.
    #[inline(never)]
    pub(crate) fn obey_events<W: ByteSink>(
        &mut self,
        packet: &[u8],
        out: &mut W,
    ) -> Result<u64, WriteFault>
        requires whole { IsWhole (shown B.meaning self.old) }
        requires quiet { IsQuiet (shown B.meaning self.old) }
        requires none_yet { self.old.calls ≡ 0 }
        requires headers { command_header_size ≤ length packet.now }
        ensures handled { ObeysEvents packet.now
            (shown B.meaning self.old) (shown B.meaning self.new)
            (W.sink out.old) (W.sink out.new) result }
        ensures own { RespondsCounted self.old.services.moment
            (obeying_events packet.now (shown B.meaning self.old)
            (events_by (event_command (function_code packet.now) (payload packet.now))
            self.old.services.events)) (shown B.meaning self.old) (shown B.meaning self.new)
            (W.sink out.old).gained (W.sink out.new).gained result }
    {
        // For the proof: tables and files are within their bounds, and no name is used twice.
        self.services.tables.is_service();
        match obey(&mut self.services.events, packet) {
            Ok(()) => {
                let text = texts::command_done(Service::Events, function_code(packet));
                self.tell_alone(6, EventKind::Information, &text, out)
            }
            Err(numbers) => {
                let text = texts::command_refused(Service::Events, numbers.as_slice());
                self.tell_alone(7, EventKind::Error, &text, out)
            }
        }
    }
}
