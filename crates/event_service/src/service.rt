//! The event services: the senders of events by seat, and the events that are sent (cFE user's guide, event services).

ghost use Rattle.std.specs.Prelude.{◌≡◌, ◌+◌, ◌<◌, ◌≤◌, length, take, vec_capacity, IfErr, IfOk, IfSome, OnErr};
ghost use Rattle.std.specs.List.{position_from};
ghost use Rattle.lc_model.specs.Events.Log.{FilterSet, FiltersReset, TypesSet};
ghost use Rattle.lc_model.specs.Events.Outgoing.{event_packet_size, longest_event_text};
ghost use Rattle.lc_model.specs.Kept.Executive.{seat_count};
ghost use Rattle.lc_model.specs.Name.{app_name_size};
ghost use Rattle.lc_model.specs.Services.Events.{IsEventService, first_events, is_sender, events_among, sender_named, registered_at, unregistered_at, commanded, event_asked};
ghost use Rattle.event_service.specs.declared.error.EventError.TheVariants.{Memory};
ghost use Rattle.event_service.specs.Error.{answered};
ghost use Rattle.event_service.specs.Change.{item_of};
ghost use Rattle.event_service.specs.Packet.{with_packet};
ghost use Rattle.event_service.specs.Types.{bits_of, is_type_on};

use crate::error::EventError;
use crate::packet::EventPacket;
use crate::sender::{Change, Sender};
use crate::types::EventTypes;
use lc_model::{EventKind, Moment, Seat};
use std::alloc::Global;
use std::marker::Model;

/// The name under which the host itself sends events.
const HOST: &[u8] = b"HOST";

/// The event senders: `HOST` from the start, and at most one for each of the eight seats. Contracts see `HOST`'s types and
/// filters, the senders by seat, and the number of event packets sent, modulo 16,384.
#[derive(Debug, Drop)]
pub struct Events {
    host: Sender,
    places: Vec<Option<Sender>>,
    sent: u16,
}

impl Model for Events {
    ghost use Rattle.std.specs.Prelude.{◌≡◌, vec_capacity};
    ghost use Rattle.lc_model.specs.Kept.Executive.{seat_count};
    ghost use Rattle.lc_model.specs.Name.{host_name};
    ghost use Rattle.lc_model.specs.Services.Events.{EventService, IsEventService};
    ghost use Rattle.event_service.specs.Service.{service_of, AreServices};

    ghost Value = { EventService };

    ghost view = { λ e. service_of e.host e.places.items e.sent };

    ghost invariant = { λ e. AreServices e.host e.places.items e.sent ×
        (vec_capacity e.places ≡ seat_count) };
}

impl Events {
    /// Creates the services with `HOST` as the only sender and nothing sent. It allocates all memory that they ever need;
    /// `Memory` is the only error.
    pub fn new(alloc: Global) -> Result<Events, EventError>
        ensures first { IfOk result (λ events. events ≡ first_events) }
        ensures memory { IfErr result (λ e. e ≡ Memory) }
    {
        let mut places = Vec::with_capacity(alloc, Seat::COUNT)?;
        for _ in 0..Seat::COUNT {
            places.push_reserved(None);
        }
        Ok(Events {
            host: Sender::new(HOST),
            places,
            sent: 0,
        })
    }

    /// How many seats there are places for, which no call changes.
    pub fn capacity(&self) -> usize
        ensures { result ≡ seat_count }
    {
        self.places.capacity()
    }

    /// States the invariant: eight seats, distinct names of the senders and `HOST`, a count below 16,384. The body does
    /// nothing.
    pub fn is_service(&self)
        ensures { IsEventService self.now }
    {
        let _sent = self.sent;
    }

    /// Registers a sender for the seat, with a name of at most 20 bytes, no filters, and all types on but debug. Error:
    /// `AppsFull` if the seat or the name is taken; `HOST` always is.
    pub fn register(&mut self, seat: Seat, name: &[u8]) -> Result<(), EventError>
        requires { length name.now ≤ app_name_size }
        ensures answer { answered result self.new ≡ registered_at seat name.now self.old }
        ensures refused { OnErr result (self.new ≡ self.old) }
    {
        if name == HOST || place_of(self.places.as_slice(), name).is_some() {
            return Err(EventError::AppsFull);
        }
        let place = &mut self.places[seat.index()];
        if place.is_some() {
            return Err(EventError::AppsFull);
        }
        *place = Some(Sender::new(name));
        Ok(())
    }

    /// Removes the seat's sender and its filters. Error: `NotRegistered` if the seat has none.
    pub fn unregister(&mut self, seat: Seat) -> Result<(), EventError>
        ensures answer { answered result self.new ≡ unregistered_at seat self.old }
        ensures refused { OnErr result (self.new ≡ self.old) }
    {
        let place = &mut self.places[seat.index()];
        if place.is_none() {
            return Err(EventError::NotRegistered);
        }
        *place = None;
        Ok(())
    }

    /// Requests an event of the seat's sender, or of `HOST` if `from` is `None`, with a text of at most 121 bytes. Returns its
    /// packet, or `None` if the event is not sent: no sender is registered at the seat, its type is off, or its id's filter
    /// holds it back. A filter lets a request through if the number of requests before it has no bit in common with the mask.
    /// Requests count from when the filter was set or reset, up to 65,535; those with their type off do not count. The packet's
    /// sequence count is the number of event packets sent before, modulo 16,384.
    ///
    /// Over every list of calls, the events that are sent are those that the log of each sender since its registration
    /// chooses: `lc_model::laws::senders::event_services_go_by_logs`.
    pub fn send(
        &mut self,
        from: Option<Seat>,
        moment: Moment,
        id: u16,
        kind: EventKind,
        text: &[u8],
    ) -> Option<EventPacket>
        requires { length text.now ≤ longest_event_text }
        ensures after { self.new ≡ (event_asked from moment id kind text.now self.old).0 }
        ensures packet { result ≡ (event_asked from moment id kind text.now self.old).1 }
    {
        match from {
            None => self.host.ask(&mut self.sent, moment, id, kind, text),
            Some(seat) => match &mut self.places[seat.index()] {
                None => None,
                Some(sender) => sender.ask(&mut self.sent, moment, id, kind, text),
            },
        }
    }

    /// Sends an event as `send` does, and appends its packet, if it is sent, to the first `at` bytes of `out`. Returns where these
    /// bytes end then. `out` stays at its capacity. Conditions: `out` has `at` bytes, and room for the packet's 168 after them.
    #[inline(always)]
    pub fn send_into(
        &mut self,
        from: Option<Seat>,
        moment: Moment,
        id: u16,
        kind: EventKind,
        text: &[u8],
        out: &mut Vec<u8>,
        at: usize,
    ) -> usize
        requires text { length text.now ≤ longest_event_text }
        requires within { at ≤ length out.old.items }
        requires room { at + event_packet_size ≤ vec_capacity out.old }
        ensures after { self.new ≡ (event_asked from moment id kind text.now self.old).0 }
        ensures packet { take result out.new.items ≡ with_packet (take at out.old.items)
            (event_asked from moment id kind text.now self.old).1 }
        ensures size { result ≤ at + event_packet_size }
        ensures there { result ≤ length out.new.items }
        ensures capacity { vec_capacity out.new ≡ vec_capacity out.old }
    {
        match from {
            None => self
                .host
                .ask_into(&mut self.sent, moment, id, kind, text, out, at),
            Some(seat) => match &mut self.places[seat.index()] {
                None => at,
                Some(sender) => sender.ask_into(&mut self.sent, moment, id, kind, text, out, at),
            },
        }
    }

    /// Sets the filter of an id and restarts its count: an event is sent if the count and the mask have no bit in common.
    /// Errors: `NotRegistered` for the name, `FilterFull` for a filter of a 17th id.
    pub fn set_filter(&mut self, name: &[u8], id: u16, mask: u16) -> Result<(), EventError>
        ensures answer { answered result self.new ≡ commanded name.now (FilterSet id mask)
            self.old }
        ensures refused { OnErr result (self.new ≡ self.old) }
    {
        self.change(name, Change::Filter { id, mask })
    }

    /// Restarts all counts of the name's filters. Error: `NotRegistered`.
    pub fn reset_filters(&mut self, name: &[u8]) -> Result<(), EventError>
        ensures answer { answered result self.new ≡ commanded name.now FiltersReset self.old }
        ensures refused { OnErr result (self.new ≡ self.old) }
    {
        self.change(name, Change::Reset)
    }

    /// Turns these types on or off; the other types stay as they are. Error: `NotRegistered`.
    pub fn set_types(&mut self, name: &[u8], types: EventTypes, on: bool) -> Result<(), EventError>
        ensures answer { answered result self.new ≡ commanded name.now (TypesSet (bits_of types) on)
            self.old }
        ensures refused { OnErr result (self.new ≡ self.old) }
    {
        self.change(name, Change::Types { types, on })
    }

    /// Whether events of the type are on for the sender with this name; false if nobody has the name.
    pub fn is_type_on(&self, name: &[u8], kind: EventKind) -> bool
        ensures { result ≡ is_type_on kind (sender_named self.now name.now) }
    {
        if name == HOST {
            return self.host.has_type(kind);
        }
        is_type_on_among(self.places.as_slice(), name, kind)
    }

    /// Changes the types or filters of the sender with this name.
    fn change(&mut self, name: &[u8], change: Change) -> Result<(), EventError>
        ensures answer { answered result self.new ≡ commanded name.now (item_of change) self.old }
        ensures refused { OnErr result (self.new ≡ self.old) }
    {
        if name == HOST {
            return self.host.change(change);
        }
        let Some(place) = place_of(self.places.as_slice(), name) else {
            return Err(EventError::NotRegistered);
        };
        let Some(sender) = &mut self.places[place] else {
            return Err(EventError::NotRegistered);
        };
        sender.change(change)
    }
}

/// Whether the type is on for the first sender of a name; false if there is none.
fn is_type_on_among(places: &[Option<Sender>], name: &[u8], kind: EventKind) -> bool
    ensures { result ≡ is_type_on kind (events_among places.now name.now) }
{
    for place in places {
        if let Some(sender) = place {
            if sender.is_named(name) {
                return sender.has_type(kind);
            }
        }
    }
    false
}

/// The place of the first sender of a name.
fn place_of(places: &[Option<Sender>], name: &[u8]) -> Option<usize>
    ensures place { result ≡ position_from (is_sender name.now) 0 places.now }
    ensures inside { IfSome result (λ place. place < length places.now) }
{
    places.iter().position(|place| is_sender(place, name))
}

/// Whether the place's sender has the name.
fn is_sender(place: &Option<Sender>, name: &[u8]) -> bool
    ensures { result ≡ is_sender name.now place.now }
{
    match place {
        None => false,
        Some(sender) => sender.is_named(name),
    }
}
