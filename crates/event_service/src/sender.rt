//! A sender of events: its name, its types and its filters (cFE user's guide, event services).

ghost use Rattle.std.specs.Prelude.{◌≡◌, ◌+◌, ◌%◌, ◌<◌, ◌≤◌, [], length, take, vec_capacity, OnErr};
ghost use Rattle.lc_model.specs.Events.Outgoing.{event_packet_size, longest_event_text};
ghost use Rattle.lc_model.specs.Name.{is_named, app_name_size};
ghost use Rattle.lc_model.specs.Events.Log.{Requested, has_kind};
ghost use Rattle.lc_model.specs.Kept.Call.{new_sender};
ghost use Rattle.lc_model.specs.Kept.Next.{next_chosen, events_after};
ghost use Rattle.lc_model.specs.Kept.Executive.{joined_now};
ghost use Rattle.lc_model.specs.Packet.{count_end};
ghost use Rattle.lc_model.specs.Services.Events.{Sender as Kept, asked_by};
ghost use Rattle.event_service.specs.Error.{answered};
ghost use Rattle.event_service.specs.Change.{item_of};
ghost use Rattle.event_service.specs.Packet.{with_packet};

use crate::error::EventError;
use crate::filter::Filters;
use crate::name::SenderName;
use crate::packet::{EventPacket, PACKET_SIZE, append_packet};
use crate::types::EventTypes;
use lc_model::{EventKind, Moment};
use std::marker::Model;

/// A change of a sender's types or filters.
#[derive(Clone, Copy)]
pub(crate) enum Change {
    /// The mask of an id's filter is set, and its count restarts.
    Filter { id: u16, mask: u16 },
    /// All counts restart.
    Reset,
    /// Types are turned on or off.
    Types { types: EventTypes, on: bool },
}

/// A registered sender.
#[derive(Debug, Drop)]
pub(crate) struct Sender {
    name: SenderName,
    types: EventTypes,
    filters: Filters,
}

impl Model for Sender {
    ghost use Rattle.lc_model.specs.Services.Events.{Sender as Kept};
    ghost use Rattle.event_service.specs.Types.{bits_of};

    ghost Value = { Kept };

    ghost view = { λ s.
        record {
          name = s.name;
          events = record { on = bits_of s.types; filters = s.filters };
        } };
}

impl Sender {
    /// A sender without filters, with all types but debug on.
    pub(crate) fn new(name: &[u8]) -> Sender
        requires { length name.now ≤ app_name_size }
        ensures { result ≡ record { name = name.now; events = new_sender } }
    {
        Sender {
            name: SenderName::of(name),
            types: EventTypes::at_first(),
            filters: Filters::new(),
        }
    }

    pub(crate) fn is_named(&self, name: &[u8]) -> bool
        ensures { result ≡ is_named name.now self.now.name }
    {
        name == self.name.as_slice()
    }

    /// Whether events of the type are on.
    pub(crate) fn has_type(&self, kind: EventKind) -> bool
        ensures { result ≡ has_kind self.now.events.on kind }
    {
        self.types.has(kind)
    }

    /// Counts a request for an event, and returns whether it is sent: its type is on, and its filter lets it through.
    #[inline(always)]
    fn admits(&mut self, id: u16, kind: EventKind) -> bool
        ensures chosen { result ≡ next_chosen id kind self.old.events }
        ensures after { self.new ≡
            record {
              name = self.old.name;
              events = events_after (Requested id kind) self.old.events;
            } }
    {
        self.types.has(kind) && self.filters.ask(id)
    }

    /// The packet of an event, if it is sent, after `sent` event packets.
    pub(crate) fn ask(
        &mut self,
        sent: &mut u16,
        moment: Moment,
        id: u16,
        kind: EventKind,
        text: &[u8],
    ) -> Option<EventPacket>
        requires count { sent.old < count_end }
        requires text { length text.now ≤ longest_event_text }
        ensures packet { result ≡ (asked_by self.old moment id kind text.now sent.old).packet }
        ensures events { self.new ≡
            record {
              name = self.old.name;
              events = (asked_by self.old moment id kind text.now sent.old).events;
            } }
        ensures sent { sent.new ≡ (asked_by self.old moment id kind text.now sent.old).sent }
        ensures count { sent.new < count_end }
    {
        if !self.admits(id, kind) {
            return None;
        }
        let count = next_count(sent);
        Some(EventPacket::new(count, moment, &self.name, id, kind, text))
    }

    /// Sends an event after `sent` event packets: its packet, if it is sent, is appended to the first `at` bytes of `out`, which
    /// has room for it. Returns where these bytes end then.
    #[inline(always)]
    pub(crate) fn ask_into(
        &mut self,
        sent: &mut u16,
        moment: Moment,
        id: u16,
        kind: EventKind,
        text: &[u8],
        out: &mut Vec<u8>,
        at: usize,
    ) -> usize
        requires count { sent.old < count_end }
        requires text { length text.now ≤ longest_event_text }
        requires within { at ≤ length out.old.items }
        requires room { at + event_packet_size ≤ vec_capacity out.old }
        ensures packet { take result out.new.items ≡ with_packet (take at out.old.items)
            (asked_by self.old moment id kind text.now sent.old).packet }
        ensures size { result ≤ at + event_packet_size }
        ensures there { result ≤ length out.new.items }
        ensures capacity { vec_capacity out.new ≡ vec_capacity out.old }
        ensures events { self.new ≡
            record {
              name = self.old.name;
              events = (asked_by self.old moment id kind text.now sent.old).events;
            } }
        ensures sent { sent.new ≡ (asked_by self.old moment id kind text.now sent.old).sent }
        ensures count { sent.new < count_end }
    {
        if !self.admits(id, kind) {
            return at;
        }
        let count = next_count(sent);
        append_packet(out, at, count, moment, &self.name, id, kind, text);
        at + PACKET_SIZE
    }

    /// Changes its types or filters.
    pub(crate) fn change(&mut self, change: Change) -> Result<(), EventError>
        ensures answer { answered result self.new.events ≡ joined_now (item_of change)
            self.old.events }
        ensures name { self.new.name ≡ self.old.name }
        ensures refused { OnErr result (self.new ≡ self.old) }
    {
        match change {
            Change::Filter { id, mask } => {
                if !self.filters.set(id, mask) {
                    return Err(EventError::FilterFull);
                }
            }
            Change::Reset => self.filters.reset(),
            Change::Types { types, on } => self.types.turn(types, on),
        }
        Ok(())
    }
}

/// Returns the sequence count of the next event packet, and adds 1 to `sent`, modulo 16,384.
#[inline(always)]
fn next_count(sent: &mut u16) -> u16
    requires { sent.old < count_end }
    ensures count { result ≡ sent.old }
    ensures sent { sent.new ≡ (sent.old + 1) % count_end }
    ensures below { sent.new < count_end }
{
    let count = *sent;
    *sent = (count + 1) % 16384;
    count
}
