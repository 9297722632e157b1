//! The services that the host's applications share (cFE user's guide: software bus, event and table services).

ghost use Rattle.std.specs.Prelude.{◌≡◌, ◌+◌, ◌<◌, ◌≤◌, ◌++◌, [], ◌∷◌, length, replicate, option_to_list, IfOk, IfSome};
ghost use Rattle.std.specs.List.{concat};
ghost use Rattle.lc_model.specs.Events.Outgoing.{event_packet_size, longest_event_text};
ghost use Rattle.lc_model.specs.Events.Request.{Event, Sequence, Housekeeping};
ghost use Rattle.lc_model.specs.Packet.{message_id_end};
ghost use Rattle.lc_model.specs.Services.Bus.{no_pipes};
ghost use Rattle.lc_model.specs.Services.Events.{Sender, first_events, sender_at, event_asked};
ghost use Rattle.lc_model.specs.Services.Interface.{outgoing_room};
ghost use Rattle.lc_model.specs.Services.Tables.{first_tables};
ghost use Rattle.app_host.specs.Capacities.{host_capacities};
ghost use Rattle.app_host.specs.Telling.{Tells};

use crate::capacities::HostCapacities;
use crate::counts::Counts;
use crate::outgoing::Outgoing;
use event_service::Events;
use lc_model::{EventKind, Moment, Seat};
use packet_bus::Bus;
use std::alloc::{AllocError, Global};
use tbl_service::Tables;

/// The services of the host: the bus, events, tables, the sequence counts of all packets but events, the moment of the record
/// that is handled, and the bytes that wait to be written.
#[derive(Drop)]
pub struct Services {
    /// The packet bus.
    pub bus: Bus,
    /// The event services.
    pub events: Events,
    /// The table services.
    pub tables: Tables,
    /// The sequence counts of all packets but events.
    pub counts: Counts,
    /// The moment of the record that is handled.
    pub moment: Moment,
    /// The bytes that wait to be written.
    pub outgoing: Outgoing,
}

impl Services {
    /// Creates services with nothing registered, stored or sent. It allocates all memory that they ever need; out of memory is
    /// the only error.
    pub fn new(alloc: Global) -> Result<Services, AllocError>
        ensures bus { IfOk result (λ s. s.bus ≡ no_pipes) }
        ensures events { IfOk result (λ s. s.events ≡ first_events) }
        ensures tables { IfOk result (λ s. s.tables ≡ first_tables) }
        ensures counts { IfOk result (λ s. s.counts ≡ replicate message_id_end 0) }
        ensures moment { IfOk result (λ s. s.moment ≡ record { seconds = 0; subseconds = 0 }) }
        ensures outgoing { IfOk result (λ s. s.outgoing ≡ []) }
    {
        Ok(Services {
            bus: Bus::new(alloc).map_err(|_| AllocError)?,
            events: Events::new(alloc).map_err(|_| AllocError)?,
            tables: Tables::new(alloc).map_err(|_| AllocError)?,
            counts: Counts::new(alloc)?,
            moment: Moment {
                seconds: 0,
                subseconds: 0,
            },
            outgoing: Outgoing::new(alloc)?,
        })
    }

    /// The capacities of all lists; of those by seat, this seat's. No call changes them.
    pub fn capacities(&self, seat: Seat) -> HostCapacities
        ensures { result ≡ host_capacities }
    {
        HostCapacities {
            bus: self.bus.capacities(seat),
            senders: self.events.capacity(),
            tables: self.tables.capacities(seat),
            counts: self.counts.capacity(),
            outgoing: self.outgoing.capacity(),
        }
    }

    /// Requests an event of the seat's application, or of `HOST` if `from` is `None`; its packet waits to be written if types
    /// and filters let it through. Conditions: a sender is registered there, a text of at most 121 bytes, and room for a packet
    /// of 168 bytes.
    #[inline(always)]
    pub fn tell(&mut self, from: Option<Seat>, id: u16, kind: EventKind, text: &[u8])
        requires text { length text.now ≤ longest_event_text }
        requires room { length self.old.outgoing + event_packet_size ≤ outgoing_room }
        ensures told { IfSome (sender_at from self.old.events)
            (λ (sender : Sender). Tells from sender.name (Event sender.name id kind text.now ∷ [])
            self.old self.new) }
        ensures size { length self.new.outgoing ≤ length self.old.outgoing + event_packet_size }
        ensures events { self.new.events ≡
            (event_asked from self.old.moment id kind text.now self.old.events).0 }
        ensures outgoing { self.new.outgoing ≡ self.old.outgoing ++
            concat (option_to_list
            (event_asked from self.old.moment id kind text.now self.old.events).1) }
        ensures counts { self.new.counts ≡ self.old.counts }
    {
        // For the proof: no two event senders have the same name.
        self.events.is_service();
        self.outgoing
            .send(&mut self.events, from, self.moment, id, kind, text);
    }
}
