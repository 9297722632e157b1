//! The bytes that wait to be written.

ghost use Rattle.std.specs.Prelude.{◌≡◌, ◌+◌, ◌<◌, ◌≤◌, ◌++◌, false, true, [], length, IfOk};
ghost use Rattle.lc_model.specs.Events.Outgoing.{event_packet_size, longest_event_text};
ghost use Rattle.lc_model.specs.Services.Events.{event_asked};
ghost use Rattle.lc_model.specs.Services.Interface.{outgoing_room};
ghost use Rattle.event_service.specs.Packet.{with_packet};

use event_service::Events;
use lc_model::{EventKind, Moment, Seat, write_at};
use std::alloc::{AllocError, Global};
use std::marker::Model;

/// The most bytes that one call of an application appends.
pub const OUTGOING_ROOM: usize = 65_536;

/// The packets that calls have sent and that are not yet written, one after the other, in a list with room for 65,536 bytes,
/// which never grows. Contracts see the bytes.
#[derive(Debug, Drop)]
pub struct Outgoing {
    bytes: Vec<u8>,
    size: usize,
}

impl Model for Outgoing {
    ghost use Rattle.std.specs.Prelude.{List, ℕ, ◌≡◌, ◌≤◌, length, take, vec_capacity};
    ghost use Rattle.lc_model.specs.Services.Interface.{outgoing_room};

    ghost Value = { List ℕ };

    ghost view = { λ o. take o.size o.bytes.items };

    ghost invariant = { λ o. (vec_capacity o.bytes ≡ outgoing_room) ×
        (o.size ≤ length o.bytes.items) };
}

impl Outgoing {
    /// Creates it empty. It allocates all memory that it ever needs; out of memory is the only error.
    pub fn new(alloc: Global) -> Result<Outgoing, AllocError>
        ensures { IfOk result (λ outgoing. outgoing ≡ []) }
    {
        Ok(Outgoing {
            bytes: Vec::with_capacity(alloc, OUTGOING_ROOM)?,
            size: 0,
        })
    }

    /// The bytes that wait.
    pub fn as_slice(&self) -> &[u8]
        ensures { result.now ≡ self.now }
    {
        &self.bytes[..self.size]
    }

    /// The capacity of the list in bytes, which no call changes.
    pub fn capacity(&self) -> usize
        ensures { result ≡ outgoing_room }
    {
        self.bytes.capacity()
    }

    /// Whether nothing waits.
    pub fn is_empty(&self) -> bool
        ensures none { result ≡ true → self.now ≡ [] }
        ensures some { result ≡ false → 0 < length self.now }
    {
        self.size == 0
    }

    /// Appends bytes. Condition: there is room for them.
    #[inline(always)]
    pub fn append(&mut self, bytes: &[u8])
        requires { length self.old + length bytes.now ≤ outgoing_room }
        ensures { self.new ≡ self.old ++ bytes.now }
    {
        write_at(&mut self.bytes, self.size, bytes);
        self.size += bytes.len();
    }

    /// Requests an event and appends its packet, if it is sent. Condition: there is room for it.
    #[inline(always)]
    pub(crate) fn send(
        &mut self,
        events: &mut Events,
        from: Option<Seat>,
        moment: Moment,
        id: u16,
        kind: EventKind,
        text: &[u8],
    )
        requires text { length text.now ≤ longest_event_text }
        requires room { length self.old + event_packet_size ≤ outgoing_room }
        ensures events { events.new ≡ (event_asked from moment id kind text.now events.old).0 }
        ensures packet { self.new ≡ with_packet self.old
            (event_asked from moment id kind text.now events.old).1 }
        ensures size { length self.new ≤ length self.old + event_packet_size }
    {
        self.size = events.send_into(from, moment, id, kind, text, &mut self.bytes, self.size);
    }

    /// Removes all bytes.
    pub fn clear(&mut self)
        ensures { self.new ≡ [] }
    {
        self.size = 0;
    }
}
