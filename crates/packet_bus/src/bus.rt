//! The bus (cFE user's guide, software bus services; the pool is this project's own).

ghost use Rattle.std.specs.Prelude.{◌≡◌, ◌≤◌, ◌<◌, ◌+◌, ◌++◌, ℕ, true, false, length, drop, map, None, is_some, IfOk, IfErr, OnOk, OnErr, replicate, IfSome, IfNone, option_map, slice_set, count_by, vec_capacity};
ghost use Rattle.lc_model.specs.Kept.Executive.{ready_seat, seat_count};
ghost use Rattle.lc_model.specs.Packet.{header_fault, message_id, longest_packet, message_id_end};
ghost use Rattle.lc_model.specs.Services.Bus as model;
ghost use Rattle.lc_model.specs.Services.Bus.{after, refusal_of, seen, pipe_at, oldest_at, no_pipes, publish_refusal, IsPublished, free_publications, most_publications, pipe_depth};
ghost use Rattle.packet_bus.specs.Capacities.{bus_capacities};
ghost use Rattle.packet_bus.specs.Error.{refusal_in};
ghost use Rattle.packet_bus.specs.declared.error.BusError.TheVariants.{Memory};
ghost use Rattle.packet_bus.specs.Line.{behind_first, first_slot, has_slots, is_long, slots_in, with_slot};
ghost use Rattle.packet_bus.specs.Hearers.{only_hearer};
ghost use Rattle.packet_bus.specs.Inside.{changed, delivered, hears_in, nobody, no_lines, place_at, without_packets, without_subscriptions, HaveRoom};
ghost use Rattle.packet_bus.specs.Filled.{filled};
ghost use Rattle.packet_bus.specs.Seats.{is_in};
ghost use Rattle.packet_bus.specs.Slots.{slot_at, used_slots};

use crate::BusError;
use crate::capacities::BusCapacities;
use crate::header::{checked_message_id, judged_message_id};
use crate::pipe::PipePlace;
use crate::pool::{PACKET_SIZE, Pool};
use crate::seats::SeatSet;
use lc_model::Seat;
use lc_model::packet::MESSAGE_IDS;
use std::alloc::{AllocError, Global};
use std::marker::Model;

/// The packet bus: at most one pipe for each seat, with up to 256 subscriptions and 72 packets.
///
/// A packet is stored once, however many pipes wait for it. It takes constant time to find the subscribers of a message id,
/// the least seat with a packet, or a free slot. `new` allocates all memory. Contracts see the pipes as lists of subscriptions
/// and packets.
#[derive(Drop)]
pub struct Bus {
    places: Vec<PipePlace>,
    pool: Pool,
    /// For each message id the seats whose pipes are subscribed to it.
    audience: Vec<SeatSet>,
    /// The seats with a packet.
    ready: SeatSet,
    /// The seats whose pipes have no room.
    full: SeatSet,
}

impl Model for Bus {
    ghost use Rattle.std.specs.Prelude.{◌≡◌, List, Option, vec_capacity};
    ghost use Rattle.lc_model.specs.Kept.Executive.{seat_count};
    ghost use Rattle.lc_model.specs.Packet.{message_id_end};
    ghost use Rattle.lc_model.specs.Services.Bus.{Queue};
    ghost use Rattle.packet_bus.specs.Inside.{shown, IsBus};

    ghost Value = { List (Option Queue) };

    ghost view = { λ b. shown b.pool b.places.items };

    ghost invariant = { λ b. IsBus b.places.items b.pool b.audience.items b.ready b.full
        × (vec_capacity b.places ≡ seat_count) × (vec_capacity b.audience ≡ message_id_end) };
}

/// An empty set of seats for each message id.
fn empty_rows(alloc: Global) -> Result<Vec<SeatSet>, AllocError>
    ensures rows { IfOk result (λ rows. rows.items ≡ replicate message_id_end nobody) }
    ensures room { IfOk result (λ rows. vec_capacity rows ≡ message_id_end) }
{
    let mut rows = Vec::with_capacity(alloc, MESSAGE_IDS)?;
    for _ in 0..MESSAGE_IDS {
        rows.push_reserved(SeatSet::new());
    }
    Ok(rows)
}

/// A place for each seat, without a pipe.
fn empty_places(alloc: Global) -> Result<Vec<PipePlace>, AllocError>
    ensures places { IfOk result (λ places. places.items ≡ no_lines) }
    ensures room { IfOk result (λ places. vec_capacity places ≡ seat_count) }
{
    let mut places = Vec::with_capacity(alloc, Seat::COUNT)?;
    for _ in 0..Seat::COUNT {
        places.push_reserved(PipePlace::new(alloc)?);
    }
    Ok(places)
}

/// Appends a slot to the packets that wait on a seat, whose pipe has room.
fn deliver_to(seat: Seat, slot: u16, places: &mut Vec<PipePlace>, full: &mut SeatSet)
    requires eight { length places.old.items ≡ seat_count }
    requires open { is_some (place_at places.old.items seat) ≡ true }
    requires room { is_long (place_at places.old.items seat) ≡ false }
    requires full { full.old ≡ map is_long places.old.items }
    ensures places { places.new.items ≡ slice_set places.old.items seat
        (option_map (with_slot slot) (place_at places.old.items seat)) }
    ensures full { full.new ≡ map is_long places.new.items }
    ensures capacity { vec_capacity places.new ≡ vec_capacity places.old }
{
    if places[seat.index()].push(slot) {
        full.insert(seat);
    }
}

/// Stores a packet for these seats, whose pipes have room, appends its slot to their waiting packets, and returns the slot.
#[cold]
#[inline(never)]
fn deliver_to_each(
    hearers: SeatSet,
    packet: &[u8],
    pool: &mut Pool,
    places: &mut Vec<PipePlace>,
    full: &mut SeatSet,
) -> u16
    requires eight { length places.old.items ≡ seat_count }
    requires some { 0 < count_by is_in hearers }
    requires room { HaveRoom hearers places.old.items }
    requires full { full.old ≡ map is_long places.old.items }
    requires left { used_slots pool.old < most_publications }
    requires fits { length packet.now ≤ longest_packet }
    ensures within { result < length pool.old }
    ensures free { (slot_at pool.old result).readers ≡ 0 }
    ensures pool { pool.new ≡
        slice_set pool.old result record { packet = packet.now; readers = count_by is_in hearers } }
    ensures places { places.new.items ≡ delivered result hearers places.old.items }
    ensures full { full.new ≡ map is_long places.new.items }
    ensures capacity { vec_capacity places.new ≡ vec_capacity places.old }
{
    let slot = pool.reserve(hearers.count());
    let mut left = hearers;
    while let Some(seat) = left.pop_least() {
        deliver_to(seat, slot, places, full);
    }
    pool.put(slot, packet);
    slot
}

/// Delivers a packet to these seats, which then have a waiting packet. Most packets have one subscriber.
fn deliver(
    hearers: SeatSet,
    packet: &[u8],
    pool: &mut Pool,
    places: &mut Vec<PipePlace>,
    ready: &mut SeatSet,
    full: &mut SeatSet,
) -> u16
    requires eight { length places.old.items ≡ seat_count }
    requires some { 0 < count_by is_in hearers }
    requires room { HaveRoom hearers places.old.items }
    requires ready { ready.old ≡ map has_slots places.old.items }
    requires full { full.old ≡ map is_long places.old.items }
    requires left { used_slots pool.old < most_publications }
    requires fits { length packet.now ≤ longest_packet }
    ensures within { result < length pool.old }
    ensures free { (slot_at pool.old result).readers ≡ 0 }
    ensures pool { pool.new ≡
        slice_set pool.old result record { packet = packet.now; readers = count_by is_in hearers } }
    ensures places { places.new.items ≡ delivered result hearers places.old.items }
    ensures ready { ready.new ≡ map has_slots places.new.items }
    ensures full { full.new ≡ map is_long places.new.items }
    ensures capacity { vec_capacity places.new ≡ vec_capacity places.old }
{
    ready.add(&hearers);
    let Some(seat) = hearers.only() else {
        return deliver_to_each(hearers, packet, pool, places, full);
    };
    let slot = pool.reserve(1);
    deliver_to(seat, slot, places, full);
    pool.put(slot, packet);
    slot
}

/// Takes the oldest waiting slot of a seat, if there is one.
fn take_oldest(
    seat: Seat,
    places: &mut Vec<PipePlace>,
    ready: &mut SeatSet,
    full: &mut SeatSet,
) -> Option<u16>
    requires eight { length places.old.items ≡ seat_count }
    requires short { (seat : ℕ) → length (slots_in (place_at places.old.items seat)) ≤ pipe_depth }
    requires ready { ready.old ≡ map has_slots places.old.items }
    requires full { full.old ≡ map is_long places.old.items }
    ensures slot { result ≡ first_slot (place_at places.old.items seat) }
    ensures places { places.new.items ≡ slice_set places.old.items seat
        (option_map behind_first (place_at places.old.items seat)) }
    ensures ready { ready.new ≡ map has_slots places.new.items }
    ensures full { full.new ≡ map is_long places.new.items }
    ensures capacity { vec_capacity places.new ≡ vec_capacity places.old }
    ensures below { seat < seat_count }
{
    let place = &mut places[seat.index()];
    let slot = place.pop()?;
    if !place.is_ready() {
        ready.remove(seat);
    }
    full.remove(seat);
    Some(slot)
}

impl Bus {
    /// Creates a bus without pipes. It allocates all memory that the bus ever needs; `Memory` is the only error.
    pub fn new(alloc: Global) -> Result<Bus, BusError>
        ensures pipes { IfOk result (λ bus. bus ≡ no_pipes) }
        ensures memory { IfErr result (λ e. e ≡ Memory) }
    {
        Ok(Bus {
            places: empty_places(alloc)?,
            pool: Pool::new(alloc)?,
            audience: empty_rows(alloc)?,
            ready: SeatSet::new(),
            full: SeatSet::new(),
        })
    }

    /// Gives the seat a pipe without subscriptions. Error: `TooManyPipes` (94) if it has one.
    pub fn add_pipe(&mut self, seat: Seat) -> Result<(), BusError>
        ensures after { self.new ≡ after self.old (model.pipe_added seat self.old) }
        ensures answer { refusal_in result ≡ refusal_of (model.pipe_added seat self.old) }
        ensures eight { length self.old ≡ seat_count }
    {
        if self.has_pipe(seat) {
            return Err(BusError::TooManyPipes);
        }
        self.places[seat.index()].open();
        Ok(())
    }

    /// Removes the seat's pipe, with its subscriptions and packets. Error: `NoPipe` (93).
    pub fn remove_pipe(&mut self, seat: Seat) -> Result<(), BusError>
        ensures after { self.new ≡ after self.old (model.pipe_removed seat self.old) }
        ensures answer { refusal_in result ≡ refusal_of (model.pipe_removed seat self.old) }
        ensures eight { length self.old ≡ seat_count }
    {
        if !self.has_pipe(seat) {
            return Err(BusError::NoPipe);
        }
        self.discard_all(seat);
        self.forget_all(seat);
        self.places[seat.index()].close();
        Ok(())
    }

    /// Subscribes the seat's pipe to a message id; if it is subscribed already, nothing changes. Errors: `NoPipe` (93),
    /// `TooManySubscriptions` (95) if it has 256 subscriptions to others.
    pub fn subscribe(&mut self, seat: Seat, mid: u16) -> Result<(), BusError>
        ensures after { self.new ≡ after self.old (model.subscribed seat mid self.old) }
        ensures answer { refusal_in result ≡ refusal_of (model.subscribed seat mid self.old) }
        ensures eight { length self.old ≡ seat_count }
    {
        if !self.has_pipe(seat) {
            return Err(BusError::NoPipe);
        }
        if self.is_subscribed(seat, mid) {
            return Ok(());
        }
        let at = seat.index();
        if self.places[at].subscriptions() == 256 {
            return Err(BusError::TooManySubscriptions);
        }
        self.places[at].subscribe(mid);
        if (mid as usize) < MESSAGE_IDS {
            self.audience[mid as usize].insert(seat);
        }
        Ok(())
    }

    /// Ends the subscription of the seat's pipe to a message id. Packets that wait in it stay; if it isn't subscribed, nothing
    /// changes. Error: `NoPipe` (93).
    pub fn unsubscribe(&mut self, seat: Seat, mid: u16) -> Result<(), BusError>
        ensures after { self.new ≡ after self.old (model.unsubscribed seat mid self.old) }
        ensures answer { refusal_in result ≡ refusal_of (model.unsubscribed seat mid self.old) }
        ensures eight { length self.old ≡ seat_count }
    {
        if !self.has_pipe(seat) {
            return Err(BusError::NoPipe);
        }
        self.forget(seat, mid);
        Ok(())
    }

    /// Appends the packet, once, to each pipe that is subscribed to its message id. Errors: `BadPacket` (91) if the bytes are
    /// not a packet, `PipeFull` (92) if one of these pipes holds 72 packets; then no pipe gets it.
    pub fn publish(&mut self, packet: &[u8]) -> Result<(), BusError>
        ensures answer { refusal_in result ≡ publish_refusal packet.now self.old }
        ensures published { OnOk result (IsPublished packet.now self.old self.new) }
        ensures refused { OnErr result (self.new ≡ self.old) }
        ensures eight { OnOk result (length self.old ≡ seat_count) }
    {
        match checked_message_id(packet) {
            Ok(mid) => self.publish_as(mid, packet),
            Err(reason) => Err(BusError::BadPacket { reason }),
        }
    }

    /// Publishes a packet that was checked before; `PipeFull` (92) is the only error. Condition: its header has no fault.
    #[inline]
    pub fn publish_judged(&mut self, packet: &[u8]) -> Result<(), BusError>
        requires good { header_fault packet.now ≡ None }
        ensures answer { refusal_in result ≡ publish_refusal packet.now self.old }
        ensures published { OnOk result (IsPublished packet.now self.old self.new) }
        ensures refused { OnErr result (self.new ≡ self.old) }
        ensures eight { OnOk result (length self.old ≡ seat_count) }
    {
        self.publish_as(judged_message_id(packet), packet)
    }

    /// Publishes a packet with this message id, which was checked before.
    #[inline]
    fn publish_as(&mut self, mid: u16, packet: &[u8]) -> Result<(), BusError>
        requires good { header_fault packet.now ≡ None }
        requires own { mid ≡ message_id packet.now }
        ensures answer { refusal_in result ≡ publish_refusal packet.now self.old }
        ensures published { OnOk result (IsPublished packet.now self.old self.new) }
        ensures refused { OnErr result (self.new ≡ self.old) }
        ensures eight { OnOk result (length self.old ≡ seat_count) }
    {
        let hearers = self.audience[mid as usize].copy();
        if hearers.meets(&self.full) {
            return Err(BusError::PipeFull);
        }
        if !hearers.is_empty() {
            deliver(
                hearers,
                packet,
                &mut self.pool,
                &mut self.places,
                &mut self.ready,
                &mut self.full,
            );
        }
        Ok(())
    }

    /// The only seat whose pipe is subscribed to this packet's message id, or `None` if none or several are. Condition: its
    /// header has no fault.
    #[inline]
    pub fn only_hearer(&self, packet: &[u8]) -> Option<Seat>
        requires good { header_fault packet.now ≡ None }
        ensures only { result ≡ only_hearer packet.now self.now }
        ensures eight { length self.now ≡ seat_count }
    {
        self.audience[judged_message_id(packet) as usize].only()
    }

    /// Moves the oldest packet of the seat's pipe to the start of `buffer`, whose further bytes stay, and returns its length in
    /// bytes, or `None` if no packet waits. Its header has no fault. Error: `NoPipe` (93).
    pub fn receive(
        &mut self,
        seat: Seat,
        buffer: &mut [u8; PACKET_SIZE],
    ) -> Result<Option<usize>, BusError>
        ensures after { self.new ≡ after self.old (model.received seat self.old) }
        ensures answer { refusal_in result ≡ refusal_of (model.received seat self.old) }
        ensures size { IfOk result (λ size. size ≡ option_map length (oldest_at seat self.old)) }
        ensures buffer { buffer.new ≡ filled (oldest_at seat self.old) buffer.old }
        ensures good { IfSome (oldest_at seat self.old) (λ packet. header_fault packet ≡ None) }
        ensures eight { length self.old ≡ seat_count }
    {
        let size = self.take_packet(seat, buffer);
        if size.is_none() && !self.has_pipe(seat) {
            return Err(BusError::NoPipe);
        }
        Ok(size)
    }

    /// The least seat with a packet, if there is one.
    pub fn least_ready(&self) -> Option<Seat>
        ensures least { result ≡ ready_seat (seen self.now) }
        ensures eight { length self.now ≡ seat_count }
    {
        self.ready.least()
    }

    /// The number of packets that still fit: 576 less those that wait, each counted once.
    pub fn free(&self) -> u32
        ensures { result ≡ free_publications self.now }
    {
        self.pool.free() as u32
    }

    /// The capacities of all lists; of those of the pipes, this seat's, open or not. No call changes them.
    pub fn capacities(&self, seat: Seat) -> BusCapacities
        ensures { result ≡ bus_capacities }
    {
        let place = &self.places[seat.index()];
        BusCapacities {
            seats: self.places.capacity(),
            message_ids: self.audience.capacity(),
            packets: self.pool.slot_capacity(),
            free: self.pool.free_capacity(),
            subscriptions: place.subscription_capacity(),
            waiting: place.waiting_capacity(),
        }
    }

    fn has_pipe(&self, seat: Seat) -> bool
        ensures has { result ≡ is_some (pipe_at seat self.now) }
        ensures eight { length self.now ≡ seat_count }
    {
        self.places[seat.index()].is_open()
    }

    /// Whether a seat's pipe is subscribed to a message id: by the rows for an id that a packet can have, else by the pipe.
    fn is_subscribed(&self, seat: Seat, mid: u16) -> bool
        ensures { result ≡ hears_in mid (pipe_at seat self.now) }
    {
        if (mid as usize) < MESSAGE_IDS {
            self.audience[mid as usize].contains(seat)
        } else {
            self.places[seat.index()].is_subscribed(mid)
        }
    }

    /// Takes the oldest packet of a seat to the start of a buffer, and returns its length in bytes.
    fn take_packet(&mut self, seat: Seat, buffer: &mut [u8; PACKET_SIZE]) -> Option<usize>
        ensures after { self.new ≡ changed seat model.without_oldest self.old }
        ensures size { result ≡ option_map length (oldest_at seat self.old) }
        ensures buffer { buffer.new ≡ filled (oldest_at seat self.old) buffer.old }
        ensures good { IfSome (oldest_at seat self.old) (λ packet. header_fault packet ≡ None) }
        ensures eight { length self.old ≡ seat_count }
    {
        let slot = take_oldest(seat, &mut self.places, &mut self.ready, &mut self.full)?;
        Some(self.pool.take(slot, buffer))
    }

    /// Drops the oldest packet of a seat and releases its slot. Returns whether there was one.
    fn discard_oldest(&mut self, seat: Seat) -> bool
        ensures after { self.new ≡ changed seat model.without_oldest self.old }
        ensures some { result ≡ is_some (oldest_at seat self.old) }
        ensures eight { length self.old ≡ seat_count }
    {
        let oldest = take_oldest(seat, &mut self.places, &mut self.ready, &mut self.full);
        let Some(slot) = oldest else {
            return false;
        };
        self.pool.release(slot);
        true
    }

    /// Drops all packets of a seat.
    fn discard_all(&mut self, seat: Seat)
        ensures { self.new ≡ changed seat without_packets self.old }
    {
        while self.discard_oldest(seat) {}
    }

    /// Ends the subscription of a seat's pipe to a message id.
    fn forget(&mut self, seat: Seat, mid: u16)
        ensures after { self.new ≡ changed seat (model.parted mid) self.old }
        ensures eight { length self.old ≡ seat_count }
    {
        self.places[seat.index()].unsubscribe(mid);
        if (mid as usize) < MESSAGE_IDS {
            self.audience[mid as usize].remove(seat);
        }
    }

    /// Ends all subscriptions of a seat's pipe.
    fn forget_all(&mut self, seat: Seat)
        ensures { self.new ≡ changed seat without_subscriptions self.old }
    {
        while let Some(mid) = self.places[seat.index()].first_subscription() {
            self.forget(seat, mid);
        }
    }
}
