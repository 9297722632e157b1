//! The pool: each waiting packet is stored once (this project's own).

ghost use Rattle.std.specs.Prelude.{◌≡◌, ◌<◌, ◌≤◌, ◌-◌, ◌+◌, ◌++◌, ◌==◌, [], ◌∷◌, length, take, drop, slice_set, replicate, IfOk, slice_index_or, vec_len, vec_capacity};
ghost use Rattle.lc_model.specs.Packet.{longest_packet};
ghost use Rattle.lc_model.specs.Services.Bus.{most_publications};
ghost use Rattle.packet_bus.specs.Slots.{PooledPacket, all_slots, no_packet, no_slots, slot_at, used_slots, released, IsPool};

use lc_model::packet::LONGEST_PACKET;
use std::alloc::{AllocError, Global};
use std::marker::Model;

/// The most bytes of a packet.
pub const PACKET_SIZE: usize = LONGEST_PACKET;

/// The number of packets that can wait: eight pipes with 72 different packets each.
const SLOTS: usize = 576;

/// A place for a packet, with the number of pipes that wait for it. Contracts see the packet's bytes and that number.
#[derive(Drop)]
struct PoolSlot {
    bytes: [u8; PACKET_SIZE],
    size: u16,
    readers: u8,
}

impl Model for PoolSlot {
    ghost use Rattle.std.specs.Prelude.{take, ◌≤◌, ◌≡◌, length};
    ghost use Rattle.lc_model.specs.Packet.{longest_packet};
    ghost use Rattle.packet_bus.specs.Slots.{PooledPacket};

    ghost Value = { PooledPacket };

    ghost view = { λ s. record { packet = take s.size s.bytes; readers = s.readers } };

    ghost invariant = { λ s. (s.size ≤ longest_packet) × (length s.bytes ≡ longest_packet) };
}

impl PoolSlot {
    /// A slot without a packet, for one that `readers` pipes will wait for.
    fn new(readers: u8) -> PoolSlot
        ensures { result ≡ record { packet = []; readers = readers } }
    {
        PoolSlot {
            bytes: [0; PACKET_SIZE],
            size: 0,
            readers,
        }
    }

    /// Sets the number of pipes that wait for the packet.
    fn reserve(&mut self, readers: u8)
        ensures { self.new ≡ record { packet = self.old.packet; readers = readers } }
    {
        self.readers = readers;
    }

    /// Takes the packet.
    fn put(&mut self, packet: &[u8])
        requires { length packet.now ≤ longest_packet }
        ensures { self.new ≡ record { packet = packet.now; readers = self.old.readers } }
    {
        self.size = packet.len() as u16;
        self.bytes[..packet.len()].copy_from_slice(packet);
    }

    /// Copies the packet to the front of a buffer, and returns how many bytes it has.
    fn read(&self, buffer: &mut [u8; PACKET_SIZE]) -> usize
        ensures size { result ≡ length self.now.packet }
        ensures buffer { buffer.new ≡ self.now.packet ++ drop (length self.now.packet) buffer.old }
    {
        let size = self.size as usize;
        buffer[..size].copy_from_slice(&self.bytes[..size]);
        size
    }

    /// Counts one waiting pipe less. Returns whether none is left.
    fn release(&mut self) -> bool
        requires { 0 < self.old.readers }
        ensures after { self.new ≡
            record { packet = self.old.packet; readers = self.old.readers - 1 } }
        ensures last { result ≡ (self.new.readers == 0) }
    {
        self.readers -= 1;
        self.readers == 0
    }
}

/// The slots that were ever used, with room for all, and the numbers of those that are free again. Contracts see all slots, in
/// order: memory that no packet was ever put into is reserved and not written.
#[derive(Drop)]
pub(crate) struct Pool {
    slots: Vec<PoolSlot>,
    free: Vec<u16>,
}

impl Model for Pool {
    ghost use Rattle.std.specs.Prelude.{List, vec_capacity};
    ghost use Rattle.packet_bus.specs.Slots.{PooledPacket, IsPool, all_slots};

    ghost Value = { List PooledPacket };

    ghost view = { λ p. all_slots p.slots.items };

    ghost invariant = { λ p. IsPool p.slots.items p.free.items (vec_capacity p.slots)
        (vec_capacity p.free) };
}

/// Appends a slot that was never used, for a packet that `readers` pipes will wait for, and returns its number.
#[cold]
#[inline(never)]
fn add_slot(slots: &mut Vec<PoolSlot>, readers: u8) -> u16
    requires few { length slots.old.items < most_publications }
    requires room { vec_len slots.old < vec_capacity slots.old }
    ensures number { result ≡ length slots.old.items }
    ensures items { slots.new.items ≡
        slots.old.items ++ record { packet = []; readers = readers } ∷ [] }
    ensures room { vec_capacity slots.new ≡ vec_capacity slots.old }
{
    let number = slots.len() as u16;
    slots.push_reserved(PoolSlot::new(readers));
    number
}

/// Takes a slot that is free again, or else one that was never used.
fn take_slot(slots: &mut Vec<PoolSlot>, free: &mut Vec<u16>, readers: u8) -> u16
    requires pool { IsPool slots.old.items free.old.items (vec_capacity slots.old)
        (vec_capacity free.old) }
    requires room { used_slots slots.old.items < most_publications }
    requires read { 0 < readers }
    ensures pool { IsPool slots.new.items free.new.items (vec_capacity slots.new)
        (vec_capacity free.new) }
    ensures within { result < most_publications }
    ensures free { (slot_at slots.old.items result).readers ≡ 0 }
    ensures after { all_slots slots.new.items ≡
        slice_set (all_slots slots.old.items) result
        record { packet = (slot_at slots.old.items result).packet; readers = readers } }
{
    let Some(number) = free.pop() else {
        return add_slot(slots, readers);
    };
    slots[number as usize].reserve(readers);
    number
}

impl Pool {
    /// All slots, free. Out of memory is the only error.
    pub fn new(alloc: Global) -> Result<Pool, AllocError>
        ensures { IfOk result (λ pool. pool ≡ no_slots) }
    {
        Ok(Pool {
            slots: Vec::with_capacity(alloc, SLOTS)?,
            free: Vec::with_capacity(alloc, SLOTS)?,
        })
    }

    /// How many slots are free.
    pub fn free(&self) -> usize
        ensures { result + used_slots self.now ≡ most_publications }
    {
        SLOTS - self.slots.len() + self.free.len()
    }

    /// How many slots the list of used slots has room for.
    pub fn slot_capacity(&self) -> usize
        ensures { result ≡ most_publications }
    {
        self.slots.capacity()
    }

    /// How many numbers the list of free slots has room for.
    pub fn free_capacity(&self) -> usize
        ensures { result ≡ most_publications }
    {
        self.free.capacity()
    }

    /// Takes a free slot for a packet that `readers` pipes will wait for, and returns the slot's number.
    pub fn reserve(&mut self, readers: u8) -> u16
        requires room { used_slots self.old < most_publications }
        requires read { 0 < readers }
        ensures within { result < length self.old }
        ensures free { (slot_at self.old result).readers ≡ 0 }
        ensures after { self.new ≡
            slice_set self.old result
            record { packet = (slot_at self.old result).packet; readers = readers } }
    {
        take_slot(&mut self.slots, &mut self.free, readers)
    }

    /// Puts the packet into a slot that was taken for it.
    pub fn put(&mut self, number: u16, packet: &[u8])
        requires taken { 0 < (slot_at self.old number).readers }
        requires fits { length packet.now ≤ longest_packet }
        ensures { self.new ≡
            slice_set self.old number
            record { packet = packet.now; readers = (slot_at self.old number).readers } }
    {
        self.slots[number as usize].put(packet);
    }

    /// Counts one waiting pipe less for a slot's packet. The slot is free when none is left.
    pub fn release(&mut self, number: u16)
        requires within { number < length self.old }
        requires waiting { 0 < (slot_at self.old number).readers }
        ensures { self.new ≡ slice_set self.old number (released (slot_at self.old number)) }
    {
        if self.slots[number as usize].release() {
            self.free.push_reserved(number);
        }
    }

    /// A reader takes the packet: it is copied to the front of a buffer, and released. Returns how many bytes it has.
    pub fn take(&mut self, number: u16, buffer: &mut [u8; PACKET_SIZE]) -> usize
        requires within { number < length self.old }
        requires waiting { 0 < (slot_at self.old number).readers }
        ensures after { self.new ≡ slice_set self.old number (released (slot_at self.old number)) }
        ensures size { result ≡ length (slot_at self.old number).packet }
        ensures buffer { buffer.new ≡ (slot_at self.old number).packet ++
            drop (length (slot_at self.old number).packet) buffer.old }
    {
        let slot = &mut self.slots[number as usize];
        if slot.release() {
            self.free.push_reserved(number);
        }
        slot.read(buffer)
    }
}
