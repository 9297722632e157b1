//! Sets of seats.

ghost use Rattle.std.specs.Prelude.{◌≡◌, ◌<◌, ◌==◌, true, false, length, replicate, slice_set, slice_index_or, count_by, Bool, IfSome, IfNone, None, if◌then◌else◌};
ghost use Rattle.std.specs.List.{list_any, position_from};
ghost use Rattle.lc_model.specs.Kept.Executive.{seat_count};
ghost use Rattle.packet_bus.specs.Seats.{seats_in, is_in, meet, together};

use lc_model::Seat;
use std::marker::Model;

/// A set of seats, a bit for each. Contracts see for each seat, in order, whether it is in the set.
#[derive(Drop)]
pub(crate) struct SeatSet {
    bits: u8,
}

impl Model for SeatSet {
    ghost use Rattle.std.specs.Prelude.{List, Bool, ◌<◌};
    ghost use Rattle.packet_bus.specs.Seats.{seats_in};

    ghost Value = { List Bool };

    ghost view = { λ s. seats_in s.bits };

    ghost invariant = { λ s. s.bits < 256 };
}

impl SeatSet {
    /// No seat.
    pub fn new() -> SeatSet
        ensures { result ≡ replicate seat_count false }
    {
        SeatSet { bits: 0 }
    }

    /// A copy of these seats.
    pub fn copy(&self) -> SeatSet
        ensures { result ≡ self.now }
    {
        SeatSet { bits: self.bits }
    }

    /// Whether the seat is one of these.
    pub fn contains(&self, seat: Seat) -> bool
        ensures inside { result ≡ slice_index_or self.now seat false }
        ensures below { seat < seat_count }
    {
        self.bits & 1 << seat.index() != 0
    }

    /// Adds the seat to the set.
    pub fn insert(&mut self, seat: Seat)
        ensures { self.new ≡ slice_set self.old seat true }
    {
        self.bits |= 1 << seat.index();
    }

    /// Removes the seat from the set.
    pub fn remove(&mut self, seat: Seat)
        ensures { self.new ≡ slice_set self.old seat false }
    {
        self.bits &= !(1 << seat.index());
    }

    /// The least seat.
    pub fn least(&self) -> Option<Seat>
        ensures { result ≡ position_from is_in 0 self.now }
    {
        if self.bits == 0 {
            return None;
        }
        Some(Seat::new(self.bits.trailing_zeros() as u8))
    }

    /// The set's only seat, or `None` if it has none or several.
    pub fn only(&self) -> Option<Seat>
        ensures { result ≡
            (if count_by is_in self.now == 1 then position_from is_in 0 self.now else None) }
    {
        if self.count() == 1 {
            self.least()
        } else {
            None
        }
    }

    /// Removes the least seat and returns it, if there is one.
    pub fn pop_least(&mut self) -> Option<Seat>
        ensures least { result ≡ position_from is_in 0 self.old }
        ensures after { IfSome result (λ seat. self.new ≡ slice_set self.old seat false) }
        ensures none { IfNone result (self.new ≡ self.old) }
    {
        if self.bits == 0 {
            return None;
        }
        let number = self.bits.trailing_zeros() as u8;
        self.bits &= self.bits - 1;
        Some(Seat::new(number))
    }

    /// Adds the seats of another set.
    pub fn add(&mut self, others: &SeatSet)
        ensures { self.new ≡ together self.old others.now }
    {
        self.bits |= others.bits;
    }

    /// Whether there is no seat.
    pub fn is_empty(&self) -> bool
        ensures { result ≡ (count_by is_in self.now == 0) }
    {
        self.bits == 0
    }

    /// How many seats there are.
    pub fn count(&self) -> u8
        ensures { result ≡ count_by is_in self.now }
    {
        self.bits.count_ones() as u8
    }

    /// Whether a seat is in both sets.
    pub fn meets(&self, other: &SeatSet) -> bool
        ensures { result ≡ meet self.now other.now }
    {
        self.bits & other.bits != 0
    }
}
