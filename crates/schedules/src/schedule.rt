//! Schedules: which requests are published at which tick.

ghost use Rattle.std.specs.Prelude.{◌≡◌, ◌<◌, ◌≤◌, ◌++◌, ◌∷◌, [], length, nat_le, replicate, slice_set, IfOk};
ghost use Rattle.lc_model.specs.Host.Schedule.{entries_at, IsEntry, IsSchedule, most_entries, most_slots};
ghost use Rattle.schedules.specs.Entry.{entries_of, entry_of};

use crate::entry::Entry;
use arrayvec::ArrayVec;
use std::alloc::{AllocError, Global};
use std::marker::Model;

/// The most slots.
pub(crate) const MOST_SLOTS: usize = 64;

/// The most entries of a slot.
const MOST_ENTRIES: usize = 8;

/// The entries of one slot, in order.
#[derive(Debug, Drop)]
struct ScheduleSlot {
    entries: ArrayVec<Entry, MOST_ENTRIES>,
}

impl Model for ScheduleSlot {
    ghost use Rattle.std.specs.Prelude.{List};
    ghost use Rattle.lc_model.specs.Host.Schedule.{ScheduleEntry, AreEntries};
    ghost use Rattle.schedules.specs.Entry.{entries_of};

    ghost Value = { List ScheduleEntry };

    ghost view = { λ s. entries_of s.entries.items };

    ghost invariant = { λ s. AreEntries (entries_of s.entries.items) };
}

impl ScheduleSlot {
    fn new() -> ScheduleSlot
        ensures { result ≡ [] }
    {
        ScheduleSlot {
            entries: ArrayVec::new(),
        }
    }

    fn is_full(&self) -> bool
        ensures { result ≡ nat_le most_entries (length self.now) }
    {
        self.entries.is_full()
    }

    fn push(&mut self, entry: Entry)
        requires room { length self.old < most_entries }
        requires entry { IsEntry (entry_of entry) }
        ensures { self.new ≡ self.old ++ entry_of entry ∷ [] }
    {
        self.entries.push(entry);
    }

    fn entries(&self) -> &[Entry]
        ensures entries { entries_of result.now ≡ self.now }
        ensures few { length result.now ≤ most_entries }
    {
        self.entries.as_slice()
    }

    fn copy(&self) -> ScheduleSlot
        ensures { result ≡ self.now }
    {
        ScheduleSlot {
            entries: ArrayVec::try_from(self.entries.as_slice()).unwrap(),
        }
    }
}

/// A schedule of 1 to 64 slots with at most eight entries each. At its nth tick, from 0, the scheduler publishes the entries of
/// slot n modulo the number of slots. Contracts see its slots as a list of lists.
#[derive(Debug, Drop)]
pub struct Schedule {
    slots: Vec<ScheduleSlot>,
}

impl Model for Schedule {
    ghost use Rattle.lc_model.specs.Host.Schedule.{Schedule as Slots, IsSchedule};

    ghost Value = { Slots };

    ghost view = { λ s. s.slots.items };

    ghost invariant = { λ s. IsSchedule s.slots.items };
}

impl Schedule {
    /// A schedule of this many slots without entries.
    pub(crate) fn new(alloc: Global, slots: usize) -> Result<Schedule, AllocError>
        requires { (1 ≤ slots) × (slots ≤ most_slots) }
        ensures { IfOk result (λ schedule. schedule ≡ replicate slots []) }
    {
        let mut empty = Vec::with_capacity(alloc, slots)?;
        for _ in 0..slots {
            empty.push_reserved(ScheduleSlot::new());
        }
        Ok(Schedule { slots: empty })
    }

    /// A copy. Out of memory is the only error.
    pub fn copy(&self, alloc: Global) -> Result<Schedule, AllocError>
        ensures { IfOk result (λ copy. copy ≡ self.now) }
    {
        let mut slots = Vec::with_capacity(alloc, self.slots.len())?;
        for slot in &self.slots {
            slots.push_reserved(slot.copy());
        }
        Ok(Schedule { slots })
    }

    /// The number of slots.
    pub fn len(&self) -> usize
        ensures slots { result ≡ length self.now }
        ensures fits { IsSchedule self.now }
    {
        self.slots.len()
    }

    /// The entries of a slot, in order.
    pub fn entries(&self, slot: usize) -> &[Entry]
        requires { slot < length self.now }
        ensures entries { entries_of result.now ≡ entries_at self.now slot }
        ensures few { length result.now ≤ most_entries }
    {
        self.slots[slot].entries()
    }

    /// Whether the slot has eight entries.
    pub(crate) fn is_full(&self, slot: usize) -> bool
        requires { slot < length self.now }
        ensures { result ≡ nat_le most_entries (length (entries_at self.now slot)) }
    {
        self.slots[slot].is_full()
    }

    /// Adds an entry after those of its slot.
    pub(crate) fn push(&mut self, slot: usize, entry: Entry)
        requires slot { slot < length self.old }
        requires room { length (entries_at self.old slot) < most_entries }
        requires entry { IsEntry (entry_of entry) }
        ensures { self.new ≡
            slice_set self.old slot (entries_at self.old slot ++ entry_of entry ∷ []) }
    {
        self.slots[slot].push(entry);
    }
}
