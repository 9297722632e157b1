//! The scheduler: its schedule, the slot of the next tick, and the application of that name.

ghost use Rattle.std.specs.Prelude.{◌≡◌, ◌<◌, ◌≤◌, length, map, None, IfOk};
ghost use Rattle.lc_model.specs.Host.Schedule.{entry_packet, IsSchedule, most_entries};
ghost use Rattle.lc_model.specs.Kept.Next.{next_tick};
ghost use Rattle.schedules.specs.Entry.{entries_of};
ghost use Rattle.app_host.specs.Publishing.{AreShort, Publishes, roomy_depth};

use crate::packet::{PACKET_SIZE, write_packet};
use app_host::laws::seats_are_kept_by_the_rules;
use app_host::publishing::publishing_is_by_the_rules;
use app_host::{App, Services};
use lc_model::packet::message_id;
use lc_model::{Seat, mids};
use schedules::{Entry, Schedule};
use std::alloc::{AllocError, Global};
use std::marker::Model;

const NAME: &[u8] = b"SCH";

/// A scheduler with a copy of its schedule: the application `SCH`. At its nth tick, from 0, it publishes the entries of slot n
/// modulo the number of slots, in order. Contracts see its three parts (`Turn`).
#[derive(Debug, Drop)]
pub struct Scheduler {
    schedule: Schedule,
    slot: usize,
    seat: Option<Seat>,
}

impl Model for Scheduler {
    ghost use Rattle.std.specs.Prelude.{length, ◌<◌};
    ghost use Rattle.lc_model.specs.Host.Schedule.{IsSchedule};
    ghost use Rattle.tick_scheduler.specs.Turn.{Turn};

    ghost Value = { Turn };

    ghost view = { λ s. record { schedule = s.schedule; slot = s.slot; seat = s.seat } };

    ghost invariant = { λ s. (s.slot < length s.schedule) × IsSchedule s.schedule };
}

impl Scheduler {
    /// Creates a scheduler before its first tick, with a copy of the schedule, on no seat. Out of memory is the only error.
    pub fn new(alloc: Global, schedule: &Schedule) -> Result<Scheduler, AllocError>
        ensures { IfOk result
            (λ scheduler. scheduler ≡ record { schedule = schedule.now; slot = 0; seat = None }) }
    {
        let slots = schedule.len();
        let copy = schedule.copy(alloc)?;
        Ok(Scheduler {
            schedule: copy,
            slot: 0,
            seat: None,
        })
    }

    /// Makes the next tick the first one again.
    pub fn begin(&mut self)
        ensures { self.new ≡ record self.old { slot = 0 } }
    {
        self.slot = 0;
    }

    /// States that the schedule is valid. The body does nothing.
    fn has_schedule(&self)
        ensures { IsSchedule self.now.schedule }
    {
        let slots = self.schedule.len();
    }

    /// The entries of the next tick's slot; `write_packet` gives the packet of each.
    pub fn entries(&self) -> &[Entry]
        ensures packets { map entry_packet (entries_of result.now) ≡
            (next_tick self.now.schedule self.now.slot).1 }
        ensures few { length result.now ≤ most_entries }
        ensures inside { self.now.slot < length self.now.schedule }
    {
        self.schedule.entries(self.slot)
    }

    /// The slot, from 0, whose entries the next tick publishes.
    pub fn slot(&self) -> usize
        ensures { result ≡ self.now.slot }
    {
        self.slot
    }

    /// Moves on to the tick of the next slot, or from the last slot to the first.
    pub fn move_on(&mut self)
        ensures { self.new ≡
            record self.old { slot = (next_tick self.old.schedule self.old.slot).0 } }
    {
        let slots = self.schedule.len();
        self.slot = (self.slot + 1) % slots;
    }
}

impl App for Scheduler {
    ghost use Rattle.lc_model.specs.Name.{sch_name};
    ghost use Rattle.lc_model.specs.Kept.Summary.{SchState};

    ghost meaning = { λ s.
        record { called = sch_name; state = SchState s.schedule s.slot; seat = s.seat } };

    fn name(&self) -> &[u8] {
        // For the proof: the schedule is valid.
        self.has_schedule();
        NAME
    }

    fn start(&mut self, seat: Seat, services: &mut Services) {
        // For the proof: each call of the services keeps the rules of the interface.
        seats_are_kept_by_the_rules();
        services.open(seat, NAME, &[mids::TICK]);
        self.seat = Some(seat);
        self.begin();
    }

    fn on_packet(&mut self, services: &mut Services, packet: &[u8]) {
        // For the proof: each call of the services keeps the rules of the interface, and so does publishing.
        seats_are_kept_by_the_rules();
        publishing_is_by_the_rules();
        if message_id(packet) != mids::TICK {
            return;
        }
        publish_all(self.entries(), services);
        self.move_on();
    }

    fn retire(&mut self, services: &mut Services) {
        // For the proof: each call of the services keeps the rules of the interface.
        seats_are_kept_by_the_rules();
        let seat = self.seat.take().unwrap();
        services.close(seat);
    }
}

/// Publishes the packets of these entries, in order. Conditions: at most eight entries, and in each pipe room for as many.
fn publish_all(entries: &[Entry], services: &mut Services)
    requires few { length entries.now ≤ most_entries }
    requires room { AreShort roomy_depth services.old.bus }
    ensures { Publishes (map entry_packet (entries_of entries.now)) services.old services.new }
{
    // For the proof: publishing keeps the rules of the interface.
    publishing_is_by_the_rules();
    let mut buffer = [0; PACKET_SIZE];
    for entry in entries {
        let size = write_packet(*entry, &mut buffer);
        services.publish(&buffer[..size]);
    }
}
