//! Opening and closing of a seat, as every application does it (cFE user's guide: software bus pipes, event services
//! registration).

ghost use Rattle.std.specs.Prelude.{◌≡◌, ◌+◌, ◌<◌, ◌≤◌, IfSome, IsSomeAnd, length, []};
ghost use Rattle.lc_model.specs.Kept.Call.{with_mids};
ghost use Rattle.lc_model.specs.Kept.Executive.{seat_count};
ghost use Rattle.lc_model.specs.Services.Bus.{Queue, pipe_at, with_pipe, most_subscriptions};
ghost use Rattle.lc_model.specs.Services.Interface.{IsApplicationName, IsFreeSeat, IsUnusedName};
ghost use Rattle.app_host.specs.Shared.{held_by};
ghost use Rattle.app_host.specs.Seating.{IsOpened, IsClosed, HasPipeAndSender};

use crate::services::Services;
use lc_model::Seat;
use packet_bus::Bus;

impl Services {
    /// Gives the seat a pipe that is subscribed to these message ids, and an event sender with this name. Conditions: the seat
    /// is free, the name is unused, and there are at most 256 ids.
    pub fn open(&mut self, seat: Seat, name: &[u8], message_ids: &[u16])
        requires seat { seat < seat_count }
        requires name { IsApplicationName name.now }
        requires free { IsFreeSeat seat (held_by self.old) }
        requires unused { IsUnusedName name.now (held_by self.old) }
        requires few { length message_ids.now ≤ most_subscriptions }
        ensures { IsOpened seat name.now (with_mids message_ids.now []) self.old self.new }
    {
        // For the proof: no two event senders have the same name.
        self.events.is_service();
        self.bus.add_pipe(seat).unwrap();
        subscribe(&mut self.bus, seat, message_ids);
        self.events.register(seat, name).unwrap();
    }

    /// Removes the seat's pipe, event sender and tables. Condition: it has a pipe and a sender.
    pub fn close(&mut self, seat: Seat)
        requires { HasPipeAndSender seat (held_by self.old) }
        ensures { IsClosed seat self.old self.new }
    {
        // For the proof: no two event senders have the same name.
        self.events.is_service();
        self.bus.remove_pipe(seat).unwrap();
        self.events.unregister(seat).unwrap();
        self.tables.unregister(seat);
    }
}

/// Adds subscriptions of the seat's pipe to these message ids. Condition: it has a pipe, with room for these subscriptions.
pub fn subscribe(bus: &mut Bus, seat: Seat, message_ids: &[u16])
    requires { IsSomeAnd (pipe_at seat bus.old)
        (λ (queue : Queue).
        length queue.subscriptions + length message_ids.now ≤ most_subscriptions) }
    ensures { IfSome (pipe_at seat bus.old)
        (λ (queue : Queue). bus.new ≡
        with_pipe seat bus.old
        (record queue { subscriptions = with_mids message_ids.now queue.subscriptions })) }
{
    for message_id in message_ids {
        bus.subscribe(seat, *message_id).unwrap();
    }
}
