//! The interface of an application.

ghost use Rattle.std.specs.Prelude.{◌≡◌, [], Some, None, IfSome, IsSomeAnd};
ghost use Rattle.lc_model.specs.Kept.Summary.{Other};
ghost use Rattle.lc_model.specs.Kept.Call.{next_start, next_on_packet, next_retire};
ghost use Rattle.lc_model.specs.Services.Interface.{MayBeStarted, MayBeGiven, IsStarted, IsGiven, IsRetired};
ghost use Rattle.lc_model.specs.Services.Settled.{Settled};
ghost use Rattle.app_host.specs.Object.{Object};
ghost use Rattle.app_host.specs.Shared.{on_board, held_by, shared};
ghost use Rattle.app_host.specs.Calls.{IsObject, IsAtHome, Leaves, LeavesEmpty};

use crate::Services;
use lc_model::Seat;

/// An application of the host.
///
/// It holds a seat from `start` to the next `retire`. The seat's pipe, event sender and tables are its own. But for publishing,
/// no call changes what another seat or `HOST` has; none changes a stored file or the moment. One call puts at most 65,536 bytes
/// into `outgoing`.
pub trait App: Drop {
    // What contracts see of it: name, state and seat.
    ghost meaning: { Self → Object };

    /// Its name: 1 to 20 bytes, without zero bytes and dots, and not `HOST`. It never changes, and the names of the application's
    /// tables begin with it and a dot.
    fn name(&self) -> &[u8]
        ensures name { result.now ≡ (meaning self.now).called }
        ensures object { IsObject (meaning self.now).state (meaning self.now).called };

    /// Takes a free seat, with one pipe and an event sender under its name, and begins anew. It publishes nothing.
    ///
    /// Conditions: it holds no seat, no sender or table is registered under its name, and no output waits.
    fn start(&mut self, seat: Seat, services: &mut Services)
        requires spare { (meaning self.old).seat ≡ None }
        requires free { MayBeStarted seat (meaning self.old).called (held_by services.old) }
        ensures name { (meaning self.new).called ≡ (meaning self.old).called }
        ensures seat { (meaning self.new).seat ≡ Some seat }
        ensures rules { IsStarted seat (meaning self.old).called (held_by services.old)
            (held_by services.new) }
        ensures exact { IfSome
            (next_start on_board services.old.moment (meaning self.old).state (shared services.old))
            (Leaves seat (meaning self.new).state services.old services.new) }
        ensures settled { Settled (meaning self.new).state seat (held_by services.new) }
        ensures other { (meaning self.old).state ≡ Other → (meaning self.new).state ≡ Other };

    /// Handles a packet. It publishes only for a tick: at most eight packets, none of them a tick.
    ///
    /// Conditions: it holds a seat, and the seat's pipe, sender and tables are as its own calls and the event and table commands
    /// left them. The packet has none of the faults 1 to 6. No output waits. For a tick each pipe has room for eight packets.
    ///
    /// For an application of another profile the first condition is only that sender and tables are under its name.
    fn on_packet(&mut self, services: &mut Services, packet: &[u8])
        requires home { IsSomeAnd (meaning self.old).seat
            (λ seat. IsAtHome (meaning self.old).state (meaning self.old).called seat
            services.old) }
        requires given { IfSome (meaning self.old).seat
            (λ seat. MayBeGiven seat (meaning self.old).called packet.now (held_by services.old)) }
        ensures name { (meaning self.new).called ≡ (meaning self.old).called }
        ensures seat { (meaning self.new).seat ≡ (meaning self.old).seat }
        ensures rules { IfSome (meaning self.old).seat
            (λ seat. IsGiven seat (meaning self.old).called packet.now (held_by services.old)
            (held_by services.new)) }
        ensures exact { IfSome (meaning self.old).seat
            (λ seat. IfSome (next_on_packet on_board services.old.moment (meaning self.old).state
            packet.now (shared services.old))
            (Leaves seat (meaning self.new).state services.old services.new)) }
        ensures settled { IfSome (meaning self.old).seat
            (λ seat. Settled (meaning self.new).state seat (held_by services.new)) }
        ensures other { (meaning self.old).state ≡ Other → (meaning self.new).state ≡ Other };

    /// Gives its seat back, without a pipe, sender or table. It publishes nothing. Conditions: as for a packet, without those on
    /// the packet.
    fn retire(&mut self, services: &mut Services)
        requires home { IsSomeAnd (meaning self.old).seat
            (λ seat. IsAtHome (meaning self.old).state (meaning self.old).called seat
            services.old) }
        requires idle { services.old.outgoing ≡ [] }
        ensures name { (meaning self.new).called ≡ (meaning self.old).called }
        ensures seat { (meaning self.new).seat ≡ None }
        ensures state { (meaning self.new).state ≡ (meaning self.old).state }
        ensures rules { IfSome (meaning self.old).seat
            (λ seat. IsRetired seat (meaning self.old).called (held_by services.old)
            (held_by services.new)) }
        ensures exact { IfSome (meaning self.old).seat
            (λ seat. IfSome (next_retire (meaning self.old).state (shared services.old))
            (LeavesEmpty seat services.old services.new)) };
}
