//! Objects give their seats back.

ghost use Rattle.std.specs.Prelude.{◌≡◌, [], map};
ghost use Rattle.app_host.specs.Hosted.{object_at, object_in, shown};
ghost use Rattle.app_host.specs.Whole.{AreSeated, IsWhole};
ghost use Rattle.app_host.specs.Left.{GoesFrom, HasClosed, HasVacated, WasClosed};
ghost use Rattle.app_host.specs.Writing.{written_off};

use crate::app::App;
use crate::host::Host;
use crate::places::retire_at;
use lc_model::Seat;

impl<B: App> Host<B> {
    /// Retires the object on a seat, if there is one, and returns it.
    fn vacate(&mut self, seat: Seat) -> Option<B>
        requires seated { AreSeated (shown B.meaning self.old).seats
            (shown B.meaning self.old).services }
        requires idle { self.old.services.outgoing ≡ [] }
        ensures vacated { HasVacated seat (shown B.meaning self.old) (shown B.meaning self.new) }
        ensures goes { GoesFrom seat self.old.services self.new.services
            (object_at seat (shown B.meaning self.old).seats) (object_in B.meaning result) }
    {
        // For the proof: tables and files are within their bounds, and no name is used twice.
        self.services.tables.is_service();
        let retired = retire_at(&mut self.seats, seat, &mut self.services);
        // The same holds after the call.
        self.services.tables.is_service();
        retired
    }

    /// Retires all applications that run, seat by seat, and returns them by seat. Output that their retirement leaves is
    /// discarded. Then nothing runs, and no pipe, subscription, event sender or table is left. The stock is unchanged.
    pub fn retire_all(&mut self) -> [Option<B>; Seat::COUNT]
        requires whole { IsWhole (shown B.meaning self.old) }
        ensures whole { IsWhole (shown B.meaning self.new) }
        ensures closed { HasClosed (shown B.meaning self.old) (shown B.meaning self.new)
            (map (object_in B.meaning) result) }
    {
        let mut retired: [Option<B>; Seat::COUNT] = [
            None, None, None, None, None, None, None, None,
        ];
        for index in 0..8u8 {
            let seat = Seat::new(index);
            retired[seat.index()] = self.vacate(seat);
            self.let_go();
        }
        retired
    }

    /// Retires all applications that run, as `retire_all` does, and then drops all applications.
    pub fn close(mut self)
        requires whole { IsWhole (shown B.meaning self) }
        ensures closed { WasClosed B.meaning (shown B.meaning self) }
    {
        let _retired = self.retire_all();
        let Host {
            stock: _,
            seats: _,
            services: _,
            packet: _,
            closed: _,
            calls: _,
        } = self;
    }

    /// Discards the waiting output.
    fn let_go(&mut self)
        requires seated { AreSeated (shown B.meaning self.old).seats
            (shown B.meaning self.old).services }
        ensures seated { AreSeated (shown B.meaning self.new).seats
            (shown B.meaning self.new).services }
        ensures services { self.new.services ≡ written_off self.old.services }
        ensures stock { (shown B.meaning self.new).stock ≡ (shown B.meaning self.old).stock }
        ensures seats { (shown B.meaning self.new).seats ≡ (shown B.meaning self.old).seats }
        ensures is_closed { self.new.closed ≡ self.old.closed }
        ensures calls { self.new.calls ≡ self.old.calls }
    {
        // For the proof: tables and files are within their bounds, and no name is used twice.
        self.services.tables.is_service();
        self.services.outgoing.clear();
    }
}
