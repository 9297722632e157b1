//! An application that sends something as it comes, for each packet, and as it goes.

ghost use Rattle.std.specs.Prelude.{◌≡◌, ◌≤◌, None, length, slice_index_or};

use crate::named::{HEARD, leave};
use app_host::laws::seats_are_kept_by_the_rules;
use app_host::{App, Services};
use lc_model::{EventKind, Seat};

/// An application whose name is one letter. It sends an event at its start, and writes its letter for each packet of 0x18D0
/// and as it retires.
#[derive(Drop)]
pub struct Speaking {
    name: [u8; 1],
    seat: Option<Seat>,
    ghost one: { length name ≡ 1 },
    ghost letter: { 65 ≤ slice_index_or name 0 0 },
}

impl Speaking {
    /// The application whose name is the letter of this number, from `A` on. It holds no seat.
    pub fn new(number: u8) -> Speaking
        ensures { result.seat ≡ None }
    {
        Speaking {
            name: [b'A' + number % 26],
            seat: None,
        }
    }
}

impl App for Speaking {
    ghost use Rattle.lc_model.specs.Kept.Summary.{Other};

    ghost meaning = { λ s. record { called = s.name; state = Other; seat = s.seat } };

    fn name(&self) -> &[u8] {
        &self.name
    }

    fn start(&mut self, seat: Seat, services: &mut Services) {
        seats_are_kept_by_the_rules();
        services.open(seat, &self.name, &[HEARD]);
        services.tell(Some(seat), 1, EventKind::Information, b"here");
        self.seat = Some(seat);
    }

    fn on_packet(&mut self, services: &mut Services, _packet: &[u8]) {
        seats_are_kept_by_the_rules();
        services.outgoing.append(&self.name);
    }

    fn retire(&mut self, services: &mut Services) {
        seats_are_kept_by_the_rules();
        if let Some(seat) = self.seat.take() {
            leave(seat, services);
            services.outgoing.append(&self.name);
        }
    }
}
