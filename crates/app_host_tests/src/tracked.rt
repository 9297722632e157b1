//! Applications, watched.

ghost use Rattle.std.specs.Prelude.{◌≡◌};

use crate::tally::Tally;
use app_host::{App, Services};
use lc_model::Seat;

/// An application whose starts, retirements and drop are tallied.
pub struct Tracked<A: App> {
    app: A,
    tally: Tally,
}

impl<A: App> Tracked<A> {
    /// Wraps the application; its calls are tallied from now on.
    pub fn new(app: A, tally: Tally) -> Tracked<A>
        ensures { result.app ≡ app }
    {
        Tracked { app, tally }
    }
}

impl<A: App> App for Tracked<A> {
    ghost meaning = { λ t. A.meaning t.app };

    fn name(&self) -> &[u8] {
        self.app.name()
    }

    fn start(&mut self, seat: Seat, services: &mut Services) {
        self.tally.count_start();
        self.app.start(seat, services);
    }

    fn on_packet(&mut self, services: &mut Services, packet: &[u8]) {
        self.app.on_packet(services, packet);
    }

    fn retire(&mut self, services: &mut Services) {
        self.tally.count_retirement();
        self.app.retire(services);
    }
}

impl<A: App> Drop for Tracked<A> {
    fn drop(self) {
        self.tally.count_drop();
        let Tracked { app: _, tally: _ } = self;
    }
}
