//! An application of this profile, as one type.

use app_host::{App, Services};
use command_counter::Counter;
use lc_model::Seat;
use limit_checker::LimitChecker;
use tick_scheduler::Scheduler;

/// An application of this profile.
#[derive(Drop)]
pub enum Member {
    /// The application `LC`.
    Checker(LimitChecker),
    /// The application `SCH`.
    Scheduler(Scheduler),
    /// The application `COUNTER`.
    Counter(Counter),
}

impl App for Member {
    ghost use Rattle.flight_profile.specs.Members.{member_meaning};

    ghost meaning = { member_meaning };

    fn name(&self) -> &[u8] {
        match self {
            Member::Checker(app) => app.name(),
            Member::Scheduler(app) => app.name(),
            Member::Counter(app) => app.name(),
        }
    }

    fn start(&mut self, seat: Seat, services: &mut Services) {
        match self {
            Member::Checker(app) => app.start(seat, services),
            Member::Scheduler(app) => app.start(seat, services),
            Member::Counter(app) => app.start(seat, services),
        }
    }

    #[inline(always)]
    fn on_packet(&mut self, services: &mut Services, packet: &[u8]) {
        match self {
            Member::Checker(app) => app.on_packet(services, packet),
            Member::Scheduler(app) => app.on_packet(services, packet),
            Member::Counter(app) => app.on_packet(services, packet),
        }
    }

    fn retire(&mut self, services: &mut Services) {
        match self {
            Member::Checker(app) => app.retire(services),
            Member::Scheduler(app) => app.retire(services),
            Member::Counter(app) => app.retire(services),
        }
    }
}
