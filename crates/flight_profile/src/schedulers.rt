//! The scheduler that runs on a host.

ghost use Rattle.std.specs.Prelude.{◌≡◌, ◌<◌};
ghost use Rattle.app_host.specs.Hosted.{object_at, shown};
ghost use Rattle.app_host.specs.Whole.{IsWhole};
ghost use Rattle.flight_profile.specs.Checkers.{slot_among, slot_by, slot_of};

use crate::members::Member;
use app_host::{App, Host};
use lc_model::Seat;

/// An application that may be a scheduler.
pub trait HasSlot: App {
    /// The slot of its schedule that the next tick publishes, if it is a scheduler.
    fn slot(&self) -> Option<usize>
        ensures { result ≡ slot_by (Self.meaning self.now).state };
}

impl HasSlot for Member {
    fn slot(&self) -> Option<usize> {
        match self {
            Member::Scheduler(scheduler) => Some(scheduler.slot()),
            _ => None,
        }
    }
}

impl<B: HasSlot> HasSlot for Box<B> {
    fn slot(&self) -> Option<usize> {
        B::slot(self)
    }
}

/// The slot of the scheduler on this seat, if there is one.
fn slot_at<B: HasSlot>(host: &Host<B>, number: u8) -> Option<usize>
    requires { number < 8 }
    ensures { result ≡ slot_of (object_at number (shown B.meaning host.now).seats) }
{
    match host.application(Seat::new(number)) {
        Some(app) => app.slot(),
        None => None,
    }
}

/// The slot, from 0, that the next tick publishes of the running scheduler; of several the one on the lowest seat. None if none
/// runs.
pub fn slot_on<B: HasSlot>(host: &Host<B>) -> Option<usize>
    requires { IsWhole (shown B.meaning host.now) }
    ensures { result ≡ slot_among (shown B.meaning host.now).seats }
{
    for number in 0..8u8 {
        if let Some(slot) = slot_at(host, number) {
            return Some(slot);
        }
    }
    None
}
