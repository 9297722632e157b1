//! The Limit Checker that runs on a host.

ghost use Rattle.std.specs.Prelude.{◌≡◌, ◌<◌, option_map};
ghost use Rattle.app_host.specs.Hosted.{object_at, shown};
ghost use Rattle.app_host.specs.Whole.{IsWhole};
ghost use Rattle.flight_profile.specs.Checkers.{engine_among, engine_by, engine_of};

use crate::members::Member;
use app_host::{App, Host};
use lc_model::Seat;
use limit_engine::Engine;

/// An application that may be a Limit Checker.
pub trait HasEngine: App {
    /// Its engine, with the tables in force, if it is a Limit Checker.
    fn engine(&self) -> Option<&Engine>
        ensures { option_map (λ engine. engine.now) result ≡
            engine_by (Self.meaning self.now).state };
}

impl HasEngine for Member {
    fn engine(&self) -> Option<&Engine> {
        match self {
            Member::Checker(checker) => Some(checker.engine()),
            _ => None,
        }
    }
}

impl<B: HasEngine> HasEngine for Box<B> {
    fn engine(&self) -> Option<&Engine> {
        B::engine(self)
    }
}

/// The engine of the Limit Checker on this seat, if there is one.
fn engine_at<B: HasEngine>(host: &Host<B>, number: u8) -> Option<&Engine>
    requires { number < 8 }
    ensures { option_map (λ engine. engine.now) result ≡
        engine_of (object_at number (shown B.meaning host.now).seats) }
{
    match host.application(Seat::new(number)) {
        Some(app) => app.engine(),
        None => None,
    }
}

/// The engine of the running Limit Checker; of several the one on the lowest seat. None if none runs.
pub fn engine_on<B: HasEngine>(host: &Host<B>) -> Option<&Engine>
    requires { IsWhole (shown B.meaning host.now) }
    ensures { option_map (λ engine. engine.now) result ≡
        engine_among (shown B.meaning host.now).seats }
{
    for number in 0..8u8 {
        if let Some(engine) = engine_at(host, number) {
            return Some(engine);
        }
    }
    None
}
