//! How each packet is handled (cFS Limit Checker user's guide: commands, housekeeping, samples, telemetry; the message ids are
//! this project's own).

ghost use Rattle.std.specs.Prelude.{◌≡◌};
ghost use Rattle.limit_checker.specs.Application.{IsHome, MayHave, Answers};

use crate::application::Application;
use app_host::Services;
use app_host::laws::seats_are_kept_by_the_rules;
use app_host::sending::telling_goes_on;
use lc_model::mids;
use lc_model::packet::message_id;

impl Application {
    /// Handles a packet by its message id: a command (0x18A4), a housekeeping request (0x18A5), a sample request (0x18A6), or
    /// telemetry (0x0800 to 0x0FFF). Any other changes nothing.
    pub(crate) fn answer(&mut self, services: &mut Services, packet: &[u8])
        requires home { IsHome self.old.seat self.old.engine services.old }
        requires given { MayHave self.old.seat packet.now services.old }
        ensures seat { self.new.seat ≡ self.old.seat }
        ensures answers { Answers self.old.seat self.old.engine self.new.engine packet.now
            services.old services.new }
    {
        // For the proof: each call of the services keeps the rules of the interface, and the requests of several calls are sent
        // in order.
        seats_are_kept_by_the_rules();
        telling_goes_on();
        let mid = message_id(packet);
        if mids::is_telemetry(mid) {
            self.telemetry(services, packet);
        } else if mid == mids::LC_COMMAND {
            self.command(services, packet);
        } else if mid == mids::LC_HOUSEKEEPING_REQUEST {
            self.housekeeping(services, packet);
        } else if mid == mids::SAMPLE {
            self.sample(services, packet);
        }
    }
}
