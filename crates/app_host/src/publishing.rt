//! Publishing by an application (cFE user's guide, software bus services).

ghost use Rattle.std.specs.Prelude.{◌≡◌, ◌+◌, ℕ, false, None, [], ◌∷◌};
ghost use Rattle.lc_model.specs.Packet.{header_fault};
ghost use Rattle.lc_model.specs.Services.Bus.{is_blocked};
ghost use Rattle.app_host.specs.Publishing.{AreShort, Publishes, NothingIsPublished, PublishingGoesOn, TicksHaveRoom, PublishingAnswers, PublishingLeaves, PublishingSettles};

use crate::services::Services;
use lc_model::laws::bus::bus_is_seen;

impl Services {
    /// Publishes a packet: it is appended once to each pipe that is subscribed to its message id. Conditions: the packet has
    /// no fault, and each of these pipes has room.
    pub fn publish(&mut self, packet: &[u8])
        requires good { header_fault packet.now ≡ None }
        requires room { is_blocked packet.now self.old.bus ≡ false }
        ensures published { Publishes (packet.now ∷ []) self.old self.new }
        ensures fills { (n : ℕ) → AreShort n self.old.bus → AreShort (n + 1) self.new.bus }
    {
        self.bus.publish_judged(packet).unwrap();
    }
}

/// Law: publishing one packet after the other, and nothing else, keeps the rules of the interface, and does exactly as in the
/// model.
pub fn publishing_is_by_the_rules()
    ensures nothing { NothingIsPublished }
    ensures goes_on { PublishingGoesOn }
    ensures ticks_have_room { TicksHaveRoom }
    ensures answers { PublishingAnswers }
    ensures leaves { PublishingLeaves }
    ensures settles { PublishingSettles }
{}
