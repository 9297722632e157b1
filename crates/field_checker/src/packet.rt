//! Checks of packets.

ghost use Rattle.std.specs.Prelude.{◌≡◌, List, pos};
ghost use Rattle.std.specs.List.{list_any};
ghost use Rattle.std.specs.Ordering.{int_eq};
ghost use Rattle.lc_model.specs.Packet.{reserved_mids};
ghost use Rattle.lc_model.specs.Text.Syntax as model;
ghost use Rattle.lc_model.specs.Text.Meaning.{packet_faults};
ghost use Rattle.rule_parser.specs.Syntax.{packet_of};
ghost use Rattle.field_checker.specs.Faults.{NamesItsFault, after, first_of};

use crate::fault::Check;
use crate::faults::Faults;
use lc_model::{mids, packet};
use rule_parser::{Number, PacketItem};

/// A packet's least and most bytes.
const SHORTEST_PACKET: u32 = 12;

const LONGEST_PACKET: u32 = packet::LONGEST_PACKET as u32;

/// Whether the message id is one of the host's own telemetry, which no rule watches.
fn is_reserved(mid: Number) -> bool
    ensures { result ≡ list_any (λ reserved. int_eq mid.value (pos reserved)) reserved_mids }
{
    mid.value == i64::from(mids::EVENT) || mid.value == i64::from(mids::LC_HOUSEKEEPING)
}

impl Faults {
    /// Adds the faults of a packet's message id and length.
    #[tactic(auto, using(crate::proofs::After::both_met, crate::proofs::After::nothing_met))]
    pub fn check_packet(&mut self, packet: &PacketItem)
        ensures faults { first_of self.new ≡
            after (first_of self.old) (packet_faults (packet_of packet.now)) }
        ensures names { (items : List model.Item) → NamesItsFault items self.old.first →
            NamesItsFault items self.new.first }
    {
        self.refuse_outside(
            packet.mid,
            mids::FIRST_TELEMETRY.into(),
            mids::LAST_TELEMETRY.into(),
            Check::MidRange,
        );
        self.refuse_if(is_reserved(packet.mid), Check::ReservedMid, packet.mid.at);
        self.refuse_outside(
            packet.length,
            SHORTEST_PACKET,
            LONGEST_PACKET,
            Check::LengthRange,
        );
    }
}
