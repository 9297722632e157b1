//! How many packets of each message id came.

ghost use Rattle.std.specs.Prelude.{◌≡◌, map};
ghost use Rattle.run_account.specs.Packets.{brings, packet_with};

use lc_model::packet::{message_id, stream_fault};
use lc_model::stream::HEADER;

/// The packets of a message id that the rule texts name.
#[derive(Clone, Copy, Debug, PartialEq, Eq)]
pub struct PacketCount {
    /// The message id.
    pub mid: u16,
    /// The number of records with a packet of this id that the host accepted, up to 2^64 - 1.
    pub packets: u64,
}

/// The message id of the packet that a record brings, if the host accepts it.
pub fn mid_in(bytes: &[u8]) -> Option<u16>
    ensures { result ≡ brings bytes.now }
{
    if bytes.len() < HEADER || bytes[0] != 1 {
        return None;
    }
    let (_, packet) = bytes.split_at(HEADER);
    if stream_fault(packet).is_some() {
        return None;
    }
    Some(message_id(packet))
}

impl PacketCount {
    /// Counts a packet of this message id.
    fn add(&mut self, mid: u16)
        ensures { self.new ≡ packet_with mid self.old }
    {
        if self.mid == mid {
            self.packets = self.packets.saturating_add(1);
        }
    }
}

/// Counts a packet of this message id.
pub fn count_packet(counts: &mut [PacketCount], mid: u16)
    ensures { counts.new ≡ map (packet_with mid) counts.old }
{
    for count in counts.iter_mut() {
        count.add(mid);
    }
}
