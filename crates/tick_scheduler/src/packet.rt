//! The packets of a schedule's entries.

ghost use Rattle.std.specs.Prelude.{◌≡◌, ◌++◌, length, drop};
ghost use Rattle.lc_model.specs.Host.Schedule.{entry_packet};
ghost use Rattle.schedules.specs.Entry.{entry_of};

use lc_model::{mids, u16_bytes};
use packet_bus::build_command;
use schedules::Entry;

/// The most bytes of an entry's packet.
pub const PACKET_SIZE: usize = 16;

/// Writes an entry's packet to the start of a buffer, whose further bytes stay, and returns its number of bytes: 16 of a sample
/// request, 8 of a housekeeping request. Its sequence count is 0.
pub fn write_packet(entry: Entry, buffer: &mut [u8; PACKET_SIZE]) -> usize
    ensures size { result ≡ length (entry_packet (entry_of entry)) }
    ensures bytes { buffer.new ≡ entry_packet (entry_of entry) ++
        drop (length (entry_packet (entry_of entry))) buffer.old }
{
    match entry {
        Entry::Sample { first, last, ages } => {
            let [a, b] = u16_bytes(first);
            let [c, d] = u16_bytes(last);
            let payload = [a, b, c, d, 0, u8::from(ages), 0, 0];
            build_command(mids::SAMPLE, 0, 0, &payload, buffer)
        }
        Entry::Housekeeping => build_command(mids::LC_HOUSEKEEPING_REQUEST, 0, 0, &[], buffer),
    }
}
