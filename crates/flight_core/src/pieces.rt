//! Reads a stream in pieces.

ghost use Rattle.std.specs.Prelude.{◌≡◌, ◌+◌, ◌<◌, ◌≤◌, false, length};
ghost use Rattle.lc_model.specs.Device.{NoReadRetried};
ghost use Rattle.lc_model.specs.Host.Stream.{header_size, max_body};
ghost use Rattle.host_refinement.specs.Statements.{AreBytes};
ghost use Rattle.flight_core.specs.Going.{Refills, TakesPiece};

use crate::halt::Halt;
use crate::outlet::Outlet;
use crate::records::Records;
use crate::settling::settle;
use lc_model::{ByteSink, ByteSource, DeviceFault, stream};

/// The most reads of a run: 2^32.
pub const MOST_READS: u64 = 4_294_967_296;

/// The most bytes of a piece.
pub(crate) const PIECE: usize = stream::PIECE;

/// For the proof, each byte is below 256. The loop reads the bytes and does nothing else.
fn are_bytes(bytes: &[u8])
    ensures { AreBytes bytes.now }
{
    for byte in bytes {
        let _byte = *byte;
    }
}

/// Reads a piece of the stream into `records`, and returns whether there was one; `false` at the end of the stream.
///
/// Condition: the unread bytes are fewer than a longest record.
pub(crate) fn take_piece<R: ByteSource>(
    records: &mut Records,
    room: &mut [u8],
    reader: &mut R,
    most: u64,
) -> Result<bool, Halt>
    requires room { length room.old ≡ PIECE }
    requires good { records.old.is_bad ≡ false }
    requires few { length records.old.bytes < header_size + max_body }
    requires bounded { (R.source reader.old).reads ≤ most }
    requires most { most ≤ MOST_READS }
    ensures room { length room.new ≡ PIECE }
    ensures piece { TakesPiece most records.old records.new (R.source reader.old)
        (R.source reader.new) result }
    ensures not_retried { NoReadRetried (R.source reader.old) (R.source reader.new) }
    ensures bounded { (R.source reader.new).reads ≤ most }
{
    if reader.reads() == most {
        return Err(Halt::Bound);
    }
    match reader.read(room) {
        Ok(0) => Ok(false),
        Ok(count) => {
            let piece = &room[..count];
            // For the proof: what was read is bytes.
            are_bytes(piece);
            records.feed(piece);
            Ok(true)
        }
        Err(DeviceFault) => Err(Halt::Fault),
    }
}

/// Writes the collected output to the device, and then reads the next piece; `written` is the number of bytes of output so far.
/// If the device fails, the run ends and nothing is read.
#[inline(never)]
pub(crate) fn refill<R: ByteSource, T: ByteSink, O: Outlet<T>>(
    records: &mut Records,
    room: &mut [u8],
    reader: &mut R,
    out: &mut T,
    written: u128,
    most: u64,
) -> Result<bool, Halt>
    requires room { length room.old ≡ PIECE }
    requires good { records.old.is_bad ≡ false }
    requires few { length records.old.bytes < header_size + max_body }
    requires bounded { (R.source reader.old).reads ≤ most }
    requires most { most ≤ MOST_READS }
    ensures room { length room.new ≡ PIECE }
    ensures refilled { Refills written most records.old records.new (R.source reader.old)
        (R.source reader.new) (O.device out.old) (O.device out.new) (O.held out.old)
        (O.held out.new) result }
    ensures not_retried { NoReadRetried (R.source reader.old) (R.source reader.new) }
    ensures bounded { (R.source reader.new).reads ≤ most }
{
    match settle::<T, O>(out, written) {
        Ok(()) => take_piece(records, room, reader, most),
        Err(halt) => Err(halt),
    }
}
