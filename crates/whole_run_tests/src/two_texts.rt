//! Two texts whose tables are swapped in flight, one half as a raw file, and a reload, with every premise of what `run` promises met
//! by proof.

ghost use Rattle.std.specs.Prelude.{◌≡◌, false, IfOk};
ghost use Rattle.lc_model.specs.Host.Outcome.{devices};
ghost use Rattle.flight_core.specs.Ending.{ending_of};
ghost use Rattle.whole_run_tests.specs.TwoTexts.{WritesBoth};

use crate::low_volts::LOW_VOLTS;
use crate::with_stock::run_with_stock;
use flight_core::{Report, RunError};
use lc_model::{ByteSink, ByteSource};
use rule_analysis::laws::quiet_sequences_are_not_written;
use schedules::Schedule;
use std::alloc::{AllocError, Global};

/// Two rules over the same field: one fails once below 2,000 and requests sequence 8; the other never fails, and would request
/// sequence 9.
pub const LOWER_VOLTS: &[u8] =
    b"packet P = mid 0x0883 length 16; field V = P u16be at 12 stale 2; rule LOW active fails 1 sequence 8 event error 1002 \"lower volts\" when V < 2000; rule QUIET active fails 1 sequence 9 event error 1003 \"never\" when V < 2000 and not V < 2000;";

/// Runs both texts, with two Limit Checkers, a scheduler and a counter in stock. Out of memory for these is the outer error. Over
/// the stream of swaps and a reload it writes exactly what the texts call for, each while it is in force, unless a device fails or
/// memory is lacking; and where none of this happens, no packet that it writes requests sequence 9. Conditions: nothing was read or
/// failed yet.
pub fn run_two_texts<R: ByteSource, W: ByteSink>(
    alloc: Global,
    schedule: &Schedule,
    reader: &mut R,
    writer: &mut W,
) -> Result<Result<Report, RunError>, AllocError>
    requires unread { (R.source reader.old).reads ≡ 0 }
    requires readable { (R.source reader.old).failed ≡ false }
    requires writable { (W.sink writer.old).failed ≡ false }
    ensures both { IfOk result (λ answer. WritesBoth schedule.now
        (devices (R.source reader.old) (R.source reader.new) (W.sink writer.old)
        (W.sink writer.new)) (ending_of answer)) }
{
    // For the proof: a sequence that only rules request that never fail is requested by no packet.
    quiet_sequences_are_not_written();
    run_with_stock(alloc, &[LOW_VOLTS, LOWER_VOLTS], schedule, reader, writer)
}
