//! The low-volts text, with every premise of what `run` promises met by proof.

ghost use Rattle.std.specs.Prelude.{◌≡◌, false, IfOk};
ghost use Rattle.lc_model.specs.Host.Outcome.{devices};
ghost use Rattle.flight_core.specs.Ending.{ending_of};
ghost use Rattle.whole_run_tests.specs.LowVolts.{WritesByItsText, WritesTwoFailures};

use crate::with_stock::run_with_stock;
use flight_core::{Report, RunError};
use lc_model::{ByteSink, ByteSource};
use schedules::Schedule;
use std::alloc::{AllocError, Global};

/// One rule, which fails twice below 2,400 before it requests sequence 7.
pub const LOW_VOLTS: &[u8] =
    b"packet P = mid 0x0883 length 16; field V = P u16be at 12 stale 2; rule LOW active fails 2 sequence 7 event error 1001 \"low volts\" when V < 2400;";

/// Runs the low-volts text, with two Limit Checkers, a scheduler and a counter in stock. Out of memory for these is the outer
/// error. It writes what the rules of the text call for, unless a device fails, the bound of reads is reached, or memory is
/// lacking. Conditions: nothing was read or failed yet.
pub fn run_low_volts<R: ByteSource, W: ByteSink>(
    alloc: Global,
    schedule: &Schedule,
    reader: &mut R,
    writer: &mut W,
) -> Result<Result<Report, RunError>, AllocError>
    requires unread { (R.source reader.old).reads ≡ 0 }
    requires readable { (R.source reader.old).failed ≡ false }
    requires writable { (W.sink writer.old).failed ≡ false }

    // Over every known stream without raw files: what the rules of the text call for.
    ensures any_stream { IfOk result (λ answer. WritesByItsText schedule.now
        (devices (R.source reader.old) (R.source reader.new) (W.sink writer.old)
        (W.sink writer.new)) (ending_of answer)) }

    // Over the stream of two failing samples: exactly the 852 bytes that are called for.
    ensures two_failures { IfOk result (λ answer. WritesTwoFailures
        (devices (R.source reader.old) (R.source reader.new) (W.sink writer.old)
        (W.sink writer.new)) (ending_of answer)) }
{
    run_with_stock(alloc, &[LOW_VOLTS], schedule, reader, writer)
}
