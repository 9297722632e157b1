//! Handles all records of a stream.

ghost use Rattle.std.specs.Prelude.{◌≡◌, ◌+◌, ◌*◌, ◌^◌, ◌<◌, ◌≤◌, false, [], length, Err};
ghost use Rattle.lc_model.specs.Host.Outcome.{devices};
ghost use Rattle.app_host.specs.Hosted.{shown};
ghost use Rattle.flight_core.specs.Brought.{AreWhole, meanings_of};
ghost use Rattle.flight_core.specs.Ending.{ending_of};
ghost use Rattle.flight_core.specs.Failures.{TriesNoneAgain};
ghost use Rattle.flight_core.specs.Flight.{FliesSo, RunHasBegun, ended_by, stopped_by};
ghost use Rattle.flight_core.specs.Records.{nothing_held};
ghost use Rattle.flight_core.specs.Steps.{IsForItsReason};
ghost use Rattle.app_host.specs.Step.{IsBetween};

use crate::error::{Report, RunError};
use crate::halt::Halt;
use crate::handling::handle_next;
use crate::outlet::Outlet;
use crate::pieces::{MOST_READS, PIECE, refill};
use crate::records::Records;
use crate::settling::final_reason;
use app_host::{App, Host};
use host_refinement::{goes_on, records_of_bytes_are_fine, writes_are_the_steps};
use lc_model::{ByteSink, ByteSource};
use rpn_compiler::TablePair;

/// The error of a run that stops for `halt` after the counts of `report`; `held` bytes of its output have not reached the device.
fn run_error(halt: Halt, report: Report, held: usize) -> RunError
    requires records { report.records + 1 < 2 ^ 64 }
    requires bytes { report.bytes + 2 ^ 64 < 2 ^ 128 }
    ensures so { result ≡ stopped_by halt report.records report.bytes held }
    ensures begun { RunHasBegun (Err result) }
{
    let Report { records, bytes } = report;
    match halt {
        Halt::NoRecord => RunError::BadRecord { n: records + 1 },
        Halt::Fault => RunError::Read,
        Halt::Bound => RunError::ReadBound,
        Halt::Unsent(sent) => RunError::Write {
            sent: (bytes + sent as u128).saturating_sub(held as u128),
        },
    }
}

/// Handles all records of the source: all whole records of a piece before the next read. Before each read, and before the call
/// returns, all output has been given to the device.
pub(crate) fn handle_all<R: ByteSource, T: ByteSink, O: Outlet<T>, B: App>(
    records: &mut Records,
    room: &mut [u8],
    pairs: &[TablePair],
    host: &mut Host<B>,
    reader: &mut R,
    out: &mut T,
    most: u64,
) -> Result<Report, RunError>
    requires nothing { records.old ≡ nothing_held (length pairs.now) }
    requires room { length room.old ≡ PIECE }
    requires files { AreWhole pairs.now }
    requires between { IsBetween (shown B.meaning host.old) }
    requires open { (shown B.meaning host.old).is_closed ≡ false }
    requires unread { (R.source reader.old).reads ≡ 0 }
    requires readable { (R.source reader.old).failed ≡ false }
    requires writable { (O.device out.old).failed ≡ false }
    requires empty { O.held out.old ≡ [] }
    requires had { O.Had (O.device out.old).gained }
    requires most { most ≤ MOST_READS }
    ensures outcome { FliesSo pairs.now most (shown B.meaning host.old)
        (devices (R.source reader.old) (R.source reader.new) (O.device out.old)
        (O.device out.new)) result }
    ensures reasons { IsForItsReason (length pairs.now) (meanings_of pairs.now)
        (shown B.meaning host.old) (shown B.meaning host.new) most
        (devices (R.source reader.old) (R.source reader.new) (O.device out.old) (O.device out.new))
        (ending_of result) }
    ensures not_retried { TriesNoneAgain
        (devices (R.source reader.old) (R.source reader.new) (O.device out.old) (O.device out.new)) }
    ensures between { IsBetween (shown B.meaning host.new) }
    ensures begun { RunHasBegun result }
    ensures bounded { (R.source reader.new).reads ≤ most }
{
    // For the proof: what is written for one record more comes after all else; a stream of bytes brings files of bytes; what
    // is written is what the steps write.
    goes_on();
    records_of_bytes_are_fine();
    writes_are_the_steps();
    let mut report = Report {
        records: 0,
        bytes: 0,
    };
    loop {
        match handle_next(records, pairs, host, out) {
            Ok(Some(total)) => {
                report.records += 1;
                report.bytes += total as u128;
            }
            Ok(None) => match refill::<R, T, O>(records, room, reader, out, report.bytes, most) {
                Ok(true) => {}
                Ok(false) => return result_at_end(records, report),
                Err(halt) => return Err(run_error(halt, report, O::held_in(out))),
            },
            Err(halt) => {
                let reason = final_reason::<T, O>(halt, out, report.bytes);
                return Err(run_error(reason, report, O::held_in(out)));
            }
        }
    }
}

/// The result at the end of the stream: complete, or cut inside a record if bytes are left.
fn result_at_end(records: &Records, report: Report) -> Result<Report, RunError>
    requires records { report.records + 1 < 2 ^ 64 }
    ensures so { result ≡ ended_by records.now.bytes report }
    ensures begun { RunHasBegun result }
{
    if records.held() == 0 {
        return Ok(report);
    }
    Err(RunError::Truncated {
        n: report.records + 1,
    })
}
