//! Handles the next record.

ghost use Rattle.std.specs.Prelude.{◌≡◌, false, length};
ghost use Rattle.lc_model.specs.Device.{NoWriteRetried};
ghost use Rattle.app_host.specs.Hosted.{shown};
ghost use Rattle.app_host.specs.Step.{IsBetween};
ghost use Rattle.flight_core.specs.Brought.{AreWhole, meanings_of};
ghost use Rattle.flight_core.specs.Going.{HandlesNext};
ghost use Rattle.flight_core.specs.Leaving.{LeavesForFront};
ghost use Rattle.flight_core.specs.Records.{front_of};

use crate::bringing::record_of;
use crate::halt::Halt;
use crate::records::Records;
use app_host::{App, Host};
use lc_model::ByteSink;
use rpn_compiler::TablePair;

/// Handles the next record, and returns the number of bytes written; `None` if there is no whole record yet.
#[inline(always)]
pub(crate) fn handle_next<W: ByteSink, B: App>(
    records: &mut Records,
    pairs: &[TablePair],
    host: &mut Host<B>,
    writer: &mut W,
) -> Result<Option<u64>, Halt>
    requires texts { records.old.texts ≡ length pairs.now }
    requires files { AreWhole pairs.now }
    requires between { IsBetween (shown B.meaning host.old) }
    requires open { (shown B.meaning host.old).is_closed ≡ false }
    ensures next { HandlesNext (meanings_of pairs.now) records.old records.new
        (shown B.meaning host.old)
        (shown B.meaning host.new) (W.sink writer.old) (W.sink writer.new) result }
    ensures not_retried { NoWriteRetried (W.sink writer.old) (W.sink writer.new) }
    ensures between { IsBetween (shown B.meaning host.new) }
    ensures gone { LeavesForFront B.meaning host.old.seats (shown B.meaning host.old)
        (front_of records.old) }
    ensures texts { records.new.texts ≡ records.old.texts }
{
    match records.next() {
        None => Ok(None),
        Some(found) => match record_of(found, pairs) {
            None => Err(Halt::NoRecord),
            Some(entry) => match host.step_counted(&entry, writer) {
                Ok(total) => Ok(Some(total)),
                Err(fault) => Err(Halt::Unsent(fault.sent)),
            },
        },
    }
}
