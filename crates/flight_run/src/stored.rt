//! The stored run: the Limit Checker starts with the low-volts rule in force; two packets with too low a voltage come, each
//! followed by a request to sample.

ghost use Rattle.std.specs.Prelude.{IfOk};
ghost use Rattle.flight_run.specs.Dispatch.{IsStored};

use crate::done::Done;
use crate::fault::Fault;
use flight_core::run;
use lc_model::stream::PIECE;
use lc_model::{Limited, Pieces};
use limit_checker::LimitChecker;
use schedules::parse_schedule;
use std::alloc::Global;

/// One rule: two samples in a row with a voltage below 2,400 request command sequence 7.
const TEXT: &[u8] = b"packet P = mid 0x0883 length 16; \
    field V = P u16be at 12 stale 2; \
    rule LOW active fails 2 sequence 7 event error 1001 \"low volts\" when V < 2400;";

/// A schedule that does nothing at a tick.
const SCHEDULE: &[u8] = b"slots 1\n";

/// The stream, a record a line, all at second 100: both halves of the text are stored, under the names of the files from which
/// the Limit Checker starts its tables; it starts; twice come telemetry with message id 0x0883 and a voltage of 2,399, and the
/// request to sample all rules.
const STREAM: &[u8] = b"\
    \x04\0\0\0\x64\0\0\0\0\0\x2B/cf/lc_def_wdt.tbl\0\0\0\0\0\0\0\0\0\0\0\0\0\0\0\0\0\0\0\0\0\0\x01\0\0\
    \x04\0\0\0\x64\0\0\0\0\0\x2B/cf/lc_def_adt.tbl\0\0\0\0\0\0\0\0\0\0\0\0\0\0\0\0\0\0\0\0\0\0\x02\0\0\
    \x01\0\0\0\x64\0\0\0\0\0\x1C\x18\x06\xC0\0\0\x15\x01\0LC\0\0\0\0\0\0\0\0\0\0\0\0\0\0\0\0\0\0\
    \x01\0\0\0\x64\0\0\0\0\0\x10\x08\x83\xC0\0\0\x09\0\0\0\0\0\0\x09\x5F\0\0\
    \x01\0\0\0\x64\0\0\0\0\0\x10\x18\xA6\xC0\0\0\x09\0\x88\xFF\xFF\xFF\xFF\0\0\0\0\
    \x01\0\0\0\x64\0\0\0\0\0\x10\x08\x83\xC0\0\0\x09\0\0\0\0\0\0\x09\x5F\0\0\
    \x01\0\0\0\x64\0\0\0\0\0\x10\x18\xA6\xC0\0\0\x09\0\x88\xFF\xFF\xFF\xFF\0\0\0\0";

/// The room for what the run writes: 852 bytes.
const ROOM: usize = 1_024;

/// Runs the low-volts rule over two failing samples.
pub fn run_stored(alloc: Global) -> Result<Done, Fault<'static>>
    ensures { IfOk result IsStored }
{
    let schedule = parse_schedule(alloc, SCHEDULE)?;
    let mut stock: Vec<Box<LimitChecker>> = Vec::new(alloc);
    stock.push(Box::new(alloc, LimitChecker::new(alloc)?)?)?;
    let mut room = [0; ROOM];
    let mut reader = Pieces::new(STREAM, PIECE);
    let mut writer = Limited::new(&mut room, ROOM);
    run(alloc, &[TEXT], &schedule, stock, &mut reader, &mut writer)?;
    Ok(Done::Stored(Vec::from_slice(alloc, writer.bytes())?))
}
