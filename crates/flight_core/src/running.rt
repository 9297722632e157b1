//! A whole run: from rule texts and a stream of records to the packets that the host writes.

ghost use Rattle.std.specs.Prelude.{◌≡◌, ◌≤◌, true, false, [], length, IfErr};
ghost use Rattle.std.specs.Mem.{FitsInMemory};
ghost use Rattle.lc_model.specs.Host.Outcome.{devices};
ghost use Rattle.lc_model.specs.Host.Promise.{IsRun};
ghost use Rattle.app_host.specs.Hosted.{objects_in};
ghost use Rattle.app_host.specs.Left.{WasClosed};
ghost use Rattle.app_host.specs.Whole.{AreSpares};
ghost use Rattle.flight_core.specs.Brought.{AreWhole};
ghost use Rattle.flight_core.specs.Compiled.{NamesTheNumber, sources_of};
ghost use Rattle.flight_core.specs.Ending.{ending_of};
ghost use Rattle.flight_core.specs.Failures.{TriesNoneAgain};
ghost use Rattle.flight_core.specs.Fitting.{RefusesUnfitAlone};
ghost use Rattle.flight_core.specs.Promises.{RunsAsPromised};
ghost use Rattle.flight_core.specs.Room.{HostFits};
ghost use Rattle.flight_core.specs.Steps.{AnswersForItsReason, RunsForItsReason};
ghost use Rattle.flight_core.specs.Run.{AreOfProfile, AreThese, IsOfProfile, RefusesNone, RunsSo, members_of, mission_of};

use crate::compiling::compile_all;
use crate::error::{Report, RunError};
use crate::flight::handle_all;
use crate::laws::runs_keep_their_promises;
use crate::outlet::{AtOnce, Outlet};
use crate::pieces::{MOST_READS, PIECE};
use crate::records::Records;
use app_host::{App, Host};
use host_refinement::writes_a_mission;
use lc_model::{ByteSink, ByteSource};
use rpn_compiler::TablePair;
use schedules::Schedule;
use std::alloc::Global;
use std::mem::size_of_val;

/// Whether the type fits in memory, as every type with a value does.
fn fits_in_memory<T>(none: &Option<T>) -> bool
    ensures { result ≡ true → FitsInMemory T.row }
{
    size_of_val(none) <= isize::MAX as usize
}

/// Whether a host of these applications fits in memory.
fn host_fits<B: App>() -> bool
    ensures { result ≡ true → HostFits B.row }
{
    let none: Option<Host<B>> = None;
    let fits = fits_in_memory(&none);
    match none {
        None => fits,
        Some(_host) => unreachable!(),
    }
}

/// Allocates all memory, and handles all records; `pairs` are the compiled texts.
fn run_compiled<R: ByteSource, T: ByteSink, O: Outlet<T>, B: App>(
    alloc: Global,
    pairs: &[TablePair],
    stock: Vec<B>,
    reader: &mut R,
    out: &mut T,
    reads: u64,
) -> Result<Report, RunError>
    requires files { AreWhole pairs.now }
    requires spares { AreSpares (objects_in B.meaning stock.items) }
    requires unread { (R.source reader.old).reads ≡ 0 }
    requires readable { (R.source reader.old).failed ≡ false }
    requires writable { (O.device out.old).failed ≡ false }
    requires empty { O.held out.old ≡ [] }
    requires had { O.Had (O.device out.old).gained }
    requires most { reads ≤ MOST_READS }
    ensures run { AreOfProfile (objects_in B.meaning stock.items) →
        RunsSo pairs.now (members_of (objects_in B.meaning stock.items)) (length pairs.now) reads
        (devices (R.source reader.old) (R.source reader.new) (O.device out.old)
        (O.device out.new)) result }
    ensures reasons { RunsForItsReason (WasClosed B.meaning) pairs.now
        (members_of (objects_in B.meaning stock.items)) reads
        (devices (R.source reader.old) (R.source reader.new) (O.device out.old) (O.device out.new))
        (ending_of result) }
    ensures judged { RefusesNone
        (devices (R.source reader.old) (R.source reader.new) (O.device out.old)
        (O.device out.new)) result }
    ensures not_retried { TriesNoneAgain
        (devices (R.source reader.old) (R.source reader.new) (O.device out.old)
        (O.device out.new)) }
    ensures bounded { (R.source reader.new).reads ≤ reads }
{
    // Always true, and known at compile time. It shows the proof that a host fits in memory, whatever its applications are.
    if !host_fits::<B>() {
        return Err(RunError::Memory);
    }
    let mut records = Records::new(alloc, pairs.len())?;
    let mut room = vec![in alloc; 0; PIECE]?;
    match Host::new(alloc, stock) {
        Ok(mut host) => {
            let result = handle_all::<R, T, O, B>(
                &mut records,
                room.as_mut_slice(),
                pairs,
                &mut host,
                reader,
                out,
                reads,
            );
            host.close();
            result
        }
        Err(_) => Err(RunError::Memory),
    }
}

/// Runs as `run` does, with at most `reads` reads.
///
/// Condition: `reads` is at most 2^32.
pub fn run_within<R: ByteSource, W: ByteSink, B: App>(
    alloc: Global,
    texts: &[&[u8]],
    schedule: &Schedule,
    stock: Vec<B>,
    reader: &mut R,
    writer: &mut W,
    reads: u64,
) -> Result<Report, RunError>
    requires spares { AreSpares (objects_in B.meaning stock.items) }
    requires unread { (R.source reader.old).reads ≡ 0 }
    requires readable { (R.source reader.old).failed ≡ false }
    requires writable { (W.sink writer.old).failed ≡ false }
    requires most { reads ≤ MOST_READS }

    // All promises of a run: the fields of `Promises` and of `PromisesOfProfile`, which have comments.
    ensures promises { RunsAsPromised B.meaning texts.now schedule.now stock.items reads
        (devices (R.source reader.old) (R.source reader.new) (W.sink writer.old)
        (W.sink writer.new)) result }
{
    // For the proof: each promise follows from how the run ends.
    runs_keep_their_promises();
    run_texts::<R, W, AtOnce, B>(alloc, texts, schedule, stock, reader, writer, reads)
}

/// Compiles the texts, and handles all records.
pub(crate) fn run_texts<R: ByteSource, T: ByteSink, O: Outlet<T>, B: App>(
    alloc: Global,
    texts: &[&[u8]],
    schedule: &Schedule,
    stock: Vec<B>,
    reader: &mut R,
    out: &mut T,
    reads: u64,
) -> Result<Report, RunError>
    requires spares { AreSpares (objects_in B.meaning stock.items) }
    requires unread { (R.source reader.old).reads ≡ 0 }
    requires readable { (R.source reader.old).failed ≡ false }
    requires writable { (O.device out.old).failed ≡ false }
    requires empty { O.held out.old ≡ [] }
    requires had { O.Had (O.device out.old).gained }
    requires most { reads ≤ MOST_READS }
    ensures run { IsOfProfile schedule.now (objects_in B.meaning stock.items) →
        IsRun (mission_of texts.now schedule.now (objects_in B.meaning stock.items) reads)
        (devices (R.source reader.old) (R.source reader.new) (O.device out.old)
        (O.device out.new)) (ending_of result) }
    ensures refuses { RefusesUnfitAlone (sources_of texts.now)
        (devices (R.source reader.old) (R.source reader.new) (O.device out.old)
        (O.device out.new)) (ending_of result) }
    ensures named { IfErr result (NamesTheNumber (sources_of texts.now)) }
    ensures reasons { AnswersForItsReason (AreThese (objects_in B.meaning stock.items))
        (WasClosed B.meaning)
        (mission_of texts.now schedule.now (objects_in B.meaning stock.items) reads)
        (devices (R.source reader.old) (R.source reader.new) (O.device out.old) (O.device out.new))
        (ending_of result) }
    ensures not_retried { TriesNoneAgain
        (devices (R.source reader.old) (R.source reader.new) (O.device out.old)
        (O.device out.new)) }
    ensures bounded { (R.source reader.new).reads ≤ reads }
{
    // For the proof: the host in numbers writes what a mission calls for.
    writes_a_mission();
    // For the proof: the schedule is a valid one.
    let _slots = schedule.len();
    match compile_all(alloc, texts) {
        Ok(pairs) => run_compiled::<R, T, O, B>(alloc, pairs.as_slice(), stock, reader, out, reads),
        Err(error) => Err(error),
    }
}

/// Runs rule texts over a stream of records, and writes the packets that the host sends.
///
/// All texts are compiled and all memory is allocated before the first read. The stream is read in pieces of up to 8,192 bytes;
/// all whole records of a piece are handled before the next read. Output is written after each call of an application and after
/// each event of `HOST`. At most 2^32 reads are made. A failed read or write is not tried again, and what was written before it
/// stands. The host is closed before the call returns.
///
/// Conditions: nothing in stock holds a seat; nothing was read or failed yet.
///
/// Errors: `Compile` with the first text that does not compile, numbered from 0, and `Memory`, both before the first read;
/// `BadRecord` and `Truncated` with the record's number from 1; `Read`; `Write` with the number of this run's bytes that the
/// writer took; `ReadBound`.
pub fn run<R: ByteSource, W: ByteSink, B: App>(
    alloc: Global,
    texts: &[&[u8]],
    schedule: &Schedule,
    stock: Vec<B>,
    reader: &mut R,
    writer: &mut W,
) -> Result<Report, RunError>
    requires spares { AreSpares (objects_in B.meaning stock.items) }
    requires unread { (R.source reader.old).reads ≡ 0 }
    requires readable { (R.source reader.old).failed ≡ false }
    requires writable { (W.sink writer.old).failed ≡ false }

    // All promises of a run: the fields of `Promises` and of `PromisesOfProfile`, which have comments.
    ensures promises { RunsAsPromised B.meaning texts.now schedule.now stock.items MOST_READS
        (devices (R.source reader.old) (R.source reader.new) (W.sink writer.old)
        (W.sink writer.new)) result }
{
    run_within(alloc, texts, schedule, stock, reader, writer, MOST_READS)
}
