//! A whole run whose output is collected for its device.

ghost use Rattle.std.specs.Prelude.{◌≡◌, ◌≤◌, false, [], vec_capacity};
ghost use Rattle.lc_model.specs.Host.Outcome.{devices};
ghost use Rattle.app_host.specs.Hosted.{objects_in};
ghost use Rattle.app_host.specs.Whole.{AreSpares};
ghost use Rattle.flight_core.specs.Promises.{RunsAsPromised};

use crate::error::{Report, RunError};
use crate::gathered::{Gathered, Gathering, MOST_GATHERED, Outset};
use crate::laws::runs_keep_their_promises;
use crate::pieces::MOST_READS;
use crate::running::run_texts;
use app_host::App;
use lc_model::{ByteSink, ByteSource};
use schedules::Schedule;
use std::alloc::Global;
use std::marker::Brand;

/// Runs with this buffer, whose capacity is 65,536 bytes.
fn run_with_buffer<R: ByteSource, W: ByteSink, S: Outset, B: App>(
    alloc: Global,
    texts: &[&[u8]],
    schedule: &Schedule,
    stock: Vec<B>,
    reader: &mut R,
    device: W,
    held: Vec<u8>,
) -> (Result<Report, RunError>, W)
    requires spares { AreSpares (objects_in B.meaning stock.items) }
    requires unread { (R.source reader.old).reads ≡ 0 }
    requires readable { (R.source reader.old).failed ≡ false }
    requires writable { (W.sink device).failed ≡ false }
    requires room { vec_capacity held ≡ MOST_GATHERED }
    requires had { S.had ≡ (W.sink device).gained }
    ensures promises { RunsAsPromised B.meaning texts.now schedule.now stock.items MOST_READS
        (devices (R.source reader.old) (R.source reader.new) (W.sink device) (W.sink result.1))
        result.0 }
{
    // For the proof: each promise follows from how the run ends.
    runs_keep_their_promises();
    let mut out: Gathered<W, S> = Gathered::new(device, held);
    let answer = run_texts::<R, Gathered<W, S>, Gathering, B>(
        alloc, texts, schedule, stock, reader, &mut out, MOST_READS,
    );
    (answer, out.into_device())
}

/// Runs as `run` does, but with few writes: output is collected up to 65,536 bytes. The device, which is returned, has all output
/// before each read of the stream and before the call returns. If the device fails, nothing more is read, and `Write` has the
/// number of this run's bytes that it took. Each byte is written once.
///
/// Conditions: nothing in stock holds a seat; nothing was read or failed yet.
///
/// Errors: those of `run`; `Write` comes before every other.
pub fn run_gathered<R: ByteSource, W: ByteSink, B: App>(
    alloc: Global,
    texts: &[&[u8]],
    schedule: &Schedule,
    stock: Vec<B>,
    reader: &mut R,
    device: W,
) -> (Result<Report, RunError>, W)
    requires spares { AreSpares (objects_in B.meaning stock.items) }
    requires unread { (R.source reader.old).reads ≡ 0 }
    requires readable { (R.source reader.old).failed ≡ false }
    requires writable { (W.sink device).failed ≡ false }

    // All promises of a run, for the device itself: the fields of `Promises` and of `PromisesOfProfile`.
    ensures promises { RunsAsPromised B.meaning texts.now schedule.now stock.items MOST_READS
        (devices (R.source reader.old) (R.source reader.new) (W.sink device) (W.sink result.1))
        result.0 }
{
    // For the proof: each promise follows from how the run ends.
    runs_keep_their_promises();
    match Vec::with_capacity(alloc, MOST_GATHERED) {
        Ok(held) => run_with_buffer::<R, W, Brand, B>(
            alloc, texts, schedule, stock, reader, device, held,
        ),
        Err(_) => (Err(RunError::Memory), device),
    }
}
