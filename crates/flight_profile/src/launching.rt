//! A run with this profile's applications in stock.

ghost use Rattle.std.specs.Prelude.{◌≡◌, false, ⊤};
ghost use Rattle.lc_model.specs.Host.Outcome.{devices};
ghost use Rattle.flight_core.specs.Promises.{Promises};
ghost use Rattle.flight_profile.specs.Members.{OwnWasClosed};
ghost use Rattle.flight_profile.specs.Stock.{AreOwn, own_mission};

use crate::stock::own_stock;
use flight_core::laws::runs_keep_their_promises;
use flight_core::{Report, RunError, run_gathered};
use lc_model::{ByteSink, ByteSource};
use schedules::Schedule;
use std::alloc::Global;

/// Runs rule texts over a stream of records, as `flight_core::run_gathered` does, with four Limit Checkers, two schedulers
/// with this schedule and two counters in stock. Before each read of the stream, and before the call returns, the device has
/// all output; the device is returned. All memory is allocated before anything is read.
///
/// Conditions: nothing was read or failed yet.
///
/// Errors: those of `run_gathered`, `Memory` for the stock among them.
pub fn launch<R: ByteSource, W: ByteSink + Drop>(
    alloc: Global,
    texts: &[&[u8]],
    schedule: &Schedule,
    reader: &mut R,
    device: W,
) -> (Result<Report, RunError>, W)
    requires unread { (R.source reader.old).reads ≡ 0 }
    requires readable { (R.source reader.old).failed ≡ false }
    requires writable { (W.sink device).failed ≡ false }

    // All that a run of this stock promises, of the device itself: the fields of `Promises` and of `PromisesOfProfile`.
    ensures promises { let before_and_after = devices (R.source reader.old) (R.source reader.new)
        (W.sink device) (W.sink result.1) in
        Promises ⊤ (AreOwn schedule.now) OwnWasClosed
        (own_mission texts.now schedule.now) before_and_after result.0 }
{
    runs_keep_their_promises();
    match own_stock(alloc, schedule) {
        Ok(stock) => run_gathered(alloc, texts, schedule, stock, reader, device),
        Err(_) => (Err(RunError::Memory), device),
    }
}
