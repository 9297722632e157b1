//! Runs with the usual stock.

ghost use Rattle.std.specs.Prelude.{◌≡◌, false, IfOk};
ghost use Rattle.lc_model.specs.Host.Outcome.{devices};
ghost use Rattle.flight_core.specs.Compiled.{sources_of};
ghost use Rattle.flight_core.specs.Ending.{ending_of};
ghost use Rattle.whole_run_tests.specs.WithStock.{KeepsItsPromises};

use app_host::App;
use command_counter::Counter;
use flight_core::{Report, RunError, run};
use flight_profile::add;
use lc_model::{ByteSink, ByteSource};
use limit_checker::LimitChecker;
use schedules::Schedule;
use std::alloc::{AllocError, Global};
use tick_scheduler::Scheduler;

/// Runs these texts, with two Limit Checkers, a scheduler and a counter in stock. Out of memory for these is the outer error.
/// Conditions: nothing was read or failed yet.
pub fn run_with_stock<R: ByteSource, W: ByteSink>(
    alloc: Global,
    texts: &[&[u8]],
    schedule: &Schedule,
    reader: &mut R,
    writer: &mut W,
) -> Result<Result<Report, RunError>, AllocError>
    requires unread { (R.source reader.old).reads ≡ 0 }
    requires readable { (R.source reader.old).failed ≡ false }
    requires writable { (W.sink writer.old).failed ≡ false }
    ensures promises { IfOk result (λ answer. KeepsItsPromises (sources_of texts.now) schedule.now
        (devices (R.source reader.old) (R.source reader.new) (W.sink writer.old)
        (W.sink writer.new)) (ending_of answer)) }
{
    let mut stock: Vec<Box<dyn App>> = Vec::new(alloc);
    let checker = Box::new(alloc, LimitChecker::new(alloc)?)?;
    add(&mut stock, schedule, b"LC", checker)?;
    let spare = Box::new(alloc, LimitChecker::new(alloc)?)?;
    add(&mut stock, schedule, b"LC", spare)?;
    let scheduler = Box::new(alloc, Scheduler::new(alloc, schedule)?)?;
    add(&mut stock, schedule, b"SCH", scheduler)?;
    let counter = Box::new(alloc, Counter::new())?;
    add(&mut stock, schedule, b"COUNTER", counter)?;
    Ok(run(alloc, texts, schedule, stock, reader, writer))
}
