//! A run with boxes of any applications in stock.

ghost use Rattle.std.specs.Prelude.{◌≡◌, ◌≤◌, false, None, IfOk, OnOk};
ghost use Rattle.lc_model.specs.Host.Outcome.{devices};
ghost use Rattle.lc_model.specs.Kept.Summary.{Other};
ghost use Rattle.app_host.specs.Hosted.{objects_in};
ghost use Rattle.app_host.specs.Left.{WasClosed};
ghost use Rattle.app_host.specs.Whole.{AreSpares};
ghost use Rattle.flight_core.specs.Compiled.{sources_of};
ghost use Rattle.flight_core.specs.Ending.{ending_of};
ghost use Rattle.flight_core.specs.Fitting.{RefusesUnfitAlone};
ghost use Rattle.mixed_stock_tests.specs.Mixed.{AreMixed, HasStranger, RunsMixed};

use app_host::App;
use app_host_tests::named::LetterApp;
use flight_profile::{Counter, LimitChecker, Report, RunError, Schedule, Scheduler, add, run};
use lc_model::{ByteSink, ByteSource};
use std::alloc::{AllocError, Global};

/// Adds an application of another kind than this profile's. Condition: it holds no seat. Out of memory is the only error.
fn add_stranger<B: App>(stock: &mut Vec<B>, app: B) -> Result<(), AllocError>
    requires spares { AreSpares (objects_in B.meaning stock.old.items) }
    requires spare { (B.meaning app).seat ≡ None }
    requires other { (B.meaning app).state ≡ Other }
    ensures spares { OnOk result (AreSpares (objects_in B.meaning stock.new.items)) }
    ensures stranger { OnOk result (HasStranger (objects_in B.meaning stock.old.items)
        (objects_in B.meaning stock.new.items)) }
{
    stock.push(app)?;
    Ok(())
}

/// Runs these texts with a stock in which a fourth application is of another kind than this profile's. Conditions: nothing was read or
/// failed yet.
fn run_stock<R: ByteSource, W: ByteSink, B: App>(
    alloc: Global,
    texts: &[&[u8]],
    schedule: &Schedule,
    stock: Vec<B>,
    reader: &mut R,
    writer: &mut W,
) -> Result<Report, RunError>
    requires spares { AreSpares (objects_in B.meaning stock.items) }
    requires mixed { AreMixed schedule.now (objects_in B.meaning stock.items) }
    requires unread { (R.source reader.old).reads ≡ 0 }
    requires readable { (R.source reader.old).failed ≡ false }
    requires writable { (W.sink writer.old).failed ≡ false }
    ensures refuses { RefusesUnfitAlone (sources_of texts.now)
        (devices (R.source reader.old) (R.source reader.new) (W.sink writer.old)
        (W.sink writer.new)) (ending_of result) }
    ensures bounded { (R.source reader.new).reads ≤ 4_294_967_296 }
    ensures mixed { RunsMixed (WasClosed B.meaning) (sources_of texts.now) schedule.now
        (devices (R.source reader.old) (R.source reader.new) (W.sink writer.old)
        (W.sink writer.new)) (ending_of result) }
{
    run(alloc, texts, schedule, stock, reader, writer)
}

/// Runs these texts, with a Limit Checker, a scheduler, a counter and an application of another kind in stock. Out of memory for
/// these is the outer error. Conditions: nothing was read or failed yet.
fn run_mixed<R: ByteSource, W: ByteSink>(
    alloc: Global,
    texts: &[&[u8]],
    schedule: &Schedule,
    reader: &mut R,
    writer: &mut W,
) -> Result<Result<Report, RunError>, AllocError>
    requires unread { (R.source reader.old).reads ≡ 0 }
    requires readable { (R.source reader.old).failed ≡ false }
    requires writable { (W.sink writer.old).failed ≡ false }
    ensures refuses { IfOk result (λ answer. RefusesUnfitAlone (sources_of texts.now)
        (devices (R.source reader.old) (R.source reader.new) (W.sink writer.old)
        (W.sink writer.new)) (ending_of answer)) }
    ensures bounded { IfOk result (λ _. (R.source reader.new).reads ≤ 4_294_967_296) }
{
    let mut stock: Vec<Box<dyn App>> = Vec::new(alloc);
    let checker = Box::new(alloc, LimitChecker::new(alloc)?)?;
    add(&mut stock, schedule, b"LC", checker)?;
    let scheduler = Box::new(alloc, Scheduler::new(alloc, schedule)?)?;
    add(&mut stock, schedule, b"SCH", scheduler)?;
    let counter = Box::new(alloc, Counter::new())?;
    add(&mut stock, schedule, b"COUNTER", counter)?;
    add_stranger(&mut stock, Box::new(alloc, LetterApp::new(0))?)?;
    Ok(run_stock(alloc, texts, schedule, stock, reader, writer))
}

mod tests {
    use super::run_mixed;
    use flight_profile::{Report, parse_schedule};
    use lc_model::{Limited, Pieces};

    /// A sample of all rules, and a housekeeping request, by turns.
    const SCHEDULE: &[u8] = b"slots 2\n0 sample 0 175 age\n1 housekeeping";

    /// Two records: the command that starts `A`, the application of another kind, and a tick.
    const STREAM: &[u8] = &[
        1, 0, 0, 0, 100, 0, 0, 0, 0, 0, 28, 0x18, 0x06, 0xC0, 0, 0, 21, 1, 0, b'A', 0, 0, 0, 0, 0,
        0, 0, 0, 0, 0, 0, 0, 0, 0, 0, 0, 0, 0, 0, 2, 0, 0, 0, 100, 0, 0, 0, 0, 0, 0,
    ];

    #[test]
    fn a_run_of_four_kinds_side_by_side(rt: HostRuntime) {
        let schedule = parse_schedule(rt.alloc(), SCHEDULE).expect(&rt, "a schedule");
        let mut room = [0; 200];
        let mut reader = Pieces::new(STREAM, 8_192);
        let mut writer = Limited::new(&mut room, 200);
        let answer = run_mixed(rt.alloc(), &[], &schedule, &mut reader, &mut writer).expect(
            &rt, "memory",
        );
        // HOST's event that `A` was started; then a letter for the tick, and one for each of the eight packets that `A` published.
        let wanted = Report {
            records: 2,
            bytes: 177,
        };
        assert_eq!(rt; answer, Ok(wanted), "records and bytes");
        let has_letters = writer.bytes().ends_with(b"AAAAAAAAA");
        assert!(rt; has_letters, "nine letters at the end");
    }
}
