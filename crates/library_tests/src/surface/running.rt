//! Runs, schedules and the program's words, from their one home.

ghost use Rattle.std.specs.Prelude.{◌≡◌, map, None, OnOk};
ghost use Rattle.app_host.specs.Whole.{AreSpares};

use crate::shared::{LOW_VOLTS, same};
use app_host::App;
use flight_profile::{
    Counter, LimitChecker, Plan, Report, RunError, Schedule, Scheduler, WordsError, parse_schedule,
    read_words, run, run_within,
};
use lc_model::{Limited, Pieces};
use std::alloc::{AllocError, Global};
use std::process::Abort;

/// Two slots: a sample with aging, and a housekeeping request.
const SCHEDULE: &[u8] = b"slots 2\n0 sample 0 175 age\n1 housekeeping";

/// Adds a spare. Condition: it holds no seat. Out of memory is the only error.
fn add(stock: &mut Vec<Box<dyn App>>, app: Box<dyn App>) -> Result<(), AllocError>
    requires spares { AreSpares (map meaning stock.old.items) }
    requires spare { (meaning app).seat ≡ None }
    ensures { OnOk result (AreSpares (map meaning stock.new.items)) }
{
    stock.push(app)?;
    Ok(())
}

/// An empty stream with a stock of boxes of all three applications; `within` bounds the reads.
fn over_nothing(
    alloc: Global,
    schedule: &Schedule,
    within: Option<u64>,
) -> Result<Result<Report, RunError>, AllocError> {
    let mut stock: Vec<Box<dyn App>> = Vec::new(alloc);
    add(&mut stock, Box::new(alloc, LimitChecker::new(alloc)?)?)?;
    add(
        &mut stock,
        Box::new(alloc, Scheduler::new(alloc, schedule)?)?,
    )?;
    add(&mut stock, Box::new(alloc, Counter::new())?)?;
    let (mut reader, mut room) = (Pieces::new(&[], 7), [0; 1]);
    let mut writer = Limited::new(&mut room, 1);
    let texts: &[&[u8]] = &[LOW_VOLTS];
    Ok(match within {
        None => run(alloc, texts, schedule, stock, &mut reader, &mut writer),
        Some(1) => run_within(alloc, texts, schedule, stock, &mut reader, &mut writer, 1),
        Some(_) => run_within(alloc, texts, schedule, stock, &mut reader, &mut writer, 0),
    })
}

#[test]
fn an_empty_stream(rt: HostRuntime) {
    let schedule = parse_schedule(rt.alloc(), SCHEDULE).expect(&rt, "a schedule");
    let none = Ok(Report {
        records: 0,
        bytes: 0,
    });
    let ran = over_nothing(rt.alloc(), &schedule, None).expect(&rt, "memory");
    same(&rt, "no record", ran, none);
    let once = over_nothing(rt.alloc(), &schedule, Some(1)).expect(&rt, "memory");
    same(&rt, "one read", once, none);
    let never = over_nothing(rt.alloc(), &schedule, Some(0)).expect(&rt, "memory");
    same(&rt, "no read", never, Err(RunError::ReadBound));
}

/// Which plan it is, and how many rule texts it names.
fn shape_of(plan: &Plan<'_>) -> (u8, usize) {
    match plan {
        Plan::Stored => (1, 0),
        Plan::Compile {
            rules: _,
            wdt: _,
            adt: _,
        } => (2, 1),
        Plan::Run {
            schedule: _,
            stream: _,
            out: _,
            rules,
        } => (3, rules.len()),
    }
}

/// The plan of these words.
fn plan_of(alloc: Global, words: &[&str]) -> Result<(u8, usize), WordsError> {
    let plan = read_words(alloc, words)?;
    Ok(shape_of(&plan))
}

#[test]
fn words(rt: HostRuntime) {
    let stored = plan_of(rt.alloc(), &["flight_run"]);
    same(&rt, "none", stored, Ok((1, 0)));
    let compile = plan_of(rt.alloc(), &["flight_run", "compile", "r", "w", "a"]);
    same(&rt, "compile", compile, Ok((2, 1)));
    let help = plan_of(rt.alloc(), &["flight_run", "--help"]);
    same(&rt, "help", help, Err(WordsError::Usage));
}
