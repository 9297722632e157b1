//! A run with the applications of these tests.

ghost use Rattle.std.specs.Prelude.{◌≡◌, false};

use command_counter::Counter;
use flight_core::{Report, RunError, run, run_within};
use flight_profile::{Member, add};
use lc_model::{Limited, Pieces};
use limit_checker::LimitChecker;
use schedules::Schedule;
use std::alloc::{AllocError, Global};
use tick_scheduler::Scheduler;

/// The devices of a run: the bytes of a piece, how many bytes of the stream there are, the read that fails (0: none), how many
/// bytes the writer takes, the write that fails (0: none), and the most reads, where they aren't those of `run`.
#[derive(Clone, Copy)]
pub struct Devices(
    pub usize,
    pub usize,
    pub u64,
    pub usize,
    pub u64,
    pub Option<u32>,
);

/// The result of a run.
pub type Answer = Result<Report, RunError>;

/// Runs these texts with two Limit Checkers, a scheduler and a counter in stock, and with this many reads at most, or as many
/// as `run` makes. Out of memory for the stock is the outer error. Conditions: nothing was read or failed yet.
pub fn run_texts(
    alloc: Global,
    texts: &[&[u8]],
    schedule: &Schedule,
    source: &mut Pieces<'_>,
    sink: &mut Limited<'_>,
    reads: Option<u32>,
) -> Result<Answer, AllocError>
    requires unread { source.old.reads ≡ 0 }
    requires readable { source.old.failed ≡ false }
    requires writable { sink.old.failed ≡ false }
{
    let mut stock: Vec<Box<Member>> = Vec::new(alloc);
    let checker = Box::new(alloc, Member::Checker(LimitChecker::new(alloc)?))?;
    add(&mut stock, schedule, b"LC", checker)?;
    let spare = Box::new(alloc, Member::Checker(LimitChecker::new(alloc)?))?;
    add(&mut stock, schedule, b"LC", spare)?;
    let scheduler = Box::new(alloc, Member::Scheduler(Scheduler::new(alloc, schedule)?))?;
    add(&mut stock, schedule, b"SCH", scheduler)?;
    let counter = Box::new(alloc, Member::Counter(Counter::new()))?;
    add(&mut stock, schedule, b"COUNTER", counter)?;
    Ok(match reads {
        Some(most) => { run_within(alloc, texts, schedule, stock, source, sink, u64::from(most)) }
        None => run(alloc, texts, schedule, stock, source, sink),
    })
}
