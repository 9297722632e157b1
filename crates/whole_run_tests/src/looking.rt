//! A reader that looks, at each read, at what the device has been given.

ghost use Rattle.std.specs.Prelude.{◌≡◌, None, false};

use crate::low_volts::LOW_VOLTS;
use crate::two_failures::{NO_ENTRIES, STREAM};
use flight_core::{Report, RunError, run_gathered};
use flight_profile::add;
use lc_model::{ByteSink, ByteSource, DeviceFault};
use limit_checker::LimitChecker;
use schedules::{Schedule, parse_schedule};
use std::alloc::{AllocError, Global};
use std::cell::Cell;

/// How many bytes the records lead to that end within the first `bytes` bytes of the stream.
fn led_to(bytes: usize) -> usize {
    match bytes {
        0..=53 => 0,
        54..=107 => 168,
        108..=146 => 336,
        147..=254 => 672,
        _ => 852,
    }
}

/// Gives the stream byte by byte, and counts the reads at which the device did not have all output of the records before.
#[derive(Drop)]
struct Looking<'a> {
    left: &'a [u8],
    given: &'a Cell<usize>,
    too_early: u64,
    reads: u64,
}

impl<'a> ByteSource for Looking<'a> {
    ghost source = { λ looking. record { rest = None; reads = looking.reads; failed = false; retried = false } };

    fn read(&mut self, buffer: &mut [u8]) -> Result<usize, DeviceFault> {
        self.reads = self.reads.saturating_add(1);
        if self.given.get() != led_to(STREAM.len().saturating_sub(self.left.len())) {
            self.too_early = self.too_early.saturating_add(1);
        }
        let Some((first, left)) = self.left.split_first() else {
            return Ok(0);
        };
        buffer[0] = *first;
        self.left = left;
        Ok(1)
    }

    fn reads(&self) -> u64 {
        self.reads
    }

    fn failed(&self) -> bool {
        false
    }
}

/// Takes all, and counts it.
#[derive(Drop)]
struct Counting<'a> {
    given: &'a Cell<usize>,
}

impl<'a> ByteSink for Counting<'a> {
    ghost sink = { λ _. record { gained = None; failed = false; retried = false } };

    fn write(&mut self, bytes: &[u8]) -> Result<usize, DeviceFault> {
        self.given.set(self.given.get().saturating_add(bytes.len()));
        Ok(bytes.len())
    }

    fn failed(&self) -> bool {
        false
    }
}

/// A run with a Limit Checker in stock. Out of memory for the stock is the outer error. Condition: nothing was read yet.
fn look<'a>(
    alloc: Global,
    schedule: &Schedule,
    source: &mut Looking<'_>,
    sink: Counting<'a>,
) -> Result<(Result<Report, RunError>, Counting<'a>), AllocError>
    requires unread { source.old.reads ≡ 0 }
{
    let mut stock: Vec<Box<LimitChecker>> = Vec::new(alloc);
    let checker = Box::new(alloc, LimitChecker::new(alloc)?)?;
    add(&mut stock, schedule, b"LC", checker)?;
    Ok(run_gathered(alloc, &[LOW_VOLTS], schedule, stock, source, sink))
}

#[test]
fn before_each_read_all_is_with_the_device(rt: HostRuntime) {
    let schedule = parse_schedule(rt.alloc(), NO_ENTRIES).expect(&rt, "a schedule");
    let given = Cell::new(0);
    let mut source = Looking {
        left: STREAM,
        given: &given,
        too_early: 0,
        reads: 0,
    };
    let sink = Counting { given: &given };
    let (answer, _sink) = look(rt.alloc(), &schedule, &mut source, sink).expect(&rt, "memory");
    let records = answer.map(|report| report.records).ok();
    assert_eq!(rt;
        (records, source.reads, source.too_early, given.get()),
        (Some(7), 256, 0, 852),
        "records, reads, reads that were too early, bytes"
    );
}
