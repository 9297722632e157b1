//! The time that passes over the records of a run.

ghost use Rattle.std.specs.Prelude.{◌≡◌, true};
ghost use Rattle.run_account.specs.Clock.{clock_after, first_clock, forward, is_back, is_tick, more_if, tick_between, ticked_if, time_of};

use lc_model::SUBSECONDS;
use lc_model::stream::HEADER;
use run_stepper::moment_of;

/// A second, in 1/65,536 s.
pub const SECOND: u64 = 65_536;

/// The kind of a record that is a tick.
const TICK: u8 = 2;

/// The time over the records so far, in 1/65,536 s.
#[derive(Clone, Copy, Debug, PartialEq, Eq)]
pub struct RunClock {
    /// The time of the last record; `None` before the first.
    pub last: Option<u64>,
    /// The time that has passed since the first record. A step back adds nothing.
    pub passed: u64,
    /// What had passed at the last tick; `None` before the first.
    pub ticked: Option<u64>,
    /// The time between the last two ticks, at least a second.
    pub tick: u64,
}

/// The time of a record; second 0 if its header is cut short.
fn time_of(bytes: &[u8]) -> u64
    ensures { result ≡ time_of bytes.now }
{
    let moment = moment_of(bytes);
    u64::from(moment.seconds) * u64::from(SUBSECONDS) + u64::from(moment.subseconds)
}

/// Whether a record is a tick.
pub fn is_tick(bytes: &[u8]) -> bool
    ensures { result ≡ is_tick bytes.now }
{
    HEADER <= bytes.len() && bytes[0] == TICK
}

/// How much later a time is than the last one; 0 if it is earlier, or the first.
fn forward(last: Option<u64>, now: u64) -> u64
    ensures { result ≡ forward last now }
{
    match last {
        None => 0,
        Some(last) => now.saturating_sub(last),
    }
}

/// Whether a time is earlier than the last one.
fn is_back(last: Option<u64>, now: u64) -> bool
    ensures { result ≡ is_back last now }
{
    match last {
        None => false,
        Some(last) => now < last,
    }
}

/// A count with one more, where that is so.
pub fn more_if(is: bool, count: u64) -> u64
    ensures { result ≡ more_if is count }
{
    if is { count.saturating_add(1) } else { count }
}

/// The time between two ticks, at least a second; a second if there was only one.
fn tick_between(ticked: Option<u64>, passed: u64) -> u64
    ensures { result ≡ tick_between ticked passed }
{
    match ticked {
        None => SECOND,
        Some(before) => SECOND.max(passed.saturating_sub(before)),
    }
}

impl RunClock {
    /// The clock before the first record.
    pub fn new() -> RunClock
        ensures { result ≡ first_clock }
    {
        RunClock {
            last: None,
            passed: 0,
            ticked: None,
            tick: SECOND,
        }
    }

    /// Takes a tick at the time that has passed.
    fn take_tick(&mut self)
        ensures { self.new ≡ ticked_if true self.old }
    {
        self.tick = tick_between(self.ticked, self.passed);
        self.ticked = Some(self.passed);
    }

    /// Takes one more record. Returns whether it is earlier than the last one.
    pub fn take(&mut self, bytes: &[u8]) -> bool
        ensures clock { self.new ≡ clock_after bytes.now self.old }
        ensures back { result ≡ is_back self.old.last (time_of bytes.now) }
    {
        let now = time_of(bytes);
        let last = self.last;
        self.passed = self.passed.saturating_add(forward(last, now));
        self.last = Some(now);
        if is_tick(bytes) {
            self.take_tick();
        }
        is_back(last, now)
    }
}
