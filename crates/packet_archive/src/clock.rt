//! When a packet of an archive came.

ghost use Rattle.std.specs.Prelude.{◌≡◌, ◌≤◌, ◌<◌, length};
ghost use Rattle.lc_model.specs.Packet.{primary_header_size};
ghost use Rattle.packet_archive.specs.Clock.{break_at, elapsed, has_time, is_before, is_far, is_leap, moment_after, moment_by, next_count, next_tick, stopped, tick_before, ticks_due, IsNextTick};

use crate::front::COMMAND;
use lc_model::packet::message_id;
use lc_model::{Moment, SUBSECONDS, u16_at, u32_at};
use std::marker::Model;

/// The number of seconds at which the clock begins again from 0.
const SECONDS_END: u128 = 4_294_967_296;

/// The parts of a second in which a step is said.
const MILLIONTHS: u128 = 1_000_000;

/// The most ticks between two packets: one each second for a day.
const MOST_TICKS: u64 = 86_400;

/// The source of the packets' times.
#[derive(Clone, Copy, Debug, PartialEq, Eq)]
pub enum Times {
    /// Each telemetry packet itself: 4 bytes of seconds at byte `at`, less `epoch`, then 2 bytes of 65,536ths of a second, both big
    /// endian. A packet without such a time has that of the packet before it.
    Header { at: u16, epoch: u32 },
    /// No times in the packets: each comes `step` millionths of a second after the one before, the first after one step. Its moment is
    /// the number of packets times the step, rounded down once to 65,536ths of a second.
    Steps { step: u64 },
}

/// A break in time: the moments of two packets taken, one after the other, of which the second is before the first, or so late that more
/// than 86,400 ticks would come between them.
#[derive(Clone, Copy, Debug, PartialEq, Eq)]
pub struct TimeBreak {
    /// The moment of the packet before the break.
    pub from: Moment,
    /// The moment of the packet after it.
    pub to: Moment,
}

/// The clock of an import: the seconds between ticks (0: no ticks), the last packet's moment, the number of packets, and the second of
/// the next tick, which is set by the first packet.
#[derive(Debug, Drop)]
pub struct Clock {
    pub(crate) period: u32,
    pub(crate) last: Moment,
    pub(crate) count: u64,
    pub(crate) next: Option<u64>,
}

impl Model for Clock {
    ghost use Rattle.packet_archive.specs.Clock.{Clocked, IsNextTick};

    ghost Value = { Clocked };

    ghost view = { λ c. record { period = c.period; last = c.last; count = c.count; next = c.next } };

    ghost invariant = { λ c. IsNextTick c.period c.next };
}

impl Clock {
    /// A clock at second 0, before any packet; ticks come `period` seconds apart, or never if it is 0.
    pub fn new(period: u32) -> Clock
        ensures { result ≡ stopped period }
    {
        Clock {
            period,
            last: Moment {
                seconds: 0,
                subseconds: 0,
            },
            count: 0,
            next: None,
        }
    }
}

/// Whether the packet is telemetry with a time at this byte that isn't before the epoch.
fn has_time(at: usize, epoch: u32, packet: &[u8]) -> bool
    requires header { primary_header_size ≤ length packet.now }
    requires at { at < 65536 }
    ensures exact { result ≡ has_time at epoch packet.now }
{
    if message_id(packet) / COMMAND % 2 == 1 || packet.len() < at + 6 {
        return false;
    }
    epoch <= u32_at(packet, at)
}

/// The moment after this number of steps of so many millionths of a second; seconds begin again from 0 at 2^32.
fn moment_after(step: u64, steps: u64) -> Moment
    ensures { result ≡ moment_after step steps }
{
    let elapsed = u128::from(steps) * u128::from(step);
    Moment {
        seconds: (elapsed / MILLIONTHS % SECONDS_END) as u32,
        subseconds: (elapsed % MILLIONTHS * u128::from(SUBSECONDS) / MILLIONTHS) as u16,
    }
}

/// The number of packets with the next one; it stops at 2^64 - 1.
pub(crate) fn next_count(count: u64) -> u64
    ensures { result ≡ next_count count }
{
    count.saturating_add(1)
}

impl Times {
    /// The moment of the next packet. With `Header`, a packet without a time of its own has the moment of the last one.
    pub fn moment_of(self, clock: &Clock, packet: &[u8]) -> Moment
        requires header { primary_header_size ≤ length packet.now }
        ensures exact { result ≡ moment_by self clock.now packet.now }
    {
        match self {
            Times::Header { at, epoch } => {
                let at = usize::from(at);
                if !has_time(at, epoch, packet) {
                    return clock.last;
                }
                Moment {
                    seconds: u32_at(packet, at) - epoch,
                    subseconds: u16_at(packet, at + 4),
                }
            }
            Times::Steps { step } => moment_after(step, next_count(clock.count)),
        }
    }
}

/// A moment in 65,536ths of a second.
fn elapsed(moment: Moment) -> u64
    ensures { result ≡ elapsed moment }
{
    u64::from(moment.seconds) * u64::from(SUBSECONDS) + u64::from(moment.subseconds)
}

/// Whether a moment is before another.
fn is_before(moment: Moment, other: Moment) -> bool
    ensures { result ≡ is_before moment other }
{
    elapsed(moment) < elapsed(other)
}

impl TimeBreak {
    /// Whether time steps back; otherwise it leaps.
    pub fn is_back(self) -> bool
        ensures { result ≡ is_before self.to self.from }
    {
        is_before(self.to, self.from)
    }
}

impl Clock {
    /// The break in time before a packet of this moment; `None` if time goes on.
    pub fn break_at(&self, moment: Moment) -> Option<TimeBreak>
        ensures exact { result ≡ break_at self.now moment }
    {
        let from = self.last;
        if is_before(moment, from) || is_leap(self.period, self.next, moment.seconds) {
            Some(TimeBreak { from, to: moment })
        } else {
            None
        }
    }
}

/// The number of ticks due up to `second`, if the next one is at `next` and one comes every `period` seconds; 0 without a period or
/// a next tick.
pub(crate) fn ticks_due(period: u32, next: Option<u64>, second: u32) -> u64
    ensures { result ≡ ticks_due period next second }
{
    let second = u64::from(second);
    match next {
        Some(next) if period > 0 && next <= second => (second - next) / u64::from(period) + 1,
        _ => 0,
    }
}

/// Whether more than 86,400 ticks would come up to this second.
fn is_leap(period: u32, next: Option<u64>, second: u32) -> bool
    ensures { result ≡ is_leap period next second }
{
    ticks_due(period, next, second) > MOST_TICKS
}

/// Whether a tick is over two periods after this second.
fn is_far(period: u32, tick: u64, second: u32) -> bool
    ensures { result ≡ is_far period tick second }
{
    u64::from(second) + 2 * u64::from(period) < tick
}

/// The second of the next tick as a packet of this second finds it; `None` if ticks begin anew there: at the first packet, after a leap,
/// and if time stepped back so far that the tick would come over two periods after the packet.
pub(crate) fn tick_before(period: u32, next: Option<u64>, second: u32) -> Option<u64>
    requires { IsNextTick period next }
    ensures tick { result ≡ tick_before period next second }
    ensures stays { IsNextTick period result }
{
    match next {
        Some(tick) if is_leap(period, next, second) || is_far(period, tick, second) => None,
        _ => next,
    }
}

/// The second of the next tick after a packet of this second; `None` if the period is 0.
pub(crate) fn next_tick(period: u32, next: Option<u64>, second: u32) -> Option<u64>
    requires { IsNextTick period next }
    ensures next { result ≡ next_tick period next second }
    ensures stays { IsNextTick period result }
{
    match next {
        None if period == 0 => None,
        None => Some(u64::from(second) + u64::from(period)),
        Some(next) => Some(next + ticks_due(period, Some(next), second) * u64::from(period)),
    }
}
