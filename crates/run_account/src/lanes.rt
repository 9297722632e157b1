//! The time in which a rule was not sampled though the schedule asks for it.

ghost use Rattle.std.specs.Prelude.{◌≡◌, ◌-◌, ◌<◌, [], length, map, nat_lt, option_map, IfOk};
ghost use Rattle.std.specs.List.{AllByRecursion};
ghost use Rattle.lc_model.specs.Tables.Image.{numbers_below};
ghost use Rattle.run_account.specs.Lanes.{is_scheduled, lane_after, lane_at, lane_with, new_lane, over, rules_of, two_cycles, unsampled_at};
ghost use Rattle.run_account.specs.Samples.{AreResults, requests_of};

use crate::clock::{RunClock, SECOND};
use crate::requests::{Requests, are_entries_taking};
use crate::results::result_at;
use lc_model::ApResult;
use limit_engine::Engine;
use schedules::Schedule;
use std::alloc::{AllocError, Global};

/// The samples of the rules with one number, in 1/65,536 s of the time that passed.
#[derive(Clone, Copy, Debug, PartialEq, Eq)]
pub struct Lane {
    /// The rules' number, from 0.
    pub rule: usize,
    /// Whether the schedule samples the rule.
    pub is_scheduled: bool,
    /// What had passed at the last sample, or 0.
    pub last: u64,
    /// After how much time from then on the next sample is late: two cycles of the schedule.
    pub allowed: u64,
    /// The time of all gaps that lasted longer, up to the last sample.
    pub unsampled: u64,
}

/// Two cycles of a schedule, where a tick lasts so long.
pub fn two_cycles(schedule: &Schedule, tick: u64) -> u64
    ensures { result ≡ two_cycles (length schedule.now) tick }
{
    tick.saturating_mul(2 * schedule.len() as u64)
}

/// A gap between two samples, if it is late; else 0.
fn over(allowed: u64, gap: u64) -> u64
    ensures { result ≡ over allowed gap }
{
    if allowed < gap { gap } else { 0 }
}

/// Whether a slot of the schedule samples the rule with this number.
fn is_scheduled(schedule: &Schedule, rule: usize) -> bool
    ensures { result ≡ is_scheduled schedule.now rule }
{
    for slot in 0..schedule.len() {
        if are_entries_taking(schedule.entries(slot), rule) {
            return true;
        }
    }
    false
}

impl Lane {
    /// The lane of the rule with this number before the first record.
    pub fn new(schedule: &Schedule, rule: usize) -> Lane
        ensures lane { result ≡ new_lane schedule.now result }
        ensures rule { result.rule ≡ rule }
    {
        Lane {
            rule,
            is_scheduled: is_scheduled(schedule, rule),
            last: 0,
            allowed: two_cycles(schedule, SECOND),
            unsampled: 0,
        }
    }

    /// Takes a sample at this time, after which the next one is late if it takes longer than `allowed`.
    #[inline(always)]
    fn add(&mut self, allowed: u64, clock: &RunClock)
        ensures { self.new ≡ lane_after allowed clock.now self.old }
    {
        self.unsampled = self.unsampled_until(clock);
        self.last = clock.passed;
        self.allowed = allowed;
    }

    /// Takes a sample at this time.
    pub fn take(&mut self, schedule: &Schedule, clock: &RunClock)
        ensures { self.new ≡ lane_at (length schedule.now) clock.now self.old }
    {
        self.add(two_cycles(schedule, clock.tick), clock);
    }

    /// Whether a sample at this time is late.
    pub fn is_late(&self, clock: &RunClock) -> bool
        ensures { result ≡ nat_lt self.now.allowed (clock.now.passed - self.now.last) }
    {
        self.allowed < clock.passed.saturating_sub(self.last)
    }

    /// The time without a sample up to this one.
    #[inline(always)]
    pub fn unsampled_until(&self, clock: &RunClock) -> u64
        ensures { result ≡ unsampled_at clock.now self.now }
    {
        let gap = clock.passed.saturating_sub(self.last);
        self.unsampled.saturating_add(over(self.allowed, gap))
    }
}

/// The lanes of this number of rules. The only error is a lack of memory.
pub fn lanes_of(alloc: Global, schedule: &Schedule, count: usize) -> Result<Vec<Lane>, AllocError>
    ensures lanes { IfOk result
        (λ lanes. AllByRecursion (λ lane. lane ≡ new_lane schedule.now lane) lanes.items) }
    ensures numbered { IfOk result (λ lanes. rules_of lanes.items ≡ numbers_below count) }
    ensures count { IfOk result (λ lanes. length lanes.items ≡ count) }
{
    let mut lanes = Vec::new(alloc);
    for rule in 0..count {
        lanes.push(Lane::new(schedule, rule))?;
    }
    Ok(lanes)
}

/// Takes the samples that these requests led to, in the engine after them. `results` has the results of the first rules.
pub fn count_lanes(
    lanes: &mut [Lane],
    results: &[Option<ApResult>],
    requests: &Requests<'_>,
    engine: Option<&Engine>,
    schedule: &Schedule,
    clock: &RunClock,
)
    requires { AreResults (requests_of requests.now) (option_map (λ engine. engine.now) engine)
        results.now }
    ensures { lanes.new ≡ map (lane_with (length schedule.now) clock.now (requests_of requests.now)
        (option_map (λ engine. engine.now) engine.entry)) lanes.old }
{
    let allowed = two_cycles(schedule, clock.tick);
    for lane in lanes.iter_mut() {
        if result_at(results, requests, engine, lane.rule).is_some() {
            lane.add(allowed, clock);
        }
    }
}
