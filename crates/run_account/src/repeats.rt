//! Samples in a row that led to the same results: each is noted in a few steps, and they are counted together when a result changes.

ghost use Rattle.std.specs.Prelude.{◌≡◌, ◌+◌, ◌<◌, [], ◌∷◌, false, map, option_map, IsTrue, Some};
ghost use Rattle.std.specs.List.{AllByRecursion, list_all};
ghost use Rattle.lc_model.specs.LimitChecker.Steps.{is_disabled};
ghost use Rattle.flight_core.specs.Records.{most_counted};
ghost use Rattle.run_account.specs.Counts.{row_with};
ghost use Rattle.run_account.specs.Repeats.{AreAllResults, IsOnTime, IsRepeat, found_at, is_in_time, lane_in, none_noted, row_in};
ghost use Rattle.run_account.specs.Samples.{requests_of};

use crate::clock::RunClock;
use crate::counts::RuleRow;
use crate::lanes::Lane;
use crate::requests::{Requests, is_mode_on, sampled_result};
use lc_model::{ApResult, SampleRequest};
use limit_engine::Engine;

/// Samples in a row with the same results of all rules, which are not counted yet.
#[derive(Clone, Copy, Debug, PartialEq, Eq)]
pub struct Repeats {
    /// Their number.
    pub count: u64,
    /// The number of the text in force, if there are such samples.
    pub force: Option<usize>,
    /// What had passed at the last of them.
    pub last: u64,
    /// After how much time from then on the next sample is late.
    pub allowed: u64,
}

/// The result of a rule in a list; none if the list ends before it.
#[inline(always)]
pub fn found_at(results: &[Option<ApResult>], rule: usize) -> Option<ApResult>
    ensures { result ≡ found_at results.now rule }
{
    match results.get(rule) {
        Some(found) => *found,
        None => None,
    }
}

/// Whether two results are the same.
#[inline(always)]
fn is_same(one: Option<ApResult>, other: Option<ApResult>) -> bool
    ensures { IsTrue result → one ≡ other }
{
    one == other
}

/// Whether the list has the results of all rules that these requests led to, for an engine whose mode allows samples.
#[inline(always)]
fn are_those(results: &[Option<ApResult>], requests: &Requests<'_>, engine: &Engine) -> bool
    requires { is_disabled engine.now.mode ≡ false }
    ensures { IsTrue result → AreAllResults (requests_of requests.now) (Some engine.now) results.now }
{
    if results.len() < engine.rule_count() {
        return false;
    }
    for rule in 0..results.len() {
        if !is_same(
            found_at(results, rule),
            sampled_result(requests, engine, rule),
        ) {
            return false;
        }
    }
    true
}

/// The same for one request, as nearly all samples have it: a loop without a test for the kind of the requests.
#[inline(never)]
fn are_those_of_one(results: &[Option<ApResult>], request: SampleRequest, engine: &Engine) -> bool
    requires { is_disabled engine.now.mode ≡ false }
    ensures { IsTrue result → AreAllResults (request ∷ []) (Some engine.now) results.now }
{
    are_those(results, &Requests::One(request), engine)
}

/// The same for any requests.
fn are_those_of_any(results: &[Option<ApResult>], requests: &Requests<'_>, engine: &Engine) -> bool
    requires { is_disabled engine.now.mode ≡ false }
    ensures { IsTrue result → AreAllResults (requests_of requests.now) (Some engine.now) results.now }
{
    match *requests {
        Requests::One(request) => are_those_of_one(results, request, engine),
        Requests::Nothing | Requests::Slot(_) => are_those(results, requests, engine),
    }
}

/// Whether the list has the results of all rules that these requests led to, in the engine after them; false if there is none, or its
/// mode allows no samples.
pub fn are_repeated(
    results: &[Option<ApResult>],
    requests: &Requests<'_>,
    engine: Option<&Engine>,
) -> bool
    ensures { IsTrue result → AreAllResults (requests_of requests.now)
        (option_map (λ engine. engine.now) engine.entry) results.now }
{
    match engine {
        Some(engine) if is_mode_on(engine.mode()) => are_those_of_any(results, requests, engine),
        _ => false,
    }
}

/// Whether a lane's rule has no result, or its sample at this time is not late.
fn is_in_time(lane: &Lane, results: &[Option<ApResult>], clock: &RunClock) -> bool
    ensures { result ≡ is_in_time results.now clock.now lane.now }
{
    !(found_at(results, lane.rule).is_some() && lane.is_late(clock))
}

/// Whether at this time no sample is late of these lanes' rules, as far as they have a result.
fn are_on_time(lanes: &[Lane], results: &[Option<ApResult>], clock: &RunClock) -> bool
    ensures { result ≡ list_all (is_in_time results.now clock.now) lanes.now }
{
    lanes.iter().all(|lane| is_in_time(lane, results, clock))
}

impl Repeats {
    /// No such sample.
    pub fn none() -> Repeats
        ensures { result ≡ none_noted }
    {
        Repeats {
            count: 0,
            force: None,
            last: 0,
            allowed: 0,
        }
    }

    /// Whether at this time no sample is late of these lanes' rules after these samples, which had these results.
    fn is_on_time(self, lanes: &[Lane], results: &[Option<ApResult>], clock: &RunClock) -> bool
        ensures { IsTrue result → AllByRecursion (IsOnTime results.now clock.now)
            (map (lane_in self results.now) lanes.now) }
    {
        if self.count == 0 {
            return are_on_time(lanes, results, clock);
        }
        clock.passed.saturating_sub(self.last) <= self.allowed
    }

    /// Whether a sample in the engine repeats those before it, which had these results: the same results come under tables of the same
    /// text, and none is late.
    pub fn is_repeat(
        self,
        results: &[Option<ApResult>],
        lanes: &[Lane],
        requests: &Requests<'_>,
        engine: Option<&Engine>,
        force: Option<usize>,
        clock: &RunClock,
    ) -> bool
        ensures { IsTrue result → IsRepeat self results.now lanes.now (requests_of requests.now)
            (option_map (λ engine. engine.now) engine.entry) force clock.now }
    {
        self.count < u64::MAX
            && (self.count == 0 || self.force == force)
            && are_repeated(results, requests, engine)
            && self.is_on_time(lanes, results, clock)
    }

    /// These samples and one more, under tables of this text and at this time, after which the next one is late if it takes longer than
    /// `allowed`.
    pub fn with(self, force: Option<usize>, clock: &RunClock, allowed: u64) -> Repeats
        requires { self.count < most_counted }
        ensures { result ≡ record {
          count = self.count + 1;
          force = force;
          last = clock.now.passed;
          allowed = allowed;
        } }
    {
        Repeats {
            count: self.count + 1,
            force,
            last: clock.passed,
            allowed,
        }
    }

    /// The row of the text in force after these samples with this result.
    fn row_of_text(self, text: usize, found: Option<ApResult>, row: RuleRow) -> RuleRow
        ensures { result ≡ row_with self.count (Some text) found row }
    {
        let mut counted = row;
        if let Some(found) = found {
            if row.text == text {
                counted.counts.add(self.count, found);
            }
        }
        counted
    }

    /// A row after these samples, which had these results.
    pub fn row(self, results: &[Option<ApResult>], row: RuleRow) -> RuleRow
        ensures { result ≡ row_in self results.now row }
    {
        match self.force {
            Some(text) if self.count > 0 => {
                self.row_of_text(text, found_at(results, row.rule), row)
            }
            _ => row,
        }
    }

    /// A lane after these samples, which had these results.
    pub fn lane(self, results: &[Option<ApResult>], lane: Lane) -> Lane
        ensures { result ≡ lane_in self results.now lane }
    {
        let mut sampled = lane;
        if self.count > 0 && found_at(results, lane.rule).is_some() {
            sampled.last = self.last;
            sampled.allowed = self.allowed;
        }
        sampled
    }

    /// Counts these samples, which had these results, in the rows.
    pub fn count_rows(self, results: &[Option<ApResult>], rows: &mut [RuleRow])
        ensures { rows.new ≡ map (row_in self results.now) rows.old }
    {
        if self.count == 0 {
            return;
        }
        for row in rows.iter_mut() {
            *row = self.row(results, *row);
        }
    }

    /// Counts these samples, which had these results, in the lanes.
    pub fn count_lanes(self, results: &[Option<ApResult>], lanes: &mut [Lane])
        ensures { lanes.new ≡ map (lane_in self results.now) lanes.old }
    {
        if self.count == 0 {
            return;
        }
        for lane in lanes.iter_mut() {
            *lane = self.lane(results, *lane);
        }
    }
}
