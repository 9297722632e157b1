//! Actionpoints: the entries of their table, the counts of each, and the reactions to a sample (cFS Limit Checker user's
//! guide, actionpoint definitions, statistics and evaluation; the counts are this project's own).

ghost use Rattle.std.specs.Prelude.{◌≡◌, ℕ, [], IsFalse, IsTrue, if◌then◌else◌};
ghost use Rattle.lc_model.specs.Condition.{Condition};
ghost use Rattle.lc_model.specs.LimitChecker.Past.{is_result, is_passive as in_passive};
ghost use Rattle.lc_model.specs.LimitChecker.Steps.{is_sampled as is_on, is_permanently_off as is_off, is_state_disabled};
ghost use Rattle.lc_model.specs.LimitChecker.Watch.{result_of_truth as result_of};
ghost use Rattle.lc_model.specs.Kept.Next.{by_counts, is_last, counted_if as one_more_if, tally_after, next_on_failure, next_turn_reports};
ghost use Rattle.limit_engine.specs.Reactions.{turn_requests, failure_requests, requests_of};
ghost use Rattle.limit_engine.specs.Sampling.{is_quiet, noted, point_with};
ghost use Rattle.limit_engine.specs.Entry.{rule_with};

use crate::reaction::{Failure, Reactions, Turn};
use arrayvec::ArrayVec;
use lc_model::{ApMode, ApResult, EventKind, LcMode, ReportMaxima, Truth};
use std::marker::Model;

/// The most bytes of an event's text.
pub(crate) const TEXT_LENGTH: usize = 31;

/// A rule of the actionpoint table.
#[derive(Debug, Drop)]
pub(crate) struct RuleEntry {
    /// The state that the rule begins in.
    pub(crate) mode: ApMode,
    /// Failures in a row that lead to the sequence request.
    pub(crate) fails: u16,
    /// The number of the requested command sequence.
    pub(crate) sequence: u16,
    pub(crate) event_kind: EventKind,
    pub(crate) event_id: u16,
    pub(crate) text: ArrayVec<u8, TEXT_LENGTH>,
    pub(crate) report: ReportMaxima,
    /// The index of its first word among the words of all rules.
    pub(crate) start: usize,
    /// The index after its last word before EQUAL.
    pub(crate) end: usize,
}

/// The state of a rule, its last result, and its counts of samples, each up to 65,535.
#[derive(Clone, Copy, Debug)]
pub(crate) struct Point {
    state: ApMode,
    last: Option<ApResult>,
    /// Failures in a row, up to the newest result.
    run: u16,
    /// Turns to fail: failures directly after a pass.
    to_fail: u16,
    /// Turns to pass: passes directly after a failure.
    to_pass: u16,
    /// Samples of the passive rule with enough failures in a row.
    quiet: u16,
}

impl Model for Point {
    ghost use Rattle.lc_model.specs.LimitChecker.Steps.{Point as Kept};
    ghost use Rattle.lc_model.specs.Kept.Summary.{Tally};

    ghost Value = { Kept Tally };

    ghost view = { λ p. record {
      state = p.state;
      past = record {
        last = p.last;
        run = p.run;
        to_fail = p.to_fail;
        to_pass = p.to_pass;
        quiet = p.quiet;
      };
    } };

    ghost inverse = { λ p. record {
      state = p.state;
      last = p.past.last;
      run = p.past.run;
      to_fail = p.past.to_fail;
      to_pass = p.past.to_pass;
      quiet = p.past.quiet;
    } };
}

impl Point {
    /// The point of a rule that was not sampled yet.
    pub(crate) fn at_start(state: ApMode) -> Point
        ensures { result ≡ record { state = state; past = by_counts.unsampled } }
    {
        Point {
            state,
            last: None,
            run: 0,
            to_fail: 0,
            to_pass: 0,
            quiet: 0,
        }
    }

    pub(crate) fn state(&self) -> ApMode
        ensures { result ≡ self.now.state }
    {
        self.state
    }

    /// The newest result.
    pub(crate) fn last(&self) -> Option<ApResult>
        ensures { result ≡ self.now.past.last }
    {
        self.last
    }

    /// The failures in a row, up to the newest result.
    pub(crate) fn run(&self) -> u16
        ensures { result ≡ self.now.past.run }
    {
        self.run
    }

    /// The samples of the passive rule with enough failures in a row.
    pub(crate) fn quiet(&self) -> u16
        ensures { result ≡ self.now.past.quiet }
    {
        self.quiet
    }

    pub(crate) fn set(&mut self, state: ApMode)
        ensures { self.new ≡ record self.old { state = state } }
    {
        self.state = state;
    }

    pub(crate) fn set_unless_off(&mut self, state: ApMode)
        ensures { self.new ≡
            (if is_off self.old.state then self.old else record self.old { state = state }) }
    {
        if !self.is_permanently_off() {
            self.state = state;
        }
    }

    pub(crate) fn is_permanently_off(&self) -> bool
        ensures { result ≡ is_off self.now.state }
    {
        match self.state {
            ApMode::PermOff => true,
            ApMode::Active | ApMode::Passive | ApMode::Disabled => false,
        }
    }

    pub(crate) fn is_disabled(&self) -> bool
        ensures { result ≡ is_state_disabled self.now.state }
    {
        match self.state {
            ApMode::Disabled => true,
            ApMode::Active | ApMode::Passive | ApMode::PermOff => false,
        }
    }

    /// Whether the rule is sampled: it is active or passive.
    pub(crate) fn is_sampled(&self) -> bool
        ensures { result ≡ is_on self.now.state }
    {
        match self.state {
            ApMode::Active | ApMode::Passive => true,
            ApMode::Disabled | ApMode::PermOff => false,
        }
    }

    /// Stores a result that counts nothing: neither it nor the last one is a failure, so the sample has no reaction. Returns whether
    /// it is such a result, which is the usual case.
    pub(crate) fn store_quiet(&mut self, rule: &RuleEntry, outcome: ApResult) -> bool
        // For any number, condition and mode.
        ensures quiet { IsTrue result → (n : ℕ) (c : Condition) (mode : LcMode) →
            point_with (rule_with rule.now c) n mode outcome self.old ≡ (self.new, []) }
        ensures other { IsFalse result → self.new ≡ self.old }
    {
        if self.counts_nothing(rule.fails, outcome) {
            self.note(outcome);
            return true;
        }
        false
    }

    /// Counts a sample and returns its reactions. Enough failures in a row make an active rule passive. It stays out of the loop over
    /// the rules, which rarely comes here.
    #[inline(never)]
    pub(crate) fn react(&mut self, rule: &RuleEntry, mode: LcMode, outcome: ApResult) -> Reactions
        // For any number and condition of the rule.
        ensures point { (n : ℕ) (c : Condition) →
            self.new ≡ (point_with (rule_with rule.now c) n mode outcome self.old).0 }
        ensures requests { (n : ℕ) (c : Condition) →
            requests_of (rule_with rule.now c) n result ≡
            (point_with (rule_with rule.now c) n mode outcome self.old).1 }
    {
        let before = self.last;
        self.count(rule.fails, outcome);
        let turn = self.turn(rule, before, outcome);
        if self.run < rule.fails {
            return Reactions {
                turn,
                failure: None,
            };
        }
        Reactions {
            turn,
            failure: self.fail(rule, mode),
        }
    }

    /// Whether neither this result nor the last one is a failure: the sample has no reaction. This is the usual case.
    fn counts_nothing(&self, fails: u16, outcome: ApResult) -> bool
        ensures { result ≡ is_quiet fails outcome self.now.past.last }
    {
        0 < fails && !is_same(ApResult::Fail, outcome) && !was(ApResult::Fail, self.last)
    }

    /// Stores a result that is not a failure.
    fn note(&mut self, outcome: ApResult)
        ensures { self.new ≡ noted outcome self.old }
    {
        self.run = 0;
        self.last = Some(outcome);
    }

    /// The turn that the newest result makes, if its count is not above the rule's maximum of reports.
    fn turn(&self, rule: &RuleEntry, before: Option<ApResult>, outcome: ApResult) -> Option<Turn>
        ensures { (n : ℕ) (c : Condition) →
            turn_requests n result ≡ next_turn_reports (rule_with rule.now c) n before outcome
            self.now.past }
    {
        if was(ApResult::Pass, before)
            && is_same(ApResult::Fail, outcome)
            && self.to_fail <= rule.report.pass_to_fail
        {
            return Some(Turn::ToFail);
        }
        if was(ApResult::Fail, before)
            && is_same(ApResult::Pass, outcome)
            && self.to_pass <= rule.report.fail_to_pass
        {
            return Some(Turn::ToPass);
        }
        None
    }

    /// Counts a sample and stores its result.
    fn count(&mut self, fails: u16, outcome: ApResult)
        ensures state { self.new.state ≡ self.old.state }
        ensures past { self.new.past ≡ tally_after fails outcome self.old.state self.old.past }
    {
        let failed = is_same(ApResult::Fail, outcome);
        let passed = is_same(ApResult::Pass, outcome);
        self.run = if failed {
            self.run.saturating_add(1)
        } else {
            0
        };
        self.to_fail = counted_if(was(ApResult::Pass, self.last) && failed, self.to_fail);
        self.to_pass = counted_if(was(ApResult::Fail, self.last) && passed, self.to_pass);
        self.quiet = counted_if(is_passive(self.state) && fails <= self.run, self.quiet);
        self.last = Some(outcome);
    }

    /// The reaction to enough failures in a row. An active rule becomes passive, and requests its sequence if the Limit Checker
    /// is active. A rule that is already passive is reported up to the rule's maximum.
    fn fail(&mut self, rule: &RuleEntry, mode: LcMode) -> Option<Failure>
        ensures past { self.new.past ≡ self.old.past }
        ensures state { (n : ℕ) (c : Condition) →
            self.new.state ≡
            (next_on_failure (rule_with rule.now c) n mode self.old.state self.old.past).state }
        ensures requests { (n : ℕ) (c : Condition) →
            failure_requests (rule_with rule.now c) n result ≡
            (next_on_failure (rule_with rule.now c) n mode self.old.state self.old.past).requests }
    {
        match (self.state, mode) {
            (ApMode::Active, LcMode::Active) => {
                self.state = ApMode::Passive;
                Some(Failure::Requested(self.run))
            }
            (ApMode::Active, LcMode::Passive) => {
                self.state = ApMode::Passive;
                Some(Failure::LcPassive)
            }
            (ApMode::Active, LcMode::Disabled) => {
                self.state = ApMode::Passive;
                None
            }
            (ApMode::Passive, _) if self.quiet <= u16::from(rule.report.passive) => Some(
                Failure::Passive,
            ),
            (ApMode::Passive | ApMode::Disabled | ApMode::PermOff, _) => None,
        }
    }
}

/// The result of a rule by its condition's truth: true is a failure, false a pass.
pub(crate) fn result_of_truth(truth: Truth) -> ApResult
    ensures { result ≡ result_of truth }
{
    match truth {
        Truth::True => ApResult::Fail,
        Truth::False => ApResult::Pass,
        Truth::Stale => ApResult::Stale,
        Truth::Error => ApResult::Error,
    }
}

fn is_same(expected: ApResult, outcome: ApResult) -> bool
    ensures { result ≡ is_result expected outcome }
{
    match (expected, outcome) {
        (ApResult::Pass, ApResult::Pass) => true,
        (ApResult::Fail, ApResult::Fail) => true,
        (ApResult::Stale, ApResult::Stale) => true,
        (ApResult::Error, ApResult::Error) => true,
        _ => false,
    }
}

fn was(expected: ApResult, last: Option<ApResult>) -> bool
    ensures { result ≡ is_last expected last }
{
    match last {
        None => false,
        Some(last) => is_same(expected, last),
    }
}

fn is_passive(state: ApMode) -> bool
    ensures { result ≡ in_passive state }
{
    match state {
        ApMode::Passive => true,
        ApMode::Active | ApMode::Disabled | ApMode::PermOff => false,
    }
}

fn counted_if(test: bool, count: u16) -> u16
    ensures { result ≡ one_more_if test count }
{
    if test { count.saturating_add(1) } else { count }
}
