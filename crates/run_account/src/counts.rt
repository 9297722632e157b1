//! How often each rule was sampled, and with which results.

ghost use Rattle.std.specs.Prelude.{◌≡◌, map, option_map, Some};
ghost use Rattle.run_account.specs.Clock.{add};
ghost use Rattle.run_account.specs.Counts.{counts_with, none_counted, row_sampled, row_with};
ghost use Rattle.run_account.specs.Samples.{AreResults, requests_of};

use crate::requests::Requests;
use crate::results::result_at;
use lc_model::ApResult;
use limit_engine::Engine;

/// The results of a rule, each the number of records in which it was sampled with this result. Counts stop at 2^64 - 1.
#[derive(Clone, Copy, Debug, PartialEq, Eq)]
pub struct RuleCounts {
    /// Its condition was false.
    pub passed: u64,
    /// Its condition was true.
    pub failed: u64,
    /// A field that it needs was stale.
    pub stale: u64,
    /// A field that it needs was not in its packet.
    pub errors: u64,
}

/// A rule of a given rule text, and its results while that text was in force.
#[derive(Clone, Copy, Debug, PartialEq, Eq)]
pub struct RuleRow {
    /// The number of the text, from 0.
    pub text: usize,
    /// The number of the rule in the text, from 0.
    pub rule: usize,
    /// Its results.
    pub counts: RuleCounts,
}

impl RuleCounts {
    /// No samples.
    pub(crate) fn none() -> RuleCounts
        ensures { result ≡ none_counted }
    {
        RuleCounts {
            passed: 0,
            failed: 0,
            stale: 0,
            errors: 0,
        }
    }

    /// The number of records in which the rule was sampled, up to 2^64 - 1.
    pub fn sampled(self) -> u64
        ensures { result ≡ add (add (add self.passed self.failed) self.stale) self.errors }
    {
        self.passed
            .saturating_add(self.failed)
            .saturating_add(self.stale)
            .saturating_add(self.errors)
    }

    /// Adds a number to the count of a result.
    #[inline(always)]
    pub(crate) fn add(&mut self, count: u64, found: ApResult)
        ensures { self.new ≡ counts_with count found self.old }
    {
        match found {
            ApResult::Pass => self.passed = self.passed.saturating_add(count),
            ApResult::Fail => self.failed = self.failed.saturating_add(count),
            ApResult::Stale => self.stale = self.stale.saturating_add(count),
            ApResult::Error => self.errors = self.errors.saturating_add(count),
        }
    }
}

impl RuleRow {
    /// Counts a sample with this result, under tables of the row's text; none if the rule was not sampled.
    #[inline(always)]
    fn add(&mut self, found: Option<ApResult>)
        ensures { self.new ≡ row_with 1 (Some self.old.text) found self.old }
    {
        if let Some(found) = found {
            self.counts.add(1, found);
        }
    }
}

/// Counts the results that these requests led to, in the engine after them, whose tables are of this text. `results` has those of the
/// first rules.
fn count_text(
    rows: &mut [RuleRow],
    results: &[Option<ApResult>],
    requests: &Requests<'_>,
    engine: Option<&Engine>,
    text: usize,
)
    requires { AreResults (requests_of requests.now) (option_map (λ engine. engine.now) engine)
        results.now }
    ensures { rows.new ≡ map (row_sampled (requests_of requests.now)
        (option_map (λ engine. engine.now) engine.entry) (Some text)) rows.old }
{
    for row in rows.iter_mut() {
        if row.text == text {
            row.add(result_at(results, requests, engine, row.rule));
        }
    }
}

/// Counts the results that these requests led to, in the engine after them, whose tables are of the text with this number. `results`
/// has those of the first rules.
pub fn count_rows(
    rows: &mut [RuleRow],
    results: &[Option<ApResult>],
    requests: &Requests<'_>,
    engine: Option<&Engine>,
    force: Option<usize>,
)
    requires { AreResults (requests_of requests.now) (option_map (λ engine. engine.now) engine)
        results.now }
    ensures { rows.new ≡ map (row_sampled (requests_of requests.now)
        (option_map (λ engine. engine.now) engine.entry) force) rows.old }
{
    match force {
        Some(text) => count_text(rows, results, requests, engine, text),
        None => {}
    }
}
