//! The results of a record by rule number: each is found once, and then taken from a list.

ghost use Rattle.std.specs.Prelude.{◌≡◌, false, option_map, IsTrue, Some};
ghost use Rattle.lc_model.specs.LimitChecker.Steps.{is_disabled};
ghost use Rattle.run_account.specs.Samples.{AreResults, requests_of, result_of, results_from, shown_if};

use crate::requests::{Requests, is_mode_on, result_of, sampled_result};
use lc_model::ApResult;
use limit_engine::Engine;
use std::alloc::{AllocError, Global};

/// A list for the results of this number of rules, all of them without one. The only error is a lack of memory.
pub fn no_results(alloc: Global, count: usize) -> Result<Vec<Option<ApResult>>, AllocError> {
    let mut results = Vec::new(alloc);
    for _ in 0..count {
        results.push(None)?;
    }
    Ok(results)
}

/// The results of a list, if they are those of the newest record; else none.
pub fn shown_results(results: &[Option<ApResult>], is_newest: bool) -> &[Option<ApResult>]
    ensures { result.now ≡ shown_if is_newest results.now }
{
    if is_newest { results } else { &[] }
}

/// Puts the result of each rule into its place, for an engine whose mode allows samples.
fn fill(results: &mut [Option<ApResult>], requests: &Requests<'_>, engine: &Engine)
    requires { is_disabled engine.now.mode ≡ false }
    ensures { results.new ≡ results_from (requests_of requests.now) (Some engine.now) 0 results.old }
{
    for (rule, found) in results.iter_mut().enumerate() {
        *found = sampled_result(requests, engine, rule);
    }
}

/// Puts the results that these requests led to, in the engine after them, into a list. Returns whether it did: not without an engine, or
/// where its mode allows no samples.
pub fn take_results(
    results: &mut [Option<ApResult>],
    requests: &Requests<'_>,
    engine: Option<&Engine>,
) -> bool
    ensures { IsTrue result → AreResults (requests_of requests.now)
        (option_map (λ engine. engine.now) engine.entry) results.new }
{
    match engine {
        Some(engine) if is_mode_on(engine.mode()) => {
            fill(results, requests, engine);
            true
        }
        _ => false,
    }
}

/// The result that these requests led to for the rule with this number, in the engine after them: from the list of results, if the rule
/// is in it.
#[inline(always)]
pub fn result_at(
    results: &[Option<ApResult>],
    requests: &Requests<'_>,
    engine: Option<&Engine>,
    rule: usize,
) -> Option<ApResult>
    requires { AreResults (requests_of requests.now) (option_map (λ engine. engine.now) engine)
        results.now }
    ensures { result ≡ result_of (requests_of requests.now)
        (option_map (λ engine. engine.now) engine.entry) rule }
{
    match results.get(rule) {
        Some(found) => *found,
        None => result_of(requests, engine, rule),
    }
}
