//! Which expectations are met.

ghost use Rattle.std.specs.Prelude.{◌≡◌, IfOk};
ghost use Rattle.scenario_trial.specs.Expected.{expected_of};
ghost use Rattle.scenario_trial.specs.Judged.{has_result, is_in_state, is_met, is_unmet, unmet_of};

use crate::expectation::{Arrival, Expectation, has_come};
use crate::expectation_lines::Placed;
use lc_model::{ApMode, ApResult};
use run_stepper::RuleStanding;
use std::alloc::{AllocError, Global};

/// An expectation, the number of the rule text in force at its line, and the state of its rule: `NoRule` if it names none, or none that
/// there is.
#[derive(Clone, Copy)]
pub struct Judged<'a> {
    pub placed: Placed<'a>,
    pub force: Option<usize>,
    pub found: RuleStanding,
}

/// Whether a rule is in this state.
fn is_in_state(state: ApMode, found: RuleStanding) -> bool
    ensures { result ≡ is_in_state state found }
{
    match found {
        RuleStanding::Stands {
            state: there,
            last: _,
        } => there.code() == state.code(),
        _ => false,
    }
}

/// Whether a rule's last result is this one.
fn has_result(last: Option<ApResult>, found: RuleStanding) -> bool
    ensures { result ≡ has_result last found }
{
    match found {
        RuleStanding::Stands {
            state: _,
            last: there,
        } => ApResult::last_code(there) == ApResult::last_code(last),
        _ => false,
    }
}

/// Whether an expectation is met, by the arrivals and the state of its rule.
fn is_met(came: &[Arrival], found: RuleStanding, expectation: Expectation<'_>) -> bool
    ensures { result ≡ is_met came.now found (expected_of expectation.entry) }
{
    match expectation {
        Expectation::Comes(coming) => has_come(coming.what, coming.span, came),
        Expectation::Absent(coming) => !has_come(coming.what, coming.span, came),
        Expectation::State(_, state) => is_in_state(state, found),
        Expectation::Result(_, last) => has_result(last, found),
    }
}

/// Whether it isn't met.
fn is_unmet(came: &[Arrival], judged: &Judged<'_>) -> bool
    ensures { result ≡ is_unmet came.now judged.now }
{
    !is_met(came, judged.found, judged.placed.expectation)
}

/// The unmet expectations, in order. Out of memory is the only error.
pub fn unmet_of<'a>(
    alloc: Global,
    came: &[Arrival],
    judged: &[Judged<'a>],
) -> Result<Vec<Judged<'a>>, AllocError>
    ensures { IfOk result (λ unmet. unmet.items ≡ unmet_of came.now judged.now) }
{
    let mut unmet = Vec::new(alloc);
    for one in judged {
        if is_unmet(came, one) {
            unmet.push(*one)?;
        }
    }
    Ok(unmet)
}
