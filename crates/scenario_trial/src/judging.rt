//! The lines of expectations as those at which a run is probed.

ghost use Rattle.std.specs.Prelude.{◌≡◌, length, map, option_map, IfOk};
ghost use Rattle.std.specs.List.{AllByRecursion};
ghost use Rattle.scenario_trial.specs.Arrivals.{rule_in};
ghost use Rattle.scenario_trial.specs.Expected.{expected_of};
ghost use Rattle.scenario_trial.specs.Probes.{IsOfLine, expected_line, judged_by};

use crate::expectation::Expectation;
use crate::expectation_lines::Placed;
use crate::probe::{Finding, Probe};
use crate::verdict::Judged;
use std::alloc::{AllocError, Global};

impl<'a> Expectation<'a> {
    /// The rule that it names, if it names one.
    pub fn rule(self) -> Option<&'a [u8]>
        ensures { option_map (λ name. name.now) result ≡ rule_in (expected_of self.entry) }
    {
        match self {
            Expectation::Comes(_) | Expectation::Absent(_) => None,
            Expectation::State(name, _) => Some(name),
            Expectation::Result(name, _) => Some(name),
        }
    }
}

/// The probes at the lines of these expectations, by the places at which all lines begin. Out of memory is the only error.
pub fn expectation_probes<'p>(
    alloc: Global,
    starts: &[usize],
    expectations: &[Placed<'p>],
) -> Result<Vec<Probe<'p>>, AllocError>
    requires { AllByRecursion (IsOfLine starts.now) expectations.now }
    ensures { IfOk result (λ probes. probes.items ≡
        map (expected_line starts.now) expectations.now) }
{
    let mut probes = Vec::new(alloc);
    for placed in expectations {
        probes.push(Probe {
            n: placed.n,
            place: starts[placed.n - 1],
            rule: placed.expectation.rule(),
        })?;
    }
    Ok(probes)
}

/// Each expectation with what its probe finds. Out of memory is the only error.
pub fn judged_of<'p>(
    alloc: Global,
    expectations: &[Placed<'p>],
    findings: &[Finding],
) -> Result<Vec<Judged<'p>>, AllocError>
    requires { length findings.now ≡ length expectations.now }
    ensures { IfOk result (λ judged. judged.items ≡ judged_by expectations.now findings.now) }
{
    let mut judged = Vec::new(alloc);
    for k in 0..expectations.len() {
        judged.push(Judged {
            placed: expectations[k],
            force: findings[k].force,
            found: findings[k].standing,
        })?;
    }
    Ok(judged)
}
