//! The lines of a script at which a run is probed, and their findings.

ghost use Rattle.std.specs.Prelude.{◌≡◌, ◌++◌, ◌≤◌, drop, length, option_map, IfOk};
ghost use Rattle.app_host.specs.Delivered.{executive_in};
ghost use Rattle.run_stepper.specs.Stepping.{IsAtRest, host_in};
ghost use Rattle.run_stepper.specs.Trace.{engine_in};
ghost use Rattle.scenario_trial.specs.Arrivals.{standing_named};
ghost use Rattle.scenario_trial.specs.Probes.{end_in_front, finding_of, findings_before, is_before, next_before};

use run_stepper::{RuleStanding, Stepping, record_size};
use scenarios::DeclaredItems;
use std::alloc::AllocError;
use std::marker::Model;

/// A line of a script at which a run is probed.
#[derive(Drop)]
pub struct Probe<'a> {
    /// The number of the line, from 1.
    pub n: usize,
    /// The length in bytes of the stream before the line.
    pub place: usize,
    /// The rule that the line names, if it names one.
    pub rule: Option<&'a [u8]>,
}

impl<'a> Model for Probe<'a> {
    ghost use Rattle.std.specs.Prelude.{option_map};
    ghost use Rattle.scenario_trial.specs.ProbedLine.{ProbedLine};

    ghost Value = { ProbedLine };

    ghost view = { λ probe. record { n = probe.n; place = probe.place; rule = option_map (λ name. name.now) probe.rule } };
}

/// What a probe finds: the number of the rule text in force, and the state of the rule that the line names; `NoRule` if it names none, or
/// none that there is.
#[derive(Clone, Copy)]
pub struct Finding {
    pub force: Option<usize>,
    pub standing: RuleStanding,
}

/// The state and the last result of a rule by its name, if this text is in force; `NoRule` if there is no name, or no such rule.
fn standing(
    declared: &DeclaredItems<'_>,
    stepping: &Stepping,
    force: Option<usize>,
    name: Option<&[u8]>,
) -> RuleStanding
    requires { IsAtRest stepping.now }
    ensures { result ≡ standing_named declared.now force
        (engine_in (executive_in (host_in stepping.now).host).seats)
        (option_map (λ name. name.now) name.entry) }
{
    let Some(name) = name else {
        return RuleStanding::NoRule;
    };
    match declared.rule_number(force, name) {
        Some(rule) => stepping.rule_standing(usize::from(rule)),
        None => RuleStanding::NoRule,
    }
}

/// What a probe finds after the record that was handled last.
fn find_at(declared: &DeclaredItems<'_>, stepping: &Stepping, probe: &Probe<'_>) -> Finding
    requires { IsAtRest stepping.now }
    ensures { result ≡ finding_of declared.now (host_in stepping.now) probe.now }
{
    let force = stepping.own_text_in_force();
    Finding {
        force,
        standing: standing(declared, stepping, force, probe.rule),
    }
}

/// Whether a place of the stream is before this end; every place is if there is none.
fn is_before(end: Option<usize>, place: usize) -> bool
    ensures { result ≡ is_before end place }
{
    match end {
        Some(end) => place < end,
        None => true,
    }
}

/// The probe after this many, if it is before this end.
fn next_before<'p, 'a>(
    probes: &'p [Probe<'a>],
    count: usize,
    end: Option<usize>,
) -> Option<&'p Probe<'a>>
    ensures { option_map (λ probe. probe.now) result ≡ next_before end (drop count probes.now) }
{
    let probe = probes.get(count)?;
    if is_before(end, probe.place) {
        return Some(probe);
    }
    None
}

/// Adds what the probes find that come after those so far and before this end, after the record that was handled last.
pub(crate) fn find_before(
    declared: &DeclaredItems<'_>,
    probes: &[Probe<'_>],
    end: Option<usize>,
    stepping: &Stepping,
    findings: &mut Vec<Finding>,
) -> Result<(), AllocError>
    requires rest { IsAtRest stepping.now }
    ensures found { IfOk result (λ _. findings.new.items ≡ findings.old.items ++
        findings_before (finding_of declared.now (host_in stepping.now)) end
        (drop (length findings.old.items) probes.now)) }
{
    while let Some(probe) = next_before(probes, findings.len(), end) {
        findings.push(find_at(declared, stepping, probe))?;
    }
    Ok(())
}

/// The end of the record after this place of a stream; none if nothing is left.
pub(crate) fn end_of_next(stream: &[u8], place: usize) -> Option<usize>
    requires { place ≤ length stream.now }
    ensures { result ≡ end_in_front place (drop place stream.now) }
{
    let (_, rest) = stream.split_at(place);
    if rest.is_empty() {
        return None;
    }
    Some(place + record_size(rest))
}
