//! Which rule text is in force at each command of a script that sets a rule's state. A run of the script shows it; then the scenario is
//! read again with the texts that the run has shown.

ghost use Rattle.std.specs.Prelude.{◌≡◌, length, map, true, IfErr, IfOk};
ghost use Rattle.std.specs.List.{list_any};
ghost use Rattle.flight_core.specs.Compiled.{sources_of};
ghost use Rattle.lc_model.specs.Host.ScheduleText.{lines_of, words_of};
ghost use Rattle.text_lines.specs.Lines.{texts_of};
ghost use Rattle.scenarios.specs.Declarations.{AreDeclared, nothing_declared};
ghost use Rattle.scenario_trial.specs.Probes.{changes_by, state_line};
ghost use Rattle.scenario_trial.specs.Reading.{silenced_in};
ghost use Rattle.scenario_trial.specs.Settled.{AreShown, IsGuessed, IsSettled, are_of_state, is_of_state, is_state_code, marked_from, sets_state};
ghost use Rattle.scenario_trial.specs.Untried.{IsPlainUntried, IsUntried, plain_script_of};

use crate::error::TrialError;
use crate::expectation_lines::silence;
use crate::expectation_words::is;
use crate::probe::{Finding, Probe};
use crate::probing::{Trial, run_whole};
use crate::trial::{check_rules, expectations_of, stream_of};
use rpn_compiler::RuleText;
use run_stepper::RunInputs;
use scenarios::{DeclaredItems, ForceChange, Plain, plain_script};
use std::alloc::{AllocError, Global};
use text_lines::{first_line, words};

/// The plain script of a scenario, and the text in force at each of its lines that sets the state of a rule.
#[derive(Drop)]
pub struct SettledScript {
    pub plain: Plain,
    pub changes: Vec<ForceChange>,
}

/// The most runs of a scenario until it is settled.
const MOST_ROUNDS: u32 = 1_000;

/// Whether the code of a command of the Limit Checker sets the state of a rule.
fn is_state_code(code: &[u8]) -> bool
    ensures { result ≡ is_state_code code.now }
{
    is(code, b"3") || is(code, b"4")
}

/// Whether these are the first words of a command of the Limit Checker that sets the state of a rule.
fn is_of_state(verb: &[u8], mid: &[u8], code: &[u8]) -> bool
    ensures { result ≡ is_of_state verb.now mid.now code.now }
{
    is(verb, b"command") && is(mid, b"18a4") && is_state_code(code)
}

/// Whether a line with these words is a command of the Limit Checker that sets the state of a rule.
fn are_of_state(words: &[&[u8]]) -> bool
    ensures { result ≡ are_of_state (texts_of words.now) }
{
    match words {
        [verb, mid, code, ..] => is_of_state(verb, mid, code),
        [] | [_] | [_, _] => false,
    }
}

/// Whether a line of a plain script is such a command. Out of memory is the only error.
fn sets_state(alloc: Global, line: &[u8]) -> Result<bool, AllocError>
    ensures { IfOk result (λ found. found ≡ sets_state line.now) }
{
    let words = words(alloc, line)?;
    Ok(are_of_state(words.as_slice()))
}

/// For each line of a plain script, whether it sets the state of a rule. Out of memory is the only error.
fn state_marks(alloc: Global, script: &[u8]) -> Result<Vec<bool>, AllocError>
    ensures { IfOk result (λ marks. marks.items ≡ map sets_state (lines_of script.now)) }
{
    let mut marks = Vec::new(alloc);
    let mut left = Some(script);
    while let Some(text) = left {
        let (line, rest) = first_line(text);
        marks.push(sets_state(alloc, line)?)?;
        left = rest;
    }
    Ok(marks)
}

/// Whether at least one line is marked.
fn is_some_marked(marks: &[bool]) -> bool
    ensures { result ≡ list_any (λ mark. mark) marks.now }
{
    marks.iter().any(|mark| *mark)
}

/// The probes at the marked lines, by the places at which all lines begin. Out of memory is the only error.
fn state_probes(
    alloc: Global,
    starts: &[usize],
    marks: &[bool],
) -> Result<Vec<Probe<'static>>, AllocError>
    requires { length marks.now ≡ length starts.now }
    ensures { IfOk result (λ probes. probes.items ≡
        map (state_line starts.now) (marked_from 1 marks.now)) }
{
    let mut probes = Vec::new(alloc);
    for k in 0..marks.len() {
        if marks[k] {
            probes.push(Probe {
                n: k + 1,
                place: starts[k],
                rule: None,
            })?;
        }
    }
    Ok(probes)
}

/// The text in force at the line of each probe, by what it finds. Out of memory is the only error.
fn changes_of(
    alloc: Global,
    probes: &[Probe<'_>],
    findings: &[Finding],
) -> Result<Vec<ForceChange>, AllocError>
    requires { length findings.now ≡ length probes.now }
    ensures { IfOk result (λ changes. changes.items ≡ changes_by probes.now findings.now) }
{
    let mut changes = Vec::new(alloc);
    for k in 0..probes.len() {
        let probe = &probes[k];
        changes.push(ForceChange {
            line: probe.n,
            text: findings[k].force,
        })?;
    }
    Ok(changes)
}

/// The text in force at each marked line of a plain script, found by running it. `quiet` is the script without its expectations.
fn probed_forces<'t>(
    alloc: Global,
    inputs: RunInputs<'_>,
    texts: &[RuleText<'t>],
    declared: &DeclaredItems<'t>,
    plain: &Plain,
    quiet: &[u8],
    marks: &[bool],
) -> Result<Vec<ForceChange>, TrialError>
    requires quiet { quiet.now ≡ silenced_in plain.now.text.items }
    requires marks { marks.now ≡ map sets_state (lines_of quiet.now) }
    ensures shown { IfOk result (λ changes. AreShown (sources_of inputs.entry.texts.now)
        inputs.entry.schedule.now (silenced_in plain.now.text.items) changes.items) }
    ensures refused { IfErr result (IsPlainUntried (sources_of inputs.entry.texts.now)
        inputs.entry.schedule.now declared.now (plain_script_of plain.now)) }
{
    let said = stream_of(alloc, plain, quiet)?;
    let probes = state_probes(alloc, said.starts.as_slice(), marks)?;
    let trial = Trial {
        alloc,
        inputs,
        declared,
        script: quiet,
        stream: said.stream.as_slice(),
        starts: said.starts.as_slice(),
        probes: probes.as_slice(),
        texts,
    };
    let run = run_whole(&trial, inputs, &[], (plain, &said))?;
    Ok(changes_of(alloc, probes.as_slice(), run.findings.as_slice())?)
}

/// The text in force at each line of a plain script that sets the state of a rule, found by running it.
fn shown_forces<'t>(
    alloc: Global,
    inputs: RunInputs<'_>,
    texts: &[RuleText<'t>],
    declared: &DeclaredItems<'t>,
    plain: &Plain,
) -> Result<Vec<ForceChange>, TrialError>
    ensures shown { IfOk result (λ changes. AreShown (sources_of inputs.entry.texts.now)
        inputs.entry.schedule.now (silenced_in plain.now.text.items) changes.items) }
    ensures refused { IfErr result (IsPlainUntried (sources_of inputs.entry.texts.now)
        inputs.entry.schedule.now declared.now (plain_script_of plain.now)) }
{
    let quiet = silence(alloc, plain.text.as_slice())?;
    let marks = state_marks(alloc, quiet.as_slice())?;
    if !is_some_marked(marks.as_slice()) {
        return Ok(Vec::new(alloc));
    }
    let expectations = expectations_of(alloc, plain)?;
    check_rules(plain, declared, expectations.as_slice())?;
    probed_forces(
        alloc,
        inputs,
        texts,
        declared,
        plain,
        quiet.as_slice(),
        marks.as_slice(),
    )
}

/// Whether two plain scripts are the same, line by line.
fn is_same(plain: &Plain, other: &Plain) -> bool
    ensures { result ≡ true → plain_script_of plain.now ≡ plain_script_of other.now }
{
    plain.text == other.text && plain.lines == other.lines
}

/// The plain script of a scenario, and what is in force at its commands. A command that sets the state of a rule by its name has the
/// rule's number in the text that is in force at its line.
pub fn settle_script<'t>(
    alloc: Global,
    scenario: &[u8],
    inputs: RunInputs<'_>,
    texts: &[RuleText<'t>],
    declared: &DeclaredItems<'t>,
) -> Result<SettledScript, TrialError>
    requires { AreDeclared (sources_of inputs.texts.now) nothing_declared declared.now }
    ensures settled { IfOk result (λ script. IsSettled (sources_of inputs.entry.texts.now)
        inputs.entry.schedule.now declared.now scenario.now (plain_script_of script.plain)
        script.changes.items) }
    ensures guessed { IfOk result (λ script. IsGuessed (sources_of inputs.entry.texts.now)
        inputs.entry.schedule.now declared.now scenario.now (plain_script_of script.plain)) }
    ensures refused { IfErr result (IsUntried (sources_of inputs.entry.texts.now)
        inputs.entry.schedule.now scenario.now) }
{
    let mut plain = plain_script(alloc, scenario, declared, &[])?;
    let mut first = 0;
    for round in 0..MOST_ROUNDS {
        let changes = shown_forces(alloc, inputs, texts, declared, &plain)?;
        let again = plain_script(alloc, scenario, declared, changes.as_slice())?;
        if is_same(&again, &plain) {
            return Ok(SettledScript {
                plain: again,
                changes,
            });
        }
        first = changes.as_slice().first().map_or(0, |change| change.line);
        plain = again;
    }
    Err(TrialError::Unsettled {
        n: plain.line(first),
    })
}
