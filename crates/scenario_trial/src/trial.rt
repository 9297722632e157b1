//! A run over the stream of a script, and which of its expectations are met.

ghost use Rattle.std.specs.Prelude.{◌≡◌, filter_map, find, length, map, None, Ok, IfErr, IfOk};
ghost use Rattle.flight_core.specs.Compiled.{sources_of};
ghost use Rattle.scenario_trial.specs.Arrivals.{arrival_of, arrivals_of, event_kind, has_no_rule};
ghost use Rattle.scenario_trial.specs.Judged.{unmet_of};
ghost use Rattle.scenario_trial.specs.Outcomes.{IsJudgedRun, IsPlainTried, IsTried};
ghost use Rattle.scenario_trial.specs.Reading.{expectations_in, placed_of, silenced_in};
ghost use Rattle.scenario_trial.specs.Untried.{IsOfNobody, IsOwn, IsPlainUntried, IsUnexpected, IsUnsaid, IsUntried, plain_script_of, script_error_at};
ghost use Rattle.scenario_trial.specs.Warned.{IsWarnedBefore, warnings_of};
ghost use Rattle.stream_script.specs.ByLines.{AreStarts};
ghost use Rattle.stream_script.specs.Script.{script_in};

use crate::error::TrialError;
use crate::expectation::{Arrival, ArrivalKind, Coming, Expectation};
use crate::expectation_lines::{Placed, read_expectations, silence};
use crate::expectation_words::is;
use crate::in_force::settle_script;
use crate::judging::{expectation_probes, judged_of};
use crate::probing::{Trial, run_whole};
use crate::telling::Unmet;
use crate::unfailing::Unfailing;
use crate::verdict::{Judged, unmet_of};
use crate::warning::{TrialWarning, expectation_warnings, idle_warning, state_warnings, with_idle};
use diagnostics::Many;
use packet_listing::{PacketLine, Sent, read_packet};
use rpn_compiler::RuleText;
use run_account::RunAccount;
use run_stepper::{Came, RunInputs, Trace, read_texts};
use scenarios::{DeclaredItems, Plain, declared_in};
use std::alloc::{AllocError, Global};
use std::io::{self, Write};
use stream_script::{ScriptError, ScriptStream, read_script_by_lines};

/// The result of a trial: the number of expectations, and how many of them aren't met.
#[derive(Clone, Copy, Debug, PartialEq, Eq)]
pub struct Tried {
    pub expected: u64,
    pub unmet: u64,
}

/// The result of a trial, warnings about its script, and what its run looked at.
#[derive(Drop)]
pub struct TrialOutcome<'s> {
    pub tried: Tried,
    pub warnings: Vec<TrialWarning>,
    /// Warnings of expectations that nothing comes, in whose seconds nothing could come.
    pub idle: Vec<TrialWarning>,
    pub account: RunAccount<'s>,
}

/// The result of a trial, and warnings about its expectations.
#[derive(Drop)]
struct Judgment {
    tried: Tried,
    warnings: Vec<TrialWarning>,
}

/// A run to the end of its stream: each expectation with the state of its rule, the packets of each record, and what the run looked at.
#[derive(Drop)]
struct JudgedRun<'p, 's> {
    judged: Vec<Judged<'p>>,
    trace: Trace,
    account: RunAccount<'s>,
    unfailing: Unfailing,
}

/// The kind of an event with this sender, if such events can be expected.
fn event_kind(sender: &[u8]) -> Option<ArrivalKind>
    ensures { result ≡ event_kind sender.now }
{
    if is(sender, b"LC") {
        return Some(ArrivalKind::Event);
    }
    if is(sender, b"HOST") {
        return Some(ArrivalKind::HostEvent);
    }
    None
}

/// A request, or an event of the Limit Checker or the host: its number, and the second of its record.
fn arrival(came: &Came<'_>) -> Option<Arrival>
    ensures { result ≡ arrival_of came.now }
{
    let (place, second) = (came.place, came.moment.seconds);
    match read_packet(came.packet) {
        Some(Sent::Request(number)) => Some(Arrival {
            place,
            second,
            kind: ArrivalKind::Sequence,
            number,
        }),
        Some(Sent::Event(event)) => match event_kind(event.sender) {
            Some(kind) => Some(Arrival {
                place,
                second,
                kind,
                number: event.id,
            }),
            None => None,
        },
        _ => None,
    }
}

/// The packets that came and can be expected, in order. Out of memory is the only error.
fn arrivals_of(alloc: Global, came: &[Came<'_>]) -> Result<Vec<Arrival>, AllocError>
    ensures { IfOk result (λ arrivals. arrivals.items ≡ filter_map arrival_of came.now) }
{
    let mut arrivals = Vec::new(alloc);
    for one in came {
        if let Some(arrival) = arrival(one) {
            arrivals.push(arrival)?;
        }
    }
    Ok(arrivals)
}

/// Writes a line for each packet that came, counted from 1.
fn list_all<W: Write>(came: &[Came<'_>], out: &mut W) -> io::Result<()> {
    let mut number = 0u64;
    for one in came {
        number = number.saturating_add(1);
        let line = PacketLine {
            number,
            packet: one.packet,
        };
        writeln!(out, "{line}")?;
    }
    Ok(())
}

/// Why an unmet expectation was not met.
fn why<'a>(arrivals: &'a [Arrival], judged: &Judged<'_>) -> Unmet<'a> {
    match judged.placed.expectation {
        Expectation::Comes(Coming { what, span }) => Unmet::Missing {
            what,
            span,
            arrivals,
        },
        Expectation::Absent(Coming { what, span }) => Unmet::Came {
            what,
            span,
            arrivals,
        },
        Expectation::State(_, _) => Unmet::State(judged.found),
        Expectation::Result(_, _) => Unmet::Result(judged.found),
    }
}

/// Writes a line for each unmet expectation.
fn tell<W: Write>(
    name: &str,
    plain: &Plain,
    arrivals: &[Arrival],
    unmet: &[Judged<'_>],
    out: &mut W,
) -> io::Result<()> {
    for one in unmet {
        let why = why(arrivals, one);
        write!(out, "{name}:{}:1: error[unmet]: ", plain.line(one.placed.n))?;
        out.write_all(one.placed.line)?;
        writeln!(out, ": {why}")?;
    }
    Ok(())
}

/// The error of a plain script, placed at the scenario's line from which its line comes.
pub fn script_error_at(plain: &Plain, error: ScriptError) -> ScriptError
    ensures { result ≡ script_error_at plain.now.lines.items error }
{
    match error {
        ScriptError::Line { n, reason } => ScriptError::Line {
            n: plain.line(n),
            reason,
        },
        ScriptError::Memory => ScriptError::Memory,
    }
}

/// The stream of a plain script without its expectations, and the place in it at which each line begins.
pub(crate) fn stream_of(
    alloc: Global,
    plain: &Plain,
    quiet: &[u8],
) -> Result<ScriptStream, TrialError>
    ensures said { IfOk result (λ all. script_in quiet.now ≡ Ok all.stream.items) }
    ensures starts { IfOk result (λ all. AreStarts quiet.now all.stream.items all.starts.items) }
    ensures refused { IfErr result (IsUnsaid quiet.now plain.now.lines.items) }
{
    match read_script_by_lines(alloc, quiet) {
        Ok(all) => Ok(all),
        Err(error) => Err(TrialError::from(script_error_at(plain, error))),
    }
}

/// The expectations of a plain script.
pub(crate) fn expectations_of<'p>(
    alloc: Global,
    plain: &'p Plain,
) -> Result<Vec<Placed<'p>>, TrialError>
    ensures said { IfOk result (λ found. expectations_in plain.now.text.items ≡
        Ok (map placed_of found.items)) }
    ensures refused { IfErr result
        (IsUnexpected plain.now.text.items plain.now.lines.items) }
{
    match read_expectations(alloc, plain.text.as_slice()) {
        Ok(expectations) => Ok(expectations),
        Err(error) => Err(TrialError::from(error.at(plain))),
    }
}

/// Whether an expectation names a rule that no text has.
fn has_no_rule(declared: &DeclaredItems<'_>, placed: &Placed<'_>) -> bool
    ensures { result ≡ has_no_rule declared.now (placed_of placed.now) }
{
    match placed.expectation.rule() {
        Some(name) => declared.rule_number(None, name).is_none(),
        None => false,
    }
}

/// Refuses the first expectation that names a rule that no text has.
pub(crate) fn check_rules(
    plain: &Plain,
    declared: &DeclaredItems<'_>,
    expectations: &[Placed<'_>],
) -> Result<(), TrialError>
    ensures known { IfOk result (λ _. find (has_no_rule declared.now)
        (map placed_of expectations.now) ≡ None) }
    ensures refused { IfErr result (IsOfNobody declared.now (map placed_of expectations.now)
        plain.now.lines.items) }
{
    for placed in expectations {
        if has_no_rule(declared, placed) {
            return Err(TrialError::NoRule {
                n: plain.line(placed.n),
            });
        }
    }
    Ok(())
}

/// Writes a line for each unmet expectation, and a last one with their number.
fn report<W: Write>(
    alloc: Global,
    script: (&str, &Plain),
    arrivals: &[Arrival],
    judged: &[Judged<'_>],
    out: &mut W,
) -> Result<Tried, TrialError>
    ensures counted { IfOk result (λ tried. tried ≡ record {
      expected = length judged.now;
      unmet = length (unmet_of arrivals.now judged.now);
    }) }
    ensures own { IfErr result IsOwn }
{
    let (name, plain) = script;
    let unmet = unmet_of(alloc, arrivals, judged)?;
    tell(name, plain, arrivals, unmet.as_slice(), out)?;
    let tried = Tried {
        expected: judged.len() as u64,
        unmet: unmet.len() as u64,
    };
    let (all, unmet) = (Many(judged.len(), "expectation"), tried.unmet);
    writeln!(out, "{name}: {all}, {unmet} not met")?;
    Ok(tried)
}

/// The result of a run that reached the end of its stream: with expectations, they are judged; without, the packets that came are
/// listed.
fn judge<W: Write>(
    alloc: Global,
    texts: &[RuleText<'_>],
    declared: &DeclaredItems<'_>,
    script: (&str, &Plain),
    expectations: &[Placed<'_>],
    judged: &[Judged<'_>],
    trace: &Trace,
    out: &mut W,
) -> Result<Judgment, TrialError>
    ensures counted { IfOk result (λ judgment. judgment.tried ≡ record {
      expected = length judged.now;
      unmet = length (unmet_of (arrivals_of trace.now) judged.now);
    }) }
    ensures warned { IfOk result (λ judgment. judgment.warnings.items ≡ warnings_of texts.now
        declared.now script.entry.1.now.lines.items judged.now
        (map placed_of expectations.now) trace.now.parts) }
    ensures own { IfErr result IsOwn }
{
    let came = trace.came(alloc)?;
    let arrivals = arrivals_of(alloc, came.as_slice())?;
    let about_lines = expectation_warnings(alloc, texts, declared, script.1, trace, judged)?;
    let idle = idle_warning(script.1, expectations, came.as_slice(), arrivals.as_slice());
    let warnings = with_idle(about_lines, idle)?;
    if judged.is_empty() {
        list_all(came.as_slice(), out)?;
        let tried = Tried {
            expected: 0,
            unmet: 0,
        };
        return Ok(Judgment { tried, warnings });
    }
    let tried = report(alloc, script, arrivals.as_slice(), judged, out)?;
    Ok(Judgment { tried, warnings })
}

/// Runs a script without its expectations. Each expectation with what its probe finds, the packets of each record, and what the run looked
/// at. `quiet` is the script without its expectations.
fn run_plain<'p, 's, 't>(
    alloc: Global,
    inputs: RunInputs<'s>,
    texts: &[RuleText<'t>],
    declared: &DeclaredItems<'t>,
    plain: &Plain,
    quiet: &[u8],
    expectations: &[Placed<'p>],
) -> Result<JudgedRun<'p, 's>, TrialError>
    requires quiet { quiet.now ≡ silenced_in plain.now.text.items }
    requires said { expectations_in plain.now.text.items ≡ Ok (map placed_of expectations.now) }
    ensures ran { IfOk result (IsJudgedRun (sources_of inputs.entry.texts.now)
        inputs.entry.schedule.now declared.now (plain_script_of plain.now) expectations.now) }
    ensures refused { IfErr result (IsPlainUntried (sources_of inputs.entry.texts.now)
        inputs.entry.schedule.now declared.now (plain_script_of plain.now)) }
{
    let said = stream_of(alloc, plain, quiet)?;
    let probes = expectation_probes(alloc, said.starts.as_slice(), expectations)?;
    let trial = Trial {
        alloc,
        inputs,
        declared,
        script: quiet,
        stream: said.stream.as_slice(),
        starts: said.starts.as_slice(),
        probes: probes.as_slice(),
        texts,
    };
    let run = run_whole(&trial, inputs, expectations, (plain, &said))?;
    let judged = judged_of(alloc, expectations, run.findings.as_slice())?;
    Ok(JudgedRun {
        judged,
        trace: run.trace,
        account: run.account,
        unfailing: run.unfailing,
    })
}

/// Runs a plain script without its expectations, and judges them. A run that stops before the stream's end is an error, and so is an
/// expectation that names a rule that no text has.
fn try_plain<'s, 't, W: Write>(
    alloc: Global,
    name: &str,
    inputs: RunInputs<'s>,
    texts: &[RuleText<'t>],
    declared: &DeclaredItems<'t>,
    plain: &Plain,
    out: &mut W,
) -> Result<TrialOutcome<'s>, TrialError>
    ensures tried { IfOk result (IsPlainTried (sources_of inputs.entry.texts.now)
        inputs.entry.schedule.now texts.now declared.now (plain_script_of plain.now)) }
    ensures refused { IfErr result (IsPlainUntried (sources_of inputs.entry.texts.now)
        inputs.entry.schedule.now declared.now (plain_script_of plain.now)) }
{
    let expectations = expectations_of(alloc, plain)?;
    let expected = expectations.as_slice();
    check_rules(plain, declared, expected)?;
    let quiet = silence(alloc, plain.text.as_slice())?;
    let run = run_plain(
        alloc,
        inputs,
        texts,
        declared,
        plain,
        quiet.as_slice(),
        expected,
    )?;
    let script = (name, plain);
    let judged = run.judged.as_slice();
    let judgment = judge(
        alloc, texts, declared, script, expected, judged, &run.trace, out,
    )?;
    let has_samples = run.account.samples() > 0;
    let idle = run.unfailing.warnings(alloc, plain, texts, has_samples)?;
    Ok(TrialOutcome {
        tried: judgment.tried,
        warnings: judgment.warnings,
        idle,
        account: run.account,
    })
}

/// The outcome of a run, with these warnings before its own. Out of memory is the only error.
fn with_warnings<'s>(
    first: Vec<TrialWarning>,
    run: TrialOutcome<'s>,
) -> Result<TrialOutcome<'s>, AllocError>
    ensures { IfOk result (IsWarnedBefore first.items run.entry) }
{
    let mut warnings = first;
    warnings.extend_from_slice(run.warnings.as_slice())?;
    Ok(TrialOutcome {
        tried: run.tried,
        warnings,
        idle: run.idle,
        account: run.account,
    })
}

/// Runs rule texts over the stream of a scenario, which may use the texts' names. Without expectations, the packets that came are listed.
/// With some, a line is written for each that isn't met, with what came instead, and a last one with their number. The outcome has what the
/// run looked at.
///
/// Errors: `Rules` for the first text that doesn't compile; `Scenario`, `Expectation` or `Script` for the first line that can't be read;
/// `NoRule` for the first expectation that names a rule of no text; `Stopped` with the line whose record stopped the run; `Unsettled`;
/// all before anything is written. `Memory`. `Write` if the output refuses bytes.
pub fn try_scenario<'s, W: Write>(
    alloc: Global,
    name: &str,
    scenario: &[u8],
    plan: RunInputs<'s>,
    out: &mut W,
) -> Result<TrialOutcome<'s>, TrialError>
    ensures tried { IfOk result (IsTried (sources_of plan.entry.texts.now) plan.entry.schedule.now
        scenario.now) }
    ensures refused { IfErr result (IsUntried (sources_of plan.entry.texts.now)
        plan.entry.schedule.now scenario.now) }
{
    let found = read_texts(alloc, plan.texts)?;
    let texts = found.as_slice();
    let declared = declared_in(alloc, texts)?;
    let script = settle_script(alloc, scenario, plan, texts, &declared)?;
    let first = state_warnings(alloc, texts, &declared, &script, scenario)?;
    match try_plain(alloc, name, plan, texts, &declared, &script.plain, out) {
        Ok(run) => Ok(with_warnings(first, run)?),
        Err(error) => Err(error),
    }
}
