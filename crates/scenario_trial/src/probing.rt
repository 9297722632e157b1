//! The run of a script that is probed at its lines.

ghost use Rattle.std.specs.Prelude.{◌≡◌, ◌+◌, ◌<◌, ◌≤◌, ◌++◌, ◌∷◌, [], List, length, true, IfErr, IfOk, IfSome, OnOk};
ghost use Rattle.flight_core.specs.Compiled.{sources_of};
ghost use Rattle.flight_core.specs.Feeding.{Feeding};
ghost use Rattle.run_account.specs.Account.{IsAccountOf, schedule_of};
ghost use Rattle.run_stepper.specs.Stepping.{IsAtRest, host_in};
ghost use Rattle.run_stepper.specs.Steps.{Step};
ghost use Rattle.run_stepper.specs.Watching.{IsNew, step_shown};
ghost use Rattle.stream_script.specs.ByLines.{AreStarts};
ghost use Rattle.scenario_trial.specs.declared.error.TrialError.TheVariants.{Memory};
ghost use Rattle.scenario_trial.specs.Arrivals.{is_whole};
ghost use Rattle.scenario_trial.specs.Probes.{AreAhead};
ghost use Rattle.scenario_trial.specs.Probing.{AreFoundThere, HasGoneOver, HasProbed, HasSeen, HasTraced, HasWatched, IsNotWhole, findings_there};
ghost use Rattle.scenario_trial.specs.Untried.{IsNotRun};

use crate::error::TrialError;
use crate::expectation_lines::Placed;
use crate::probe::{Finding, Probe, end_of_next, find_before};
use crate::stopping::{is_whole, stop_line};
use crate::unfailing::Unfailing;
use lc_model::Pieces;
use lc_model::stream::PIECE;
use rpn_compiler::RuleText;
use run_account::RunAccount;
use run_stepper::laws::{runs_are_seen_through, steps_are_a_run};
use run_stepper::{Observer, RunInputs, Stepping, Trace, WatchError, watch};
use scenarios::{DeclaredItems, Plain};
use std::alloc::{AllocError, Global};
use stream_script::ScriptStream;

/// A run of a script: the rule texts, the schedule, what the texts declare, the script without its expectations, its stream, the place in
/// the stream at which each line begins, the lines at which the run is probed, in order, and the texts with their rules.
#[derive(Clone, Copy)]
pub struct Trial<'a, 't> {
    pub alloc: Global,
    pub inputs: RunInputs<'a>,
    pub declared: &'a DeclaredItems<'t>,
    pub script: &'a [u8],
    pub stream: &'a [u8],
    pub starts: &'a [usize],
    pub probes: &'a [Probe<'a>],
    pub texts: &'a [RuleText<'t>],
}

/// What a run has led to: what the first probes find, the packets of each record, what the run looked at, and
/// which expectations could fail.
#[derive(Drop)]
pub struct TrialRun<'s> {
    /// The length in bytes of all records.
    place: usize,
    pub findings: Vec<Finding>,
    pub trace: Trace,
    pub account: RunAccount<'s>,
    pub unfailing: Unfailing,
}

/// The place in a stream after a record that begins at this place; none if no record can be there.
fn place_after(stream: &[u8], place: usize, record: &[u8]) -> Option<usize>
    ensures goes_on { IfSome result (λ _. place < length stream.now) }
    ensures after { IfSome result (λ after. after ≡ place + length record.now) }
    ensures within { IfSome result (λ after. after ≤ length stream.now) }
{
    if place >= stream.len() {
        return None;
    }
    if record.len() > stream.len() - place {
        return None;
    }
    Some(place + record.len())
}

/// Adds what the probes find that come before the end of the record after this place; all that are left if nothing follows.
fn find_to_next(
    trial: &Trial<'_, '_>,
    place: usize,
    stepping: &Stepping,
    findings: &mut Vec<Finding>,
) -> Result<(), AllocError>
    requires rest { IsAtRest stepping.now }
    requires within { place ≤ length trial.now.stream.now }
    ensures found { IfOk result (λ _. findings.new.items ≡ findings.old.items ++
        findings_there trial.now place (host_in stepping.now) findings.old.items) }
{
    let end = end_of_next(trial.stream, place);
    find_before(trial.declared, trial.probes, end, stepping, findings)
}

/// A run without a record, with the account of such a run.
fn first_run<'s>(
    trial: &Trial<'_, '_>,
    stepping: &Stepping,
    account: RunAccount<'s>,
    unfailing: Unfailing,
) -> Result<TrialRun<'s>, AllocError>
    requires rest { IsAtRest stepping.now }
    requires ahead { AreAhead 0 trial.now.starts.now trial.now.probes.now }
    requires account { IsAccountOf account [] }
    requires under { schedule_of account ≡ trial.now.inputs.schedule.now }
    ensures probed { IfOk result (λ run. HasProbed trial.now (host_in stepping.now) run []) }
{
    let mut findings = Vec::new(trial.alloc);
    find_to_next(trial, 0, stepping, &mut findings)?;
    Ok(TrialRun {
        place: 0,
        findings,
        trace: Trace::new(trial.alloc),
        account,
        unfailing,
    })
}

impl TrialRun<'_> {
    /// Takes the record that was handled last.
    fn add(&mut self, trial: &Trial<'_, '_>, stepping: &Stepping) -> Result<(), WatchError>
        requires { IsAtRest stepping.now }
        ensures { (start : Feeding) (steps : List Step) →
            HasProbed trial.now start self.old steps → OnOk result
            (HasProbed trial.now start self.new (steps ++ step_shown stepping.now ∷ [])) }
    {
        let Some(place) = place_after(trial.stream, self.place, stepping.last_record()) else {
            return Err(WatchError::Bound);
        };
        self.place = place;
        self.trace.add(trial.alloc, stepping)?;
        let requests = self.account.add(stepping);
        let force = self.account.text_in_force();
        self.unfailing.add(trial.texts, stepping, requests, force);
        find_to_next(trial, place, stepping, &mut self.findings)?;
        Ok(())
    }
}

/// Watches a run for a trial.
#[derive(Drop)]
struct TrialObserver<'a, 't, 's> {
    trial: Trial<'a, 't>,
    run: TrialRun<'s>,
}

impl Observer for TrialObserver<'_, '_, '_> {
    ghost has_seen = { λ first it _ steps. HasSeen first.trial it.trial first.run it.run steps };

    fn read(&mut self, _piece: &[u8]) {}

    fn show(&mut self, stepping: &Stepping) -> Result<(), WatchError> {
        self.run.add(&self.trial, stepping)
    }
}

/// The error of a run over a stream in memory: no read and no write of it fails, its records are those of the stream, and they are fewer
/// than 64 bits count.
fn watch_error(_error: WatchError) -> TrialError
    ensures { result ≡ Memory }
{
    TrialError::Memory
}

/// Runs over the whole stream with this run before its first record.
fn watch_trial<'s>(
    trial: &Trial<'_, '_>,
    stepping: &mut Stepping,
    run: TrialRun<'s>,
) -> Result<TrialRun<'s>, TrialError>
    requires rest { IsAtRest stepping.old }
    requires new { IsNew (host_in stepping.old) }
    requires first { HasProbed trial.now (host_in stepping.old) run [] }
    ensures rest { IsAtRest stepping.new }
    ensures watched { IfOk result (HasWatched trial.now (host_in stepping.old)) }
    ensures memory { IfErr result (λ error. error ≡ Memory) }
{
    let mut observer = TrialObserver { trial: *trial, run };
    let mut reader = Pieces::new(trial.stream, PIECE);
    let ended = watch(trial.alloc, stepping, &mut reader, &mut observer);
    let TrialObserver { trial: _, mut run } = observer;
    match ended {
        Ok(ending) => {
            run.trace.end(ending);
            Ok(run)
        }
        Err(error) => Err(watch_error(error)),
    }
}

/// Runs over the whole stream with a host to which nothing has come.
fn run_from<'s>(
    trial: &Trial<'_, '_>,
    stepping: &mut Stepping,
    account: RunAccount<'s>,
    unfailing: Unfailing,
) -> Result<TrialRun<'s>, TrialError>
    requires rest { IsAtRest stepping.old }
    requires new { IsNew (host_in stepping.old) }
    requires ahead { AreAhead 0 trial.now.starts.now trial.now.probes.now }
    requires account { IsAccountOf account [] }
    requires under { schedule_of account ≡ trial.now.inputs.schedule.now }
    ensures rest { IsAtRest stepping.new }
    ensures watched { IfOk result (HasWatched trial.now (host_in stepping.old)) }
    ensures memory { IfErr result (λ error. error ≡ Memory) }
{
    let run = first_run(trial, stepping, account, unfailing)?;
    watch_trial(trial, stepping, run)
}

/// Runs the script with the account of a run without a record.
fn run_once<'s>(
    trial: &Trial<'_, '_>,
    account: RunAccount<'s>,
    unfailing: Unfailing,
) -> Result<TrialRun<'s>, TrialError>
    requires starts { AreStarts trial.now.script.now trial.now.stream.now trial.now.starts.now }
    requires ahead { AreAhead 0 trial.now.starts.now trial.now.probes.now }
    requires account { IsAccountOf account [] }
    requires under { schedule_of account ≡ trial.now.inputs.schedule.now }
    ensures over { IfOk result (HasGoneOver trial.now) }
    ensures traced { IfOk result (HasTraced trial.now) }
    ensures found { IfOk result (λ run. is_whole run.trace.ending ≡ true →
        AreFoundThere trial.now run.findings.items) }
    ensures refused { IfErr result (IsNotRun (sources_of trial.now.inputs.texts.now)) }
{
    steps_are_a_run();
    runs_are_seen_through();
    let mut stepping = Stepping::new(trial.alloc, trial.inputs.texts, trial.inputs.schedule)?;
    let run = run_from(trial, &mut stepping, account, unfailing);
    stepping.close();
    run
}

/// Runs the script to the end of its stream.
///
/// Errors: `Rules` for the first text that doesn't compile; `Stopped` with the line of the scenario whose record stops the run; `Memory`.
pub fn run_whole<'s>(
    trial: &Trial<'_, '_>,
    inputs: RunInputs<'s>,
    expectations: &[Placed<'_>],
    lines: (&Plain, &ScriptStream),
) -> Result<TrialRun<'s>, TrialError>
    requires starts { AreStarts trial.now.script.now trial.now.stream.now trial.now.starts.now }
    requires ahead { AreAhead 0 trial.now.starts.now trial.now.probes.now }
    requires under { inputs.schedule.now ≡ trial.now.inputs.schedule.now }
    ensures whole { IfOk result (λ run. is_whole run.trace.ending ≡ true) }
    ensures over { IfOk result (HasGoneOver trial.now) }
    ensures traced { IfOk result (HasTraced trial.now) }
    ensures found { IfOk result (λ run. AreFoundThere trial.now run.findings.items) }
    ensures refused { IfErr result (IsNotWhole (sources_of trial.now.inputs.texts.now)
        trial.now.inputs.schedule.now trial.now.stream.now) }
{
    let account = RunAccount::new(trial.alloc, trial.texts, inputs.schedule)?;
    let unfailing = Unfailing::new(trial.alloc, expectations)?;
    let run = run_once(trial, account, unfailing)?;
    if is_whole(run.trace.ending()) {
        return Ok(run);
    }
    let (plain, said) = lines;
    Err(TrialError::Stopped {
        n: plain.line(stop_line(said, run.trace.ending())),
    })
}
