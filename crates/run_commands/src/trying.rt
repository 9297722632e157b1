//! `try [--strict] --script SCRIPT .. --schedule SCHEDULE RULES..`

ghost use Rattle.std.specs.Prelude.{◌≡◌, IfOk, length};
ghost use Rattle.run_commands.specs.Cause.{IsOfLine, IsOfTrial, ending_of};

use crate::line_error::line_error_fault;
use crate::worst::{reported, worst_of};
use diagnostics::{Message, around, warnings_page_of};
use program_io::Noting;
use rpn_compiler::RuleText;
use run_account::{AccountWarning, RunAccount, WarningLine};
use run_stepper::{RunInputs, read_texts};
use scenario_errors::LineError;
use scenario_trial::{TrialError, TrialOutcome, TrialWarning, Tried, try_scenario};
use script_errors::script_warnings;
use std::alloc::{AllocError, Global};
use std::cell::Cell;
use std::fmt::{self, Display, Formatter};
use std::fs::Files;
use std::io::{Eprint, ErrorKind, Write};
use tool_faults::{
    Fault, LONGEST_WHOLE, line_fault, line_mark, listing_result, read, rule_texts_of, schedule_in,
    texts_in, written_fault,
};

/// The number of the message about a line whose record stops the run, or at which the text in force can't be settled.
const STOPPED: u8 = 171;

/// The number of the message about an expectation of a rule that no text has.
const NO_RULE: u8 = 172;

/// The fault for a script, a file's name and text, that is refused with this error. It may use the names of these rule texts.
fn unsaid_fault(
    alloc: Global,
    script: (&str, &[u8]),
    texts: &[&[u8]],
    error: LineError,
) -> Fault<'static>
    ensures { IsOfLine error result }
{
    match read_texts(alloc, texts) {
        Ok(found) => line_error_fault(alloc, script.0, script.1, found.as_slice(), error),
        Err(_) => Fault::Memory,
    }
}

/// The fault for a trial that failed, of a script, a file's name and text, with rule texts in files with these names. `kind` is that of
/// the output's error, if there is one.
fn trial_fault<'a>(
    alloc: Global,
    script: (&'a str, &[u8]),
    rules: &[&'a str],
    texts: &[&[u8]],
    error: TrialError,
    kind: Option<ErrorKind>,
) -> Fault<'a>
    ensures { IsOfTrial script.entry.0 rules.now error kind result }
{
    let (name, text) = script;
    match error {
        TrialError::Scenario { error } => unsaid_fault(
            alloc,
            script,
            texts,
            LineError::Words(error),
        ),
        TrialError::Expectation { error } => {
            unsaid_fault(alloc, script, texts, LineError::Expectation(error))
        }
        TrialError::Script { error } => unsaid_fault(
            alloc,
            script,
            texts,
            LineError::Script(error),
        ),
        TrialError::Rules { text, error } => match rules.get(text) {
            Some(rules) => Fault::Rules(rules, error),
            None => Fault::Rules(name, error),
        },
        TrialError::NoRule { n } => line_fault(alloc, name, text, NO_RULE, n, &error),
        TrialError::Stopped { n } => line_fault(alloc, name, text, STOPPED, n, &error),
        TrialError::Unsettled { n } => line_fault(alloc, name, text, STOPPED, n, &error),
        TrialError::Memory => Fault::Memory,
        TrialError::Write => written_fault(kind),
    }
}

/// The name of the rule with this number in the rule text with this number, if there is one.
fn rule_name<'r>(texts: &'r [RuleText<'_>], text: usize, rule: u16) -> Option<&'r [u8]> {
    let text = texts.get(text)?;
    let rule = text.rules.rules.as_slice().get(usize::from(rule))?;
    Some(rule.name.as_slice())
}

/// The end of the sentence about a rule of another text than this one, which is in force: its rule of the same number.
fn rule_taken(
    alloc: Global,
    texts: &[RuleText<'_>],
    force: usize,
    rule: u16,
) -> Result<String, AllocError> {
    match rule_name(texts, force, rule) {
        Some(name) => {
            let front = format!(in alloc; ": its rule {rule}, ")?;
            around(alloc, front.as_str(), name, ", is taken instead")
        }
        None => format!(in alloc; ", and has no rule {rule}"),
    }
}

/// The sentence about this rule of a text, where another text is in force.
fn other_text_head(
    alloc: Global,
    texts: &[RuleText<'_>],
    text: usize,
    force: usize,
    rule: u16,
) -> Result<String, AllocError> {
    let name = rule_name(texts, text, rule).unwrap_or_default();
    let behind = format!(in alloc; " is a rule of text {text}, but text {force} is in force here")?;
    let mut head = around(alloc, "", name, behind.as_str())?;
    let taken = rule_taken(alloc, texts, force, rule)?;
    head.push_str(taken.as_str())?;
    Ok(head)
}

/// The sentence of a warning about a script that was tried with these rule texts.
fn warning_head(
    alloc: Global,
    texts: &[RuleText<'_>],
    warning: TrialWarning,
) -> Result<String, AllocError> {
    match warning {
        TrialWarning::ManyNumbers { n: _ } => String::from_str(
            alloc,
            "the rule texts give this rule different numbers: the text in force decides",
        ),
        TrialWarning::OtherText {
            n: _,
            text,
            force,
            rule,
        } => other_text_head(alloc, texts, text, force, rule),
        TrialWarning::UngivenTables { n: _ } => String::from_str(
            alloc,
            "the tables in force here are of no given rule text: their rule of the same number is taken",
        ),
        TrialWarning::NoRecord { n: _ } => String::from_str(
            alloc,
            "the run has no record in these seconds: nothing could come, whatever the rules are",
        ),
        TrialWarning::UnknownNumber { n: _ } => String::from_str(
            alloc,
            "no given rule text has this number",
        ),
        TrialWarning::RuleNotSampled { n: _ } => String::from_str(
            alloc,
            "no rule that leads to this was sampled in these seconds, so it could not come",
        ),
        TrialWarning::RuleStale { n: _ } => String::from_str(
            alloc,
            "each rule that leads to this was stale or in error in these seconds, so it could not come",
        ),
        TrialWarning::TypeOff { n: _ } => String::from_str(
            alloc,
            "events of this type were off for `LC` in these seconds, so it could not come",
        ),
        TrialWarning::NothingRan { n: _ } => String::from_str(
            alloc,
            "nothing came of the Limit Checker, of which this expects something",
        ),
        TrialWarning::NothingTried => {
            String::from_str(alloc, "nothing is expected, and nothing came")
        }
    }
}

/// The name of a warning, its line, and a hint.
fn name_line_and_hint(warning: TrialWarning) -> (&'static str, usize, &'static str) {
    match warning {
        TrialWarning::ManyNumbers { n } => ("rule-number", n, "give it one number in all texts"),
        TrialWarning::OtherText {
            n,
            text: _,
            force: _,
            rule: _,
        } => ("rule-text", n, "name a rule of the text in force"),
        TrialWarning::UngivenTables { n } => ("rule-text", n, "give the rule text of these tables"),
        TrialWarning::NoRecord { n } => ("no-record", n, "name seconds that have a record"),
        TrialWarning::UnknownNumber { n } => ("unknown-number", n, "look at the number"),
        TrialWarning::RuleNotSampled { n } => {
            (
                "rule-not-sampled",
                n,
                "name seconds with samples of the rule",
            )
        }
        TrialWarning::RuleStale { n } => ("rule-stale", n, "send the packets of its fields"),
        TrialWarning::TypeOff { n } => ("type-off", n, "turn the type on before"),
        TrialWarning::NothingRan { n } => ("nothing-ran", n, "start `LC` before"),
        TrialWarning::NothingTried => ("nothing-tried", 1, "add a line `expect`"),
    }
}

/// The message for a warning about a script that was tried with these rule texts.
fn warning_message(
    alloc: Global,
    script: &[u8],
    texts: &[RuleText<'_>],
    warning: TrialWarning,
) -> Result<Message, AllocError> {
    let (name, n, hint) = name_line_and_hint(warning);
    let head = warning_head(alloc, texts, warning)?;
    let mut mark = line_mark(alloc, script, n);
    mark.label = String::from_str(alloc, hint)?;
    Ok(Message::warning(alloc, name, head, mark))
}

/// The messages for the warnings about a script that was tried with these rule texts, after those so far.
fn with_messages(
    alloc: Global,
    told: Vec<Message>,
    script: &[u8],
    texts: &[&[u8]],
    warnings: &[TrialWarning],
) -> Result<Vec<Message>, AllocError> {
    let Ok(texts) = read_texts(alloc, texts) else {
        return Err(AllocError);
    };
    let mut told = told;
    for warning in warnings {
        told.push(warning_message(alloc, script, texts.as_slice(), *warning)?)?;
    }
    Ok(told)
}

/// The lines that a script's run sampled nothing, and that its time steps back, if that is so.
#[derive(Clone, Copy)]
struct AccountLines<'a, 's> {
    name: &'a str,
    account: &'a RunAccount<'s>,
}

impl AccountLines<'_, '_> {
    /// Writes a warning about the run as a line.
    fn write_line<W: fmt::Write>(
        &self,
        f: &mut Formatter<W>,
        warning: AccountWarning,
    ) -> fmt::Result {
        let line = WarningLine {
            account: self.account,
            texts: &[],
            warning,
        };
        writeln!(f, "{}: {line}", self.name)
    }
}

impl Display for AccountLines<'_, '_> {
    fn fmt<W: fmt::Write>(&self, f: &mut Formatter<W>) -> fmt::Result {
        if self.account.samples() == 0 {
            self.write_line(f, AccountWarning::NothingSampled)?;
        }
        let count = self.account.steps_back();
        if count > 0 {
            self.write_line(f, AccountWarning::StepsBack { count })?;
        }
        Ok(())
    }
}

/// Writes the warnings about a script, a file's name and text, and those of its trial with these rule texts, to standard error, and
/// about what the run looked at. Returns whether a line of the script has a warning.
fn warn<R: Eprint + AllocGlobal>(
    rt: &R,
    script: (&str, &[u8]),
    texts: &[&[u8]],
    outcome: &TrialOutcome<'_>,
) -> Result<bool, AllocError> {
    let (name, text) = script;
    let told = script_warnings(rt.alloc(), text)?;
    let told = with_messages(rt.alloc(), told, text, texts, outcome.warnings.as_slice())?;
    let told = with_messages(rt.alloc(), told, text, texts, outcome.idle.as_slice())?;
    let page = warnings_page_of(rt.alloc(), name, text, told.as_slice())?;
    let account = &outcome.account;
    let _said = eprint!(rt; "{page}{}", AccountLines { name, account });
    Ok(!told.is_empty())
}

/// The result of a trial, by whether a rule was sampled and whether there are warnings about its script: `Unmet` before `Warned` before
/// `NotSampled`. A warning is a fault only if the trial is strict.
fn ending_of(
    tried: Tried,
    is_sampled: bool,
    is_warned: bool,
    strict: bool,
) -> Result<(), Fault<'static>>
    ensures { result ≡ ending_of tried is_sampled is_warned strict }
{
    if tried.unmet > 0 {
        return Err(Fault::Unmet);
    }
    if strict && is_warned {
        return Err(Fault::Warned);
    }
    if !is_sampled {
        return Err(Fault::NotSampled);
    }
    Ok(())
}

/// The result of a trial whose run reached the script's end, after its warnings are written to standard error.
fn result_of<R: Eprint + AllocGlobal>(
    rt: &R,
    script: (&str, &[u8]),
    plan: RunInputs<'_>,
    outcome: &TrialOutcome<'_>,
    strict: bool,
) -> Result<(), Fault<'static>> {
    let is_warned = warn(rt, script, plan.texts, outcome)?;
    ending_of(
        outcome.tried,
        outcome.account.samples() > 0,
        is_warned,
        strict,
    )
}

/// Runs rule texts over the stream of a script, and lists its unmet expectations, or all packets of the run if it has no expectations.
/// Warnings go to standard error. `rules` are the names of the texts' files. Errors: `Unmet`; `Warned` if the trial is strict and there
/// are warnings; `NotSampled`; `Lines` for a refused script or a stopped run; and the faults of the script's file, of texts and of the
/// output.
fn try_script<'a, R: Files + Eprint + AllocGlobal, W: Write>(
    rt: &R,
    script: &'a str,
    rules: &[&'a str],
    plan: RunInputs<'_>,
    strict: bool,
    out: &mut W,
) -> Result<(), Fault<'a>> {
    let text = read(rt, script, LONGEST_WHOLE)?;
    let kind = Cell::new(None);
    let mut noted = Noting::new(out, &kind);
    match try_scenario(rt.alloc(), script, text.as_slice(), plan, &mut noted) {
        Ok(outcome) => {
            listing_result(noted.flush())?;
            result_of(rt, (script, text.as_slice()), plan, &outcome, strict)
        }
        Err(error) => Err(trial_fault(
            rt.alloc(),
            (script, text.as_slice()),
            rules,
            plan.texts,
            error,
            kind.get(),
        )),
    }
}

/// Runs each script as `try_script` does, in order, and writes each one's fault to standard error. Returns the status of each.
fn try_each<'a, R: Files + Eprint + AllocGlobal, W: Write>(
    rt: &R,
    scripts: &[&'a str],
    rules: &[&'a str],
    plan: RunInputs<'_>,
    strict: bool,
    out: &mut W,
) -> Result<Vec<u8>, AllocError>
    ensures each { IfOk result (λ statuses. length statuses.items ≡ length scripts.now) }
{
    let mut statuses = Vec::new(rt.alloc());
    for script in scripts {
        let status = match try_script(rt, script, rules, plan, strict, out) {
            Ok(()) => 0,
            Err(fault) => {
                let _said = eprint!(rt; "{fault}");
                fault.status()
            }
        };
        statuses.push(status)?;
    }
    Ok(statuses)
}

/// Tries scripts with the rule texts in these files: each script alone, in the order given. Errors: `Reported` with the worst status of
/// the trials if one of them has another than 0, after each fault is written to standard error; and the faults of the schedule and of
/// rule texts, before any script is read.
pub fn try_out<'a, R: Files + Eprint + AllocGlobal, W: Write>(
    rt: &R,
    scripts: &[&'a str],
    schedule: &'a str,
    rules: &[&'a str],
    strict: bool,
    out: &mut W,
) -> Result<(), Fault<'a>> {
    let schedule = schedule_in(rt, schedule)?;
    let texts = texts_in(rt, rules)?;
    let _valid = rule_texts_of(rt.alloc(), rules, texts.as_slice())?;
    let mut slices = Vec::new(rt.alloc());
    for text in &texts {
        slices.push(text.as_slice())?;
    }
    let plan = RunInputs {
        texts: slices.as_slice(),
        schedule: &schedule,
    };
    let statuses = try_each(rt, scripts, rules, plan, strict, out)?;
    reported(worst_of(statuses.as_slice()))
}
