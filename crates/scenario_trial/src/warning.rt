//! Warnings about a script that was tried.

ghost use Rattle.std.specs.Prelude.{◌≡◌, List, filter_map, find, map, option_map, IfOk};
ghost use Rattle.std.specs.List.{list_any};
ghost use Rattle.run_stepper.specs.Trace.{Arrived};
ghost use Rattle.lc_model.specs.Host.ScheduleText.{lines_of, words_of};
ghost use Rattle.text_lines.specs.Lines.{texts_of};
ghost use Rattle.scenario_trial.specs.Arrivals.{arrival_of, rule_in};
ghost use Rattle.scenario_trial.specs.Expected.{expected_of};
ghost use Rattle.scenario_trial.specs.Reading.{placed_of};
ghost use Rattle.scenario_trial.specs.Warned.{asked_by, asks_checker, command_warning, expectation_warning, expectation_warnings, span_warning, named_warning, first_command, given_warning, idle_warning, is_kind_of_checker, is_of_checker, number_warning, or_later, or_many, other_text, state_rule, state_warning, state_warnings, ungiven_warning, with_idle};

use crate::expectation::{Arrival, ArrivalKind, Expectation};
use crate::expectation_lines::Placed;
use crate::expectation_words::is;
use crate::in_force::SettledScript;
use crate::numbers::is_known;
use crate::origin::text_named;
use crate::verdict::Judged;
use rpn_compiler::RuleText;
use run_stepper::{Came, RuleStanding, Trace};
use scenarios::{DeclaredItems, ForceChange, Plain};
use std::alloc::{AllocError, Global};
use text_lines::{first_line, words};

/// A warning about a script that was tried. Lines are the scenario's, from 1; rule texts, and the rules of a text, count from 0.
#[derive(Clone, Copy, Debug, PartialEq, Eq)]
pub enum TrialWarning {
    /// This line names a rule to which the texts give different numbers: the text in force decides.
    ManyNumbers {
        n: usize,
    },
    /// This line names this rule of this text, but another text is in force there: its rule of the same number is taken.
    OtherText {
        n: usize,
        text: usize,
        force: usize,
        rule: u16,
    },
    /// This line names a rule, but the tables in force there are of no given text: their rule of the same number is taken.
    UngivenTables {
        n: usize,
    },
    /// This line expects that nothing comes, in seconds in which the run has no record.
    NoRecord {
        n: usize,
    },
    /// This line expects that no sequence or event of a number comes, and no text has the number.
    UnknownNumber {
        n: usize,
    },
    /// This line expects that something does not come, and no rule that leads to it was sampled in these seconds.
    RuleNotSampled {
        n: usize,
    },
    /// This line expects that something does not come, and each rule that leads to it was stale or in error in these seconds.
    RuleStale {
        n: usize,
    },
    /// This line expects that an event does not come, and events of its type were off in these seconds.
    TypeOff {
        n: usize,
    },
    /// This line has the first expectation about the Limit Checker, and nothing came of the Limit Checker.
    NothingRan {
        n: usize,
    },
    /// Nothing is expected, and nothing came.
    NothingTried,
}

/// The warning of a line that names a rule by this word, if the rule is of another text than the one in force there.
fn other_text(
    texts: &[RuleText<'_>],
    declared: &DeclaredItems<'_>,
    n: usize,
    force: Option<usize>,
    word: &[u8],
) -> Option<TrialWarning>
    ensures { result ≡ other_text texts.now declared.now n force word.now }
{
    let force = force?;
    let text = text_named(texts, force, word)?;
    let rule = declared.rule_number(Some(force), word)?;
    if text == force {
        return None;
    }
    Some(TrialWarning::OtherText {
        n,
        text,
        force,
        rule,
    })
}

/// The warning found of a line that names a rule, or else that the texts give the rule different numbers, if they do.
fn or_many(
    declared: &DeclaredItems<'_>,
    n: usize,
    name: &[u8],
    found: Option<TrialWarning>,
) -> Option<TrialWarning>
    ensures { result ≡ or_many declared.now n name.now found }
{
    match found {
        Some(warning) => Some(warning),
        None => if declared.numbers_differ(name) {
            Some(TrialWarning::ManyNumbers { n })
        } else {
            None
        },
    }
}

/// The warning of line `n` about the rule of an expectation, if it has one.
fn named_warning(
    texts: &[RuleText<'_>],
    declared: &DeclaredItems<'_>,
    n: usize,
    judged: &Judged<'_>,
) -> Option<TrialWarning>
    ensures { result ≡ named_warning texts.now declared.now n judged.now.force
        (rule_in (expected_of judged.now.placed.expectation)) }
{
    match judged.placed.expectation.rule() {
        Some(name) => {
            let found = other_text(texts, declared, n, judged.force, name);
            or_many(declared, n, name, found)
        }
        None => None,
    }
}

/// The warning of line `n` about the rule of an expectation, if it was found in tables of no given text.
fn ungiven_warning(n: usize, judged: &Judged<'_>) -> Option<TrialWarning>
    ensures { result ≡ ungiven_warning n judged.now.force judged.now.found }
{
    match (judged.force, judged.found) {
        (None, RuleStanding::Stands { state: _, last: _ }) => Some(TrialWarning::UngivenTables {
            n,
        }),
        _ => None,
    }
}

/// The warning of line `n` about the seconds of an expectation that nothing comes, if no record of the run is in them.
fn span_warning(n: usize, trace: &Trace, expectation: &Expectation<'_>) -> Option<TrialWarning>
    ensures { result ≡ span_warning n trace.now.parts (expected_of expectation.now) }
{
    match expectation {
        Expectation::Absent(coming) => {
            if trace.has_record(coming.span.first, coming.span.last) {
                return None;
            }
            Some(TrialWarning::NoRecord { n })
        }
        Expectation::Comes(_) | Expectation::State(_, _) | Expectation::Result(_, _) => None,
    }
}

/// The warning of line `n` about the number of an expectation that nothing comes, if none of the texts leads to it.
fn number_warning(
    texts: &[RuleText<'_>],
    n: usize,
    expectation: &Expectation<'_>,
) -> Option<TrialWarning>
    ensures { result ≡ number_warning texts.now n (expected_of expectation.now) }
{
    match expectation {
        Expectation::Absent(coming) => {
            if is_known(texts, coming.what) {
                return None;
            }
            Some(TrialWarning::UnknownNumber { n })
        }
        Expectation::Comes(_) | Expectation::State(_, _) | Expectation::Result(_, _) => None,
    }
}

/// The warning of line `n` that an expectation can't fail, if it can't.
fn idle_expectation(
    texts: &[RuleText<'_>],
    n: usize,
    trace: &Trace,
    expectation: &Expectation<'_>,
) -> Option<TrialWarning>
    ensures { result ≡ or_later (span_warning n trace.now.parts (expected_of expectation.now))
        (number_warning texts.now n (expected_of expectation.now)) }
{
    match span_warning(n, trace, expectation) {
        Some(warning) => Some(warning),
        None => number_warning(texts, n, expectation),
    }
}

/// The warning of line `n` about an expectation of a run, if there is one, apart from tables of no given text.
fn given_warning(
    texts: &[RuleText<'_>],
    declared: &DeclaredItems<'_>,
    n: usize,
    trace: &Trace,
    judged: &Judged<'_>,
) -> Option<TrialWarning>
    ensures { result ≡ given_warning texts.now declared.now n trace.now.parts judged.now }
{
    match named_warning(texts, declared, n, judged) {
        Some(warning) => Some(warning),
        None => idle_expectation(texts, n, trace, &judged.placed.expectation),
    }
}

/// The warning about an expectation of a run, if there is one.
fn expectation_warning(
    texts: &[RuleText<'_>],
    declared: &DeclaredItems<'_>,
    plain: &Plain,
    trace: &Trace,
    judged: &Judged<'_>,
) -> Option<TrialWarning>
    ensures { result ≡ expectation_warning texts.now declared.now plain.now.lines.items
        trace.now.parts judged.now }
{
    let n = plain.line(judged.placed.n);
    match ungiven_warning(n, judged) {
        Some(warning) => Some(warning),
        None => given_warning(texts, declared, n, trace, judged),
    }
}

/// The warnings about the expectations of a run, in order. Out of memory is the only error.
pub fn expectation_warnings(
    alloc: Global,
    texts: &[RuleText<'_>],
    declared: &DeclaredItems<'_>,
    plain: &Plain,
    trace: &Trace,
    judged: &[Judged<'_>],
) -> Result<Vec<TrialWarning>, AllocError>
    ensures { IfOk result (λ found. found.items ≡ expectation_warnings texts.now declared.now
        plain.now.lines.items trace.now.parts judged.now) }
{
    let mut found = Vec::new(alloc);
    for one in judged {
        if let Some(warning) = expectation_warning(texts, declared, plain, trace, one) {
            found.push(warning)?;
        }
    }
    Ok(found)
}

/// The rule whose state a line of a scenario with these words sets.
fn state_rule<'a>(words: &[&'a [u8]]) -> Option<&'a [u8]>
    ensures { option_map (λ name. name.now) result ≡ state_rule (texts_of words.now) }
{
    match words {
        [verb, name, ..] => if is(verb, b"state") && !is(name, b"all") {
            Some(*name)
        } else {
            None
        },
        [] | [_] => None,
    }
}

/// The warning of a command of the plain script about a rule of this name, if line `n` of the scenario says the command, and the rule is
/// of another text than the one in force there.
fn command_warning(
    texts: &[RuleText<'_>],
    declared: &DeclaredItems<'_>,
    plain: &Plain,
    n: usize,
    name: &[u8],
    change: &ForceChange,
) -> Option<TrialWarning>
    ensures { result ≡ command_warning texts.now declared.now plain.now.lines.items n name.now
        change.now }
{
    if plain.line(change.line) == n {
        return other_text(texts, declared, n, change.text, name);
    }
    None
}

/// The warning of the first such command that has one.
fn first_command(
    texts: &[RuleText<'_>],
    declared: &DeclaredItems<'_>,
    plain: &Plain,
    n: usize,
    name: &[u8],
    changes: &[ForceChange],
) -> Option<TrialWarning>
    ensures { result ≡ first_command texts.now declared.now plain.now.lines.items n name.now
        changes.now }
{
    for change in changes {
        if let Some(warning) = command_warning(texts, declared, plain, n, name, change) {
            return Some(warning);
        }
    }
    None
}

/// The warning of a line of a scenario, if it sets the state of a rule of another text than the one in force there, or of one to which the
/// texts give different numbers. Out of memory is the only error.
fn state_warning(
    alloc: Global,
    texts: &[RuleText<'_>],
    declared: &DeclaredItems<'_>,
    script: &SettledScript,
    n: usize,
    line: &[u8],
) -> Result<Option<TrialWarning>, AllocError>
    ensures { IfOk result (λ found. found ≡ state_warning texts.now declared.now
        script.now.plain.lines.items script.now.changes.items n line.now) }
{
    let words = words(alloc, line)?;
    match state_rule(words.as_slice()) {
        Some(name) => {
            let (plain, changes) = (&script.plain, script.changes.as_slice());
            let found = first_command(texts, declared, plain, n, name, changes);
            Ok(or_many(declared, n, name, found))
        }
        None => Ok(None),
    }
}

/// The warnings of the lines of a scenario that set the states of rules, in order. Out of memory is the only error.
pub fn state_warnings(
    alloc: Global,
    texts: &[RuleText<'_>],
    declared: &DeclaredItems<'_>,
    script: &SettledScript,
    scenario: &[u8],
) -> Result<Vec<TrialWarning>, AllocError>
    ensures { IfOk result (λ found. found.items ≡ state_warnings texts.now declared.now
        script.now.plain.lines.items script.now.changes.items scenario.now) }
{
    let mut found = Vec::new(alloc);
    let mut left = Some(scenario);
    let mut n = 0;
    while let Some(text) = left {
        let (line, rest) = first_line(text);
        n += 1;
        if let Some(warning) = state_warning(alloc, texts, declared, script, n, line)? {
            found.push(warning)?;
        }
        left = rest;
    }
    Ok(found)
}

/// Whether requests or events of this kind are of the Limit Checker, and not of the host itself.
fn is_kind_of_checker(kind: ArrivalKind) -> bool
    ensures { result ≡ is_kind_of_checker kind }
{
    kind.number() != 2
}

/// Whether one of the arrivals is of the Limit Checker.
fn has_run(arrivals: &[Arrival]) -> bool
    ensures { result ≡ list_any is_of_checker arrivals.now }
{
    arrivals.iter().any(|one| is_kind_of_checker(one.kind))
}

/// Whether an expectation is about the Limit Checker.
fn asks_checker(placed: &Placed<'_>) -> bool
    ensures { result ≡ asks_checker (placed_of placed.now) }
{
    match placed.expectation {
        Expectation::Comes(coming) => is_kind_of_checker(coming.what.kind),
        Expectation::Absent(coming) => is_kind_of_checker(coming.what.kind),
        Expectation::State(_, _) => true,
        Expectation::Result(_, _) => true,
    }
}

/// The first expectation about the Limit Checker.
fn first_of_checker<'e, 'a>(expectations: &'e [Placed<'a>]) -> Option<&'e Placed<'a>>
    ensures { option_map (λ placed. placed_of placed.now) result ≡
        find asks_checker (map placed_of expectations.now) }
{
    for placed in expectations {
        if asks_checker(placed) {
            return Some(placed);
        }
    }
    None
}

/// The warning that nothing came of the Limit Checker, if something is expected of it.
fn unrun_warning(
    plain: &Plain,
    expectations: &[Placed<'_>],
    arrivals: &[Arrival],
) -> Option<TrialWarning>
    ensures { (came : List Arrived) → arrivals.now ≡ filter_map arrival_of came → result ≡
        asked_by plain.now.lines.items (find asks_checker (map placed_of expectations.now)) came }
{
    match first_of_checker(expectations) {
        Some(placed) if !has_run(arrivals) => Some(TrialWarning::NothingRan {
            n: plain.line(placed.n),
        }),
        _ => None,
    }
}

/// The warning that nothing was tried, or that nothing came of the Limit Checker, if that is so.
pub fn idle_warning(
    plain: &Plain,
    expectations: &[Placed<'_>],
    came: &[Came<'_>],
    arrivals: &[Arrival],
) -> Option<TrialWarning>
    requires arrived { arrivals.now ≡ filter_map arrival_of came.now }
    ensures { result ≡ idle_warning plain.now.lines.items (map placed_of expectations.now) came.now }
{
    match expectations {
        [] if came.is_empty() => Some(TrialWarning::NothingTried),
        [] => None,
        [_, ..] => unrun_warning(plain, expectations, arrivals),
    }
}

/// Warnings, and after them the one that nothing was tried, if there is one. Out of memory is the only error.
pub fn with_idle(
    warnings: Vec<TrialWarning>,
    idle: Option<TrialWarning>,
) -> Result<Vec<TrialWarning>, AllocError>
    ensures { IfOk result (λ all. all.items ≡ with_idle warnings.items idle) }
{
    let mut all = warnings;
    if let Some(warning) = idle {
        all.push(warning)?;
    }
    Ok(all)
}
