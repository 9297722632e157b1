//! Turns a scenario into a plain script.

ghost use Rattle.std.specs.Prelude.{◌≡◌, ◌<◌, ◌+◌, ◌^◌, drop, length, IfOk, IfErr, IsErr, Ok, Err};
ghost use Rattle.lc_model.specs.Host.ScheduleText.{lines_of};
ghost use Rattle.text_lines.specs.Lines.{texts_of};
ghost use Rattle.scenarios.specs.Error.{IsRefused, IsScenarioError, ScenarioFault};
ghost use Rattle.scenarios.specs.Line.{line_said};
ghost use Rattle.scenarios.specs.Plain.{PlainScript, begun, behind_end, end_said, gone_on, line_of, most_steps, plain_in, repeat_said, said_within, scenario_said, some_end, step, words_at};
ghost use Rattle.scenarios.specs.declared.error.ScenarioError.TheVariants.{Memory};

use crate::declared::DeclaredItems;
use crate::error::{LineRefusal, Reason, ScenarioError};
use crate::force::ForceChange;
use crate::line::line_said;
use crate::named::Rule;
use crate::repetition::{Repetition, behind_end, is_end, is_repeat, times_in};
use crate::said::Saying;
use crate::word::words_in;
use std::alloc::{AllocError, Global};
use std::collections::VecDeque;
use std::marker::Model;
use text_lines::first_line;

/// The most lines that are read, each as often as it is repeated, including those that begin and end repetitions.
const MOST_STEPS: u64 = 10_000_000;

/// A plain script, with the scenario's line of each of its lines.
#[derive(Drop)]
pub struct Plain {
    /// The plain script.
    pub text: Vec<u8>,
    /// For each of its lines the number of the scenario's line that gives it, counted from 1.
    pub lines: Vec<usize>,
}

impl Plain {
    /// The scenario's line that gives line `n` of the plain script; both count from 1. Returns `n` if there is no such line.
    pub fn line(&self, n: usize) -> usize
        ensures { result ≡ line_of self.now.lines.items n }
    {
        match self.lines.as_slice().get(n.saturating_sub(1)) {
            Some(line) => *line,
            None => n,
        }
    }
}

/// The place of the next line, the current repetitions with the innermost first, and the script so far. Contracts see all (`Going`).
#[derive(Drop)]
struct Going<'a> {
    place: usize,
    repetitions: VecDeque<Repetition>,
    said: Saying<'a>,
}

impl<'a> Model for Going<'a> {
    ghost use Rattle.scenarios.specs.Plain.{Going};

    ghost Value = { Going };

    ghost view = { λ g. record {
      place = g.place;
      repetitions = g.repetitions.items;
      said = g.said;
    } };
}

/// The lines of a scenario. The only error is a lack of memory.
fn lines_of(alloc: Global, scenario: &[u8]) -> Result<Vec<&[u8]>, AllocError>
    ensures { IfOk result (λ lines. texts_of lines.items ≡ lines_of scenario.now) }
{
    let mut lines = Vec::new(alloc);
    let mut left = Some(scenario);
    while let Some(text) = left {
        let (line, rest) = first_line(text);
        lines.push(line)?;
        left = rest;
    }
    Ok(lines)
}

/// The place after the end of the repetition whose first line is at this place. The error is `Unended`.
fn some_end(alloc: Global, lines: &[&[u8]], first: usize) -> Result<usize, LineRefusal>
    ensures said { IfOk result
        (λ end. some_end (behind_end 0 first (drop first (texts_of lines.now))) ≡ Ok end) }
    ensures refused { IfErr result
        (IsRefused (some_end (behind_end 0 first (drop first (texts_of lines.now))))) }
{
    match behind_end(alloc, lines, first)? {
        Some(end) => Ok(end),
        None => Err(LineRefusal::Line(Reason::Unended)),
    }
}

/// The state after a line that begins a repetition; `end` is the place after the repetition's end.
fn begin_repetition(going: Going<'_>, times: u32, end: usize) -> Result<Going<'_>, AllocError>
    requires { going.place < 2 ^ 63 }
    ensures { IfOk result (λ after. begun times end going.entry ≡ Ok after) }
{
    let Going {
        place,
        mut repetitions,
        said,
    } = going;
    if times == 0 {
        return Ok(Going {
            place: end,
            repetitions,
            said,
        });
    }
    repetitions.push_front(Repetition {
        first: place + 1,
        left: times - 1,
    })?;
    Ok(Going {
        place: place + 1,
        repetitions,
        said,
    })
}

/// The state after a line with these words, which begins a repetition.
fn repeat_said<'a>(
    alloc: Global,
    lines: &[&[u8]],
    words: &[&[u8]],
    going: Going<'a>,
) -> Result<Going<'a>, LineRefusal>
    requires { going.place < 2 ^ 63 }
    ensures said { IfOk result
        (λ after. repeat_said (texts_of lines.now) (texts_of words.now) going.entry ≡ Ok after) }
    ensures refused { IfErr result
        (IsRefused (repeat_said (texts_of lines.now) (texts_of words.now) going.entry)) }
{
    let times = times_in(words)?;
    let end = some_end(alloc, lines, going.place + 1)?;
    Ok(begin_repetition(going, times, end)?)
}

/// The state after a line that ends a repetition. The error is `Unbegun`.
fn end_said(going: Going<'_>) -> Result<Going<'_>, LineRefusal>
    requires { going.place < 2 ^ 63 }
    ensures said { IfOk result (λ after. end_said going.entry.repetitions going.entry ≡ Ok after) }
    ensures refused { IfErr result (IsRefused (end_said going.entry.repetitions going.entry)) }
{
    let Going {
        place,
        mut repetitions,
        said,
    } = going;
    let Some(last) = repetitions.pop_front() else {
        return Err(LineRefusal::Line(Reason::Unbegun));
    };
    if last.left == 0 {
        return Ok(Going {
            place: place + 1,
            repetitions,
            said,
        });
    }
    repetitions.push_front(Repetition {
        first: last.first,
        left: last.left - 1,
    })?;
    Ok(Going {
        place: last.first,
        repetitions,
        said,
    })
}

/// The state after any other line with these words.
fn gone_on<'a>(
    alloc: Global,
    rules: &[Rule<'_>],
    changes: &[ForceChange],
    words: &[&[u8]],
    going: Going<'a>,
) -> Result<Going<'a>, LineRefusal>
    requires { going.place < 2 ^ 63 }
    ensures said { IfOk result (λ after. gone_on going.entry
        (line_said rules.now changes.now (going.entry.place + 1) (texts_of words.now) going.entry.said) ≡
        Ok after) }
    ensures refused { IfErr result (IsRefused (gone_on going.entry
        (line_said rules.now changes.now (going.entry.place + 1) (texts_of words.now) going.entry.said))) }
{
    let Going {
        place,
        repetitions,
        said,
    } = going;
    let said = line_said(alloc, rules, changes, said, place + 1, words)?;
    Ok(Going {
        place: place + 1,
        repetitions,
        said,
    })
}

/// The state after the line with these words.
fn step<'a>(
    alloc: Global,
    rules: &[Rule<'_>],
    changes: &[ForceChange],
    lines: &[&[u8]],
    words: &[&[u8]],
    going: Going<'a>,
) -> Result<Going<'a>, LineRefusal>
    requires { going.place < 2 ^ 63 }
    ensures said { IfOk result
        (λ after. step rules.now changes.now (texts_of lines.now) (texts_of words.now) going.entry ≡ Ok after) }
    ensures refused { IfErr result
        (IsRefused (step rules.now changes.now (texts_of lines.now) (texts_of words.now) going.entry)) }
{
    if is_repeat(words) {
        return repeat_said(alloc, lines, words, going);
    }
    if is_end(words) {
        return end_said(going);
    }
    gone_on(alloc, rules, changes, words, going)
}

/// The state after the next line.
fn step_on<'a>(
    alloc: Global,
    rules: &[Rule<'_>],
    changes: &[ForceChange],
    lines: &[&[u8]],
    going: Going<'a>,
) -> Result<Going<'a>, LineRefusal>
    requires { going.place < length lines.now }
    ensures said { IfOk result (λ after. step rules.now changes.now (texts_of lines.now)
        (words_at (texts_of lines.now) going.entry.place) going.entry ≡ Ok after) }
    ensures refused { IfErr result (IsRefused (step rules.now changes.now (texts_of lines.now)
        (words_at (texts_of lines.now) going.entry.place) going.entry)) }
{
    let words = words_in(alloc, lines[going.place])?;
    step(alloc, rules, changes, lines, words.as_slice(), going)
}

/// The script of the lines.
fn said_within<'a>(
    alloc: Global,
    rules: &[Rule<'_>],
    changes: &[ForceChange],
    lines: &[&[u8]],
    start: Going<'a>,
) -> Result<Saying<'a>, ScenarioError>
    ensures said { IfOk result
        (λ said. said_within most_steps rules.now changes.now (texts_of lines.now) start.entry ≡ Ok said) }
    ensures refused { IfErr result
        (IsScenarioError (said_within most_steps rules.now changes.now (texts_of lines.now) start.entry)) }
{
    let mut going = start;
    for _ in 0..MOST_STEPS {
        let place = going.place;
        if place >= lines.len() {
            return Ok(going.said);
        }
        match step_on(alloc, rules, changes, lines, going) {
            Ok(after) => going = after,
            Err(LineRefusal::Line(reason)) => {
                return Err(ScenarioError::Line {
                    n: place + 1,
                    reason,
                });
            }
            Err(LineRefusal::Memory) => return Err(ScenarioError::Memory),
        }
    }
    if going.place >= lines.len() {
        return Ok(going.said);
    }
    Err(ScenarioError::Line {
        n: going.place + 1,
        reason: Reason::TooLong,
    })
}

/// The script of a scenario with these declarations and these changes of the text in force.
fn scenario_said<'a>(
    alloc: Global,
    scenario: &[u8],
    declared: &DeclaredItems<'a>,
    changes: &[ForceChange],
) -> Result<Saying<'a>, ScenarioError>
    ensures said { IfOk result (λ said. scenario_said declared.now changes.now scenario.now ≡ Ok said) }
    ensures refused { IfErr result (IsScenarioError (scenario_said declared.now changes.now scenario.now)) }
{
    let lines = lines_of(alloc, scenario)?;
    let going = Going {
        place: 0,
        repetitions: VecDeque::new(alloc),
        said: Saying::new(alloc, declared)?,
    };
    said_within(alloc, declared.rules(), changes, lines.as_slice(), going)
}

/// The plain script of a scenario with these declarations. `changes` has the text in force from lines of the plain script on, in their
/// order; a rule that a line names is that text's. Without changes no text is in force. A line that begins as a line of a plain script
/// is copied without its comment, and so is a line that has no other meaning.
///
/// Errors: `Line` for the first faulty line, with its number from 1 and its reason; `Memory` only if there is no memory for the script or
/// a line.
pub fn plain_script(
    alloc: Global,
    scenario: &[u8],
    declared: &DeclaredItems<'_>,
    changes: &[ForceChange],
) -> Result<Plain, ScenarioError>
    ensures said { IfOk result (λ plain. plain_in declared.now changes.now scenario.now ≡
        Ok (record { script = plain.text.items; lines = plain.lines.items })) }
    ensures refused { IfErr result (IsScenarioError (plain_in declared.now changes.now scenario.now)) }
    ensures accepts { (plain : PlainScript) → plain_in declared.now changes.now scenario.now ≡ Ok plain →
        IfErr result (λ error. error ≡ Memory) }
    ensures refuses { (fault : ScenarioFault) → plain_in declared.now changes.now scenario.now ≡ Err fault →
        IsErr result }
{
    match scenario_said(alloc, scenario, declared, changes) {
        Ok(said) => {
            let (text, lines) = said.into_parts();
            Ok(Plain { text, lines })
        }
        Err(error) => Err(error),
    }
}
