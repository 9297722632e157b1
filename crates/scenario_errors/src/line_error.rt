//! Why a scenario is refused: its fault on the first faulty line.

ghost use Rattle.std.specs.Prelude.{◌≡◌};
ghost use Rattle.scenario_errors.specs.Line.{line_in};
ghost use Rattle.scenario_errors.specs.declared.line_error.LineError.TheVariants as line;
ghost use Rattle.scenarios.specs.declared.error.ScenarioError.TheVariants.{Memory};

use diagnostics::Message;
use rpn_compiler::RuleText;
use scenario_trial::{ReadError, read_expectations, script_error_at, silence};
use scenarios::{DeclaredItems, Reason, ScenarioError, declared_in, plain_script};
use script_errors::{DeclaredNames, expectation_message, scenario_message, script_message};
use std::alloc::{AllocError, Global};
use stream_script::{ScriptError, read_script};

/// Why a scenario is refused, at one of its lines.
#[derive(Clone, Copy)]
pub enum LineError {
    /// A line in a rule text's words is invalid.
    Words(ScenarioError),
    /// An expectation is invalid.
    Expectation(ReadError),
    /// A line of the plain script is invalid.
    Script(ScriptError),
}

impl From<AllocError> for LineError {
    ghost from_gives = { λ _ e. e ≡ line.Words Memory };

    fn from(_error: AllocError) -> LineError {
        LineError::Words(ScenarioError::Memory)
    }
}

impl LineError {
    /// The number of the line, from 1; none if memory ran out.
    pub fn line(self) -> Option<usize>
        ensures { result ≡ line_in self }
    {
        match self {
            LineError::Words(ScenarioError::Line { n, reason: _ }) => Some(n),
            LineError::Expectation(ReadError::Line { n, fault: _ }) => Some(n),
            LineError::Script(ScriptError::Line { n, reason: _ }) => Some(n),
            _ => None,
        }
    }

    /// Whether the fault is a repetition without an end, which cutting off the lines after it can cause.
    fn is_unended(self) -> bool {
        matches!(
            self,
            LineError::Words(ScenarioError::Line {
                n: _,
                reason: Reason::Unended
            })
        )
    }

    /// Whether the fault is on a line before the one with this number, and isn't caused by cutting off later lines.
    fn is_before(self, number: usize) -> bool {
        !self.is_unended() && self.line().is_some_and(|line| line < number)
    }
}

/// The stream of a scenario, with these declared names. Expectations are checked, and add nothing to the stream. Error: a fault of the
/// scenario, not always on its first faulty line.
pub fn read_scenario(
    alloc: Global,
    scenario: &[u8],
    declared: &DeclaredItems<'_>,
) -> Result<Vec<u8>, LineError> {
    let plain = plain_script(alloc, scenario, declared, &[]).map_err(LineError::Words)?;
    let script = plain.text.as_slice();
    if let Err(error) = read_expectations(alloc, script) {
        return Err(LineError::Expectation(error.at(&plain)));
    }
    let quiet = silence(alloc, script)?;
    read_script(alloc, quiet.as_slice()).map_err(|error| LineError::Script(script_error_at(
        &plain, error,
    )))
}

/// The lines of a scenario before the one with this number.
fn lines_before(scenario: &[u8], number: usize) -> &[u8] {
    let mut line = 1usize;
    for (at, byte) in scenario.iter().enumerate() {
        if line >= number {
            return scenario.split_at(at).0;
        }
        if *byte == b'\n' {
            line = line.saturating_add(1);
        }
    }
    scenario
}

/// The fault on the first faulty line of a scenario with these declared names, which has this fault.
fn first_error(
    alloc: Global,
    scenario: &[u8],
    declared: &DeclaredItems<'_>,
    error: LineError,
) -> LineError {
    let mut first = error;
    for _ in 0..scenario.len() {
        let Some(number) = first.line() else {
            break;
        };
        match read_scenario(alloc, lines_before(scenario, number), declared) {
            Err(earlier) if earlier.is_before(number) => first = earlier,
            _ => break,
        }
    }
    first
}

/// Whether a line would end a repetition if no words stood after its `}`.
fn is_spoiled_end(line: &[u8]) -> bool {
    let mut words = line
        .split(|byte| byte.is_ascii_whitespace())
        .filter(|word| !word.is_empty());
    let is_end = words.next().is_some_and(|word| matches!(word, b"}"));
    is_end && words.next().is_some_and(|word| !word.starts_with(b"#"))
}

/// The number of the line that keeps the repetition, which begins on the line with this number, from its end: a later one that begins with
/// `}` and has more words, or else its own.
fn unended_line(scenario: &[u8], number: usize) -> usize {
    let mut line = 1usize;
    for bytes in scenario.split(|byte| *byte == b'\n') {
        if line > number && is_spoiled_end(bytes) {
            return line;
        }
        line = line.saturating_add(1);
    }
    number
}

/// The message about a scenario that is refused with this error. The names are those that rule texts declare.
fn message_of(
    alloc: Global,
    scenario: &[u8],
    names: &DeclaredNames<'_>,
    error: LineError,
) -> Result<Message, AllocError> {
    match error {
        LineError::Words(ScenarioError::Line { n, reason }) => {
            let line = if error.is_unended() {
                unended_line(scenario, n)
            } else {
                n
            };
            scenario_message(alloc, scenario, line, reason, names)
        }
        LineError::Expectation(ReadError::Line { n, fault: _ }) => {
            expectation_message(alloc, scenario, n)
        }
        LineError::Script(ScriptError::Line { n, reason }) => {
            script_message(alloc, scenario, n, reason, names.packets.as_slice())
        }
        _ => Err(AllocError),
    }
}

/// The message about the first faulty line of a scenario, refused with this error. It may use the names of these rule texts.
pub fn first_message(
    alloc: Global,
    scenario: &[u8],
    texts: &[RuleText<'_>],
    error: LineError,
) -> Result<Message, AllocError> {
    let declared = declared_in(alloc, texts)?;
    let names = DeclaredNames::of_texts(alloc, texts)?;
    let first = first_error(alloc, scenario, &declared, error);
    message_of(alloc, scenario, &names, first)
}

/// The message about the first faulty line of a scenario that may use the names of these rule texts; `None` if it has none.
pub fn scenario_refusal(
    alloc: Global,
    scenario: &[u8],
    texts: &[RuleText<'_>],
) -> Result<Option<Message>, AllocError> {
    let declared = declared_in(alloc, texts)?;
    match read_scenario(alloc, scenario, &declared) {
        Ok(_) => Ok(None),
        Err(error) => Ok(Some(first_message(alloc, scenario, texts, error)?)),
    }
}
