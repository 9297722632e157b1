//! The errors of a trial.

ghost use Rattle.std.specs.Prelude.{◌≡◌};
ghost use Rattle.scenario_trial.specs.Untried.{IsOwn, of_course, of_reading, of_scenario, of_script};
ghost use Rattle.scenario_trial.specs.declared.error.TrialError.TheVariants.{Memory};

use crate::expectation_lines::ReadError;
use rpn_compiler::CompileError;
use run_stepper::CourseError;
use scenarios::ScenarioError;
use std::alloc::{AllocError, AllocFailed};
use std::io::{self, ErrorKind};
use stream_script::ScriptError;
use thiserror::Error;

/// Why a script was not tried, or its result not written completely.
#[derive(Clone, Copy, Debug, PartialEq, Eq, Error)]
pub enum TrialError {
    /// A line of the scenario can't be read.
    #[error("{error}")]
    Scenario { error: ScenarioError },
    /// A line that begins with `expect` is no valid expectation.
    #[error("{error}")]
    Expectation { error: ReadError },
    /// A line of the plain script can't be read.
    #[error("{error}")]
    Script { error: ScriptError },
    /// A rule text doesn't compile. Texts count from 0.
    #[error("text {text}: {error}")]
    Rules { text: usize, error: CompileError },
    /// The expectation in this line of the scenario, counted from 1, names a rule that no text has.
    #[error("no rule text that is given has this rule")]
    NoRule { n: usize },
    /// The run stops at the record that this line of the scenario, counted from 1, says.
    #[error("the run stops here: no rule text of this number is given")]
    Stopped { n: usize },
    /// It can't be settled which text is in force at this line of the scenario, counted from 1, which names a rule.
    #[error("which rule text is in force here stays open after 1,000 runs")]
    Unsettled { n: usize },
    /// Out of memory.
    #[error("out of memory")]
    Memory,
    /// The output refused bytes.
    #[error("a write failed")]
    Write,
}

impl From<ScenarioError> for TrialError {
    ghost from_gives = { λ error e. e ≡ of_scenario error };

    fn from(error: ScenarioError) -> TrialError {
        match error {
            ScenarioError::Memory => TrialError::Memory,
            error => TrialError::Scenario { error },
        }
    }
}

impl From<ReadError> for TrialError {
    ghost from_gives = { λ error e. e ≡ of_reading error };

    fn from(error: ReadError) -> TrialError {
        match error {
            ReadError::Memory => TrialError::Memory,
            error => TrialError::Expectation { error },
        }
    }
}

impl From<ScriptError> for TrialError {
    ghost from_gives = { λ error e. e ≡ of_script error };

    fn from(error: ScriptError) -> TrialError {
        match error {
            ScriptError::Memory => TrialError::Memory,
            error => TrialError::Script { error },
        }
    }
}

impl From<CourseError> for TrialError {
    ghost from_gives = { λ error e. e ≡ of_course error };

    fn from(error: CourseError) -> TrialError {
        match error {
            CourseError::Memory => TrialError::Memory,
            CourseError::Rules { text, error } => TrialError::Rules { text, error },
        }
    }
}

impl From<AllocError> for TrialError {
    ghost from_gives = { λ _ e. e ≡ Memory };

    fn from(_error: AllocError) -> TrialError {
        TrialError::Memory
    }
}

impl<T: Drop> From<AllocFailed<T>> for TrialError {
    ghost from_gives = { λ _ e. e ≡ Memory };

    fn from(_error: AllocFailed<T>) -> TrialError {
        TrialError::Memory
    }
}

impl From<io::Error> for TrialError {
    ghost from_gives = { λ _ e. IsOwn e };

    fn from(error: io::Error) -> TrialError {
        if error.kind() == ErrorKind::OutOfMemory {
            TrialError::Memory
        } else {
            TrialError::Write
        }
    }
}
