//! How a run ended, in numbers and for people.

ghost use Rattle.std.specs.Prelude.{◌≡◌, ◌≢◌, ◌<◌, IfErr, IfOk};
ghost use Rattle.flight_core.specs.Ending.{ending_of};
ghost use Rattle.schedules.specs.Error.{fault_of};
ghost use Rattle.c_interface.specs.Refusing.{unfit};
ghost use Rattle.c_interface.specs.Running.{numbers_of_ending, numbers_of_fault, unrun};
ghost use Rattle.c_interface.specs.Said.{Says, no_sentence};
ghost use Rattle.c_interface.specs.Words.{run_words};

use crate::error_sentences::of_run;
use crate::refusal::{NO_MEMORY, NOTHING, Refusal, in_numbers};
use crate::sentence::Sentence;
use flight_core::{Report, RunError};
use schedules::ScheduleError;

/// The code if the lengths of texts do not add up to their bytes.
pub const UNFIT: u32 = 252;

/// What `at` counts besides: records; lines of a schedule, where nothing was run.
const RECORDS: u32 = 3;

const NOT_RUN: u32 = 4;

/// How a run ended, in numbers.
pub(crate) fn ending_in_numbers(answer: Result<Report, RunError>) -> Refusal
    ensures numbers { result ≡ numbers_of_ending (ending_of answer) }
    ensures of { result.of < 4 }
    ensures some { IfErr answer (λ _. 0 < result.code) }
    ensures fit { result.code ≢ unfit }
{
    match answer {
        Ok(report) => of_record(0, report.records),
        Err(error) => match error {
            RunError::Compile { text, error } => in_numbers(text as u64, error),
            RunError::BadRecord { n } => of_record(141, n),
            RunError::Truncated { n } => of_record(142, n),
            RunError::Read => of_record(143, 0),
            RunError::Write { sent: _ } => of_record(144, 0),
            RunError::ReadBound => of_record(145, 0),
            RunError::Memory => Refusal {
                code: NO_MEMORY,
                of: NOTHING,
                at: 0,
                text: 0,
            },
        },
    }
}

fn of_record(code: u32, number: u64) -> Refusal
    ensures { result ≡ record { code = code; of = 3; at = number; text = 0 } }
{
    Refusal {
        code,
        of: RECORDS,
        at: number,
        text: 0,
    }
}

/// The numbers where nothing was run: `at` is the schedule's line at fault, from 1, or 0.
pub(crate) fn not_run(code: u32, at: u64) -> Refusal
    ensures { result ≡ unrun code at }
{
    Refusal {
        code,
        of: NOT_RUN,
        at,
        text: 0,
    }
}

/// The numbers of a schedule's refusal, with the line.
pub(crate) fn no_schedule(error: ScheduleError) -> Refusal
    ensures of { result.of ≡ 4 }
    ensures tells { result ≡ numbers_of_fault (fault_of error) }
    ensures some { 0 < result.code }
    ensures fit { result.code ≢ unfit }
{
    match error {
        ScheduleError::BadLine { n } => not_run(131, n as u64),
        ScheduleError::TooManySlots { n } => not_run(132, n as u64),
        ScheduleError::TooManyEntries { n } => not_run(133, n as u64),
        ScheduleError::Memory => not_run(NO_MEMORY, 0),
    }
}

/// The sentence for people of how a run ended; empty if it came to the end of its stream.
pub(crate) fn end_sentence(answer: Result<Report, RunError>) -> Sentence
    ensures silent { IfOk answer (λ _. result ≡ no_sentence) }
    ensures said { IfErr answer (λ error. Says (run_words error) result) }
{
    match answer {
        Ok(_) => Sentence::none(),
        Err(error) => of_run(error),
    }
}
