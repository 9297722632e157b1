//! What is said of a fault, in a line.

ghost use Rattle.std.specs.Prelude.{Some};
ghost use Rattle.rpn_compiler.specs.Fault.{refusal_of};
ghost use Rattle.flight_run.specs.Lines.{line_of, run_line, schedule_line, text_line, words_line};

use crate::fault::Fault;
use crate::place::{RefusalPlace, place_of};
use flight_core::RunError;
use flight_run_args::WordsError;
use rpn_compiler::CompileError;
use schedules::ScheduleError;
use std::fmt::{self, Display, Formatter, Write};

/// A rule text that is refused: the number of the refusal, and its place or its rule.
#[derive(Clone, Copy)]
struct RefusedText(CompileError);

impl Display for RefusedText {
    ghost output = { λ refused. Some (text_line (refusal_of refused.0)) };

    fn fmt<W: Write>(&self, f: &mut Formatter<W>) -> fmt::Result {
        match self.0.code() {
            Some(code) => match place_of(self.0) {
                RefusalPlace::Whole => write!(f, "refused: {code}"),
                RefusalPlace::At(at) => write!(f, "refused: {code} at {at}"),
                RefusalPlace::Rule(rule) => write!(f, "refused: {code} rule {rule}"),
            },
            None => write!(f, "no memory"),
        }
    }
}

/// A schedule that is refused: the number of the refusal, and its line.
#[derive(Clone, Copy)]
struct RefusedSchedule(ScheduleError);

impl Display for RefusedSchedule {
    ghost output = { λ refused. Some (schedule_line refused.0) };

    fn fmt<W: Write>(&self, f: &mut Formatter<W>) -> fmt::Result {
        match self.0 {
            ScheduleError::BadLine { n } => write!(f, "schedule: 131 line {n}"),
            ScheduleError::TooManySlots { n } => write!(f, "schedule: 132 line {n}"),
            ScheduleError::TooManyEntries { n } => write!(f, "schedule: 133 line {n}"),
            ScheduleError::Memory => write!(f, "no memory"),
        }
    }
}

/// A run that was stopped: its number, and the record where there is one.
#[derive(Clone, Copy)]
struct Stopped(RunError);

impl Display for Stopped {
    ghost output = { λ stopped. Some (run_line stopped.0) };

    fn fmt<W: Write>(&self, f: &mut Formatter<W>) -> fmt::Result {
        match self.0 {
            RunError::Compile { text: _, error } => write!(f, "{}", RefusedText(error)),
            RunError::BadRecord { n } => write!(f, "stopped: 141 record {n}"),
            RunError::Truncated { n } => write!(f, "stopped: 142 record {n}"),
            RunError::Read => write!(f, "stopped: 143"),
            RunError::Write { sent: _ } => write!(f, "stopped: 144"),
            RunError::ReadBound => write!(f, "stopped: 145"),
            RunError::Memory => write!(f, "no memory"),
        }
    }
}

/// Words that are no command.
#[derive(Clone, Copy)]
struct NoCommand(WordsError);

impl Display for NoCommand {
    ghost output = { λ words. Some (words_line words.0) };

    fn fmt<W: Write>(&self, f: &mut Formatter<W>) -> fmt::Result {
        match self.0 {
            WordsError::Usage => write!(
                f,
                "usage: flight_run [compile RULES WDT ADT or run --schedule S --stream IN --out OUT RULES..]"
            ),
            WordsError::Memory => write!(f, "no memory"),
        }
    }
}

impl Display for Fault<'_> {
    ghost output = { λ fault. Some (line_of fault) };

    fn fmt<W: Write>(&self, f: &mut Formatter<W>) -> fmt::Result {
        match *self {
            Fault::Text(error) => write!(f, "{}", RefusedText(error)),
            Fault::Schedule(error) => write!(f, "{}", RefusedSchedule(error)),
            Fault::Words(error) => write!(f, "{}", NoCommand(error)),
            Fault::File(name) => write!(f, "cannot use {name}"),
            Fault::Run(error) => write!(f, "{}", Stopped(error)),
            Fault::Memory => write!(f, "no memory"),
        }
    }
}
