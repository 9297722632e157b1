//! What ends the program with another status than 0, and the line that says so.

ghost use Rattle.std.specs.Prelude.{◌≡◌};
ghost use Rattle.flight_run.specs.Cause.{fault_of_arguments, fault_of_file, fault_of_run, fault_of_schedule, fault_of_text, fault_of_words};
ghost use Rattle.flight_run.specs.Status.{status_of};
ghost use Rattle.flight_run.specs.declared.fault.Fault.TheVariants.{Memory};

use flight_core::RunError;
use flight_run_args::WordsError;
use program_io::{ArgumentsError, FileError};
use rpn_compiler::CompileError;
use schedules::ScheduleError;
use std::alloc::{AllocError, AllocFailed};

/// Why the program ended.
#[derive(Clone, Copy)]
pub enum Fault<'a> {
    /// A rule text is refused.
    Text(CompileError),
    /// A schedule is refused.
    Schedule(ScheduleError),
    /// The words are no command.
    Words(WordsError),
    /// A file can't be opened, read or written, or standard output can't.
    File(&'a str),
    /// A run was stopped.
    Run(RunError),
    /// Out of memory.
    Memory,
}

impl From<AllocError> for Fault<'_> {
    ghost from_gives = { λ _ e. e ≡ Memory };

    fn from(_error: AllocError) -> Self {
        Fault::Memory
    }
}

impl<T: Drop> From<AllocFailed<T>> for Fault<'_> {
    ghost from_gives = { λ _ e. e ≡ Memory };

    fn from(_error: AllocFailed<T>) -> Self {
        Fault::Memory
    }
}

impl<'a> From<FileError<'a>> for Fault<'a> {
    ghost from_gives = { λ error fault. fault ≡ fault_of_file error };

    fn from(error: FileError<'a>) -> Self {
        match error {
            FileError::Memory => Fault::Memory,
            FileError::Unusable(name, _) => Fault::File(name),
        }
    }
}

impl From<ArgumentsError> for Fault<'_> {
    ghost from_gives = { λ error fault. fault ≡ fault_of_arguments error };

    fn from(error: ArgumentsError) -> Self {
        match error {
            ArgumentsError::Memory => Fault::Memory,
            ArgumentsError::NoText => Fault::Words(WordsError::Usage),
        }
    }
}

impl From<WordsError> for Fault<'_> {
    ghost from_gives = { λ error fault. fault ≡ fault_of_words error };

    fn from(error: WordsError) -> Self {
        match error {
            WordsError::Memory => Fault::Memory,
            error => Fault::Words(error),
        }
    }
}

impl From<CompileError> for Fault<'_> {
    ghost from_gives = { λ error fault. fault ≡ fault_of_text error };

    fn from(error: CompileError) -> Self {
        match error {
            CompileError::Memory => Fault::Memory,
            error => Fault::Text(error),
        }
    }
}

impl From<ScheduleError> for Fault<'_> {
    ghost from_gives = { λ error fault. fault ≡ fault_of_schedule error };

    fn from(error: ScheduleError) -> Self {
        match error {
            ScheduleError::Memory => Fault::Memory,
            error => Fault::Schedule(error),
        }
    }
}

impl From<RunError> for Fault<'_> {
    ghost from_gives = { λ error fault. fault ≡ fault_of_run error };

    fn from(error: RunError) -> Self {
        match error {
            RunError::Memory => Fault::Memory,
            RunError::Compile { text: _, error } => Fault::Text(error),
            error => Fault::Run(error),
        }
    }
}

impl Fault<'_> {
    /// The exit status: 1 a rule text or a schedule is refused; 2 the words are no command; 3 a file or a device; 4 the stream;
    /// 5 no memory.
    pub fn status(&self) -> u8
        ensures { result ≡ status_of self.now }
    {
        match self {
            Fault::Text(_) | Fault::Schedule(_) => 1,
            Fault::Words(_) => 2,
            Fault::File(_) | Fault::Run(RunError::Read | RunError::Write { .. }) => 3,
            Fault::Run(_) => 4,
            Fault::Memory => 5,
        }
    }
}
