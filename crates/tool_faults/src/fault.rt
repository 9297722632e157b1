//! The faults that end a command, each with its exit status and its text for standard error.

ghost use Rattle.std.specs.Prelude.{◌≡◌};
ghost use Rattle.tool_faults.specs.Cause.{fault_of_arguments, fault_of_file};
ghost use Rattle.tool_faults.specs.Status.{status_of, stopped};
ghost use Rattle.tool_faults.specs.declared.fault.Fault.TheVariants.{Memory};

use clap::Error;
use flight_core::RunError;
use program_io::{ArgumentsError, FileError, Why};
use rpn_compiler::CompileError;
use std::alloc::{AllocError, AllocFailed};
use std::fmt::{self, Display, Formatter, Write};
use table_listing::FaultLine;

/// Why a command ended early or with another status than 0.
#[derive(Debug, Drop)]
pub enum Fault<'a> {
    /// The words are not a command, with `clap`'s error.
    Words(Error),
    /// An option that the command has under another name or at another place; and what to write instead.
    Replaced(&'a str, &'a str),
    /// A word of the command line is not UTF-8.
    NoText,
    /// An option; its word, or the option that it does not go with; and what to write instead.
    Value(&'a str, &'a str, &'a str),
    /// A table file has a fault. The listing reports it.
    Table,
    /// A stream, packets or an archive end early. The output reports it.
    Early,
    /// The stream in a file with this name ends early, with the reason and the place.
    Stream(&'a str, RunError),
    /// A stream brings a rule text that isn't given: the stream's file name, the record's number from 1, and the text's number.
    TextMissing(&'a str, u64, usize),
    /// The same, for a command whose last words are the rule texts.
    TextNotGiven(&'a str, u64, usize),
    /// Packets end early: their file's name, the number of whole packets, and the number of bytes after them.
    Packets(&'a str, u64, usize),
    /// A schedule or a script is refused, with the printed message.
    Lines(String),
    /// The rule text in a file with this name is refused.
    Rules(&'a str, CompileError),
    /// The runs of two rule texts differ. The listing reports it.
    Differs,
    /// Expectations are not met. The listing reports them.
    Unmet,
    /// A rule text or a schedule is refused. The output already reports it.
    Refused,
    /// The rules or tables in a file with this name can't be judged.
    Judgement(&'a str, analysis_listing::ListingError),
    /// There are warnings, and the command is strict. They are already reported.
    Warned,
    /// A run or a trial took no sample, so that nothing was looked at. A warning already reports it.
    NotSampled,
    /// Trials failed, and the worst one has this status. Their faults are already reported.
    Reported(u8),
    /// The client of a language server left without a request to shut down.
    NoShutdown,
    /// A run was stopped.
    Run(RunError),
    /// A file, standard input or standard output can't be opened, read or written, with its name and the reason.
    File(&'a str, Why),
    /// The reader of standard output closed it. The command ends silently, with status 0.
    Gone,
    /// Out of memory.
    Memory,
}

impl From<AllocError> for Fault<'_> {
    ghost from_gives = { λ _ e. e ≡ Memory };

    fn from(_error: AllocError) -> Self {
        Fault::Memory
    }
}

impl<T: Drop> From<AllocFailed<T>> for Fault<'_> {
    ghost from_gives = { λ _ e. e ≡ Memory };

    fn from(_error: AllocFailed<T>) -> Self {
        Fault::Memory
    }
}

impl<'a> From<FileError<'a>> for Fault<'a> {
    ghost from_gives = { λ error fault. fault ≡ fault_of_file error };

    fn from(error: FileError<'a>) -> Self {
        match error {
            FileError::Memory => Fault::Memory,
            FileError::Unusable(name, why) => Fault::File(name, why),
        }
    }
}

impl From<ArgumentsError> for Fault<'_> {
    ghost from_gives = { λ error fault. fault ≡ fault_of_arguments error };

    fn from(error: ArgumentsError) -> Self {
        match error {
            ArgumentsError::Memory => Fault::Memory,
            ArgumentsError::NoText => Fault::NoText,
        }
    }
}

/// The exit status of a stopped run: 1 a rule text is refused; 3 a device failed; 4 the stream is cut, has a bad record, or is over the
/// bound of reads; 5 out of memory.
fn status_of_run(error: RunError) -> u8
    ensures { result ≡ stopped error }
{
    match error {
        RunError::Compile { .. } => 1,
        RunError::Read | RunError::Write { .. } => 3,
        RunError::BadRecord { .. } | RunError::Truncated { .. } | RunError::ReadBound => 4,
        RunError::Memory => 5,
    }
}

impl Fault<'_> {
    /// The exit status: 0 the reader of the output closed it; 1 a table file has a fault, a script, a schedule or a rule text is
    /// refused, rules or tables can't be judged, a strict command has warnings, runs differ, expectations aren't met, or a client
    /// left without a request to shut down; 2 the words are not a command; 3 a file or a device; 4 a stream or packets end early, or a stream brings a text that isn't given;
    /// 5 out of memory; 6 nothing was sampled. That of several trials is the worst one's.
    pub fn status(&self) -> u8
        ensures { result ≡ status_of self.now }
    {
        match self {
            Fault::Gone => 0,
            Fault::Table | Fault::Lines(_) => 1,
            Fault::Refused | Fault::Judgement(..) | Fault::Warned => 1,
            Fault::NoShutdown => 1,
            Fault::Rules(..) | Fault::Differs | Fault::Unmet => 1,
            Fault::Words(_) | Fault::NoText => 2,
            Fault::Value(..) | Fault::Replaced(..) => 2,
            Fault::File(..) => 3,
            Fault::Early | Fault::Packets(..) => 4,
            Fault::TextMissing(..) => 4,
            Fault::TextNotGiven(..) => 4,
            Fault::Run(error) | Fault::Stream(_, error) => status_of_run(*error),
            Fault::Reported(status) => *status,
            Fault::Memory => 5,
            Fault::NotSampled => 6,
        }
    }
}

impl Display for Fault<'_> {
    fn fmt<W: Write>(&self, f: &mut Formatter<W>) -> fmt::Result {
        match self {
            Fault::Words(error) => write!(f, "{error}"),
            Fault::NoText => writeln!(f, "an argument is not valid UTF-8"),
            Fault::Replaced(option, advice) => writeln!(f, "{option}: {advice}"),
            Fault::Value(option, word, advice) => writeln!(f, "{option} {word}: {advice}"),
            Fault::Table | Fault::Early | Fault::Gone | Fault::Refused | Fault::Warned => Ok(()),
            Fault::Differs | Fault::Unmet | Fault::NoShutdown | Fault::Reported(_) => Ok(()),
            Fault::NotSampled => Ok(()),
            Fault::Lines(page) => write!(f, "{page}"),
            Fault::Rules(name, error) => writeln!(f, "{name}: {error}"),
            Fault::Judgement(name, analysis_listing::ListingError::Table(fault)) => {
                writeln!(f, "{name}: {}", FaultLine(*fault))
            }
            Fault::Judgement(name, error) => writeln!(f, "{name}: {error}"),
            Fault::Run(error) => writeln!(f, "{error}"),
            Fault::Stream(name, RunError::BadRecord { n: 1 }) => writeln!(
                f,
                "{name}: record 1 is none; of raw space packets `flight_tools import` makes a stream"
            ),
            Fault::Stream(name, error) => writeln!(f, "{name}: {error}"),
            Fault::TextMissing(name, n, text) => writeln!(
                f,
                "{name}: record {n} names rule text {text}, which is not given: add it with --with"
            ),
            Fault::TextNotGiven(name, n, text) => writeln!(
                f,
                "{name}: record {n} names rule text {text}, which is not given"
            ),
            Fault::Packets(name, number, left) => writeln!(
                f,
                "{name}: ends early: bytes after packet {number} that are not a whole packet: {left}"
            ),
            Fault::File(name, why) => writeln!(f, "cannot use {name}: {why}"),
            Fault::Memory => writeln!(f, "no memory"),
        }
    }
}
