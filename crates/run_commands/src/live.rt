//! `live --schedule SCHEDULE RULES..`

ghost use Rattle.std.specs.Prelude.{◌≡◌};
ghost use Rattle.run_commands.specs.Cause.{IsAnswered, fault_of_text};

use crate::text_noting::TextNoting;
use flight_core::{Report, RunError};
use flight_profile::launch;
use lc_model::{Reading, Writing};
use program_io::{Noting, STANDARD_INPUT};
use rpn_compiler::CompileError;
use std::cell::Cell;
use std::fs::Files;
use std::io::{self, Eprint, ErrorKind, Read, Write};
use tool_faults::{Fault, input_fault, output_fault, schedule_in, texts_in};

/// The fault for the refused rule text with this number, by its file's name among these.
fn refused_text<'a>(rules: &[&'a str], text: usize, error: CompileError) -> Fault<'a>
    ensures { result ≡ fault_of_text rules.now text error }
{
    match rules.get(text) {
        Some(name) => Fault::Rules(name, error),
        None => Fault::Run(RunError::Compile { text, error }),
    }
}

/// The result of a run of the rule texts in these files. `read` and `written` are the kinds of errors of its input and output, if any;
/// `missing` is the number of the rule text that a bad record names, if that text isn't given.
fn run_result<'a>(
    rules: &[&'a str],
    answer: Result<Report, RunError>,
    read: Option<ErrorKind>,
    written: Option<ErrorKind>,
    missing: Option<usize>,
) -> Result<Report, Fault<'a>>
    ensures { IsAnswered rules.now answer read written missing result }
{
    match (answer, read, written, missing) {
        (Ok(report), _, _, _) => Ok(report),
        (Err(RunError::Compile { text, error }), _, _, _) => Err(refused_text(rules, text, error)),
        (Err(RunError::Memory), _, _, _) => Err(Fault::Memory),
        (Err(RunError::Read), Some(kind), _, _) => Err(input_fault(kind)),
        (Err(RunError::Write { .. }), _, Some(kind), _) => Err(output_fault(kind)),
        (Err(RunError::BadRecord { n }), _, _, Some(text)) => {
            Err(Fault::TextNotGiven(STANDARD_INPUT, n, text))
        }
        (Err(error), _, _, _) => Err(Fault::Run(error)),
    }
}

/// A writer that flushes after each write.
#[derive(Drop)]
struct Prompt<'a, W> {
    writer: &'a mut W,
}

impl<W: Write> Write for Prompt<'_, W> {
    fn write(&mut self, bytes: &[u8]) -> io::Result<usize> {
        self.writer.write_all(bytes)?;
        self.writer.flush()?;
        Ok(bytes.len())
    }

    fn flush(&mut self) -> io::Result<()> {
        self.writer.flush()
    }
}

/// Runs a host over a stream while it arrives: before it waits for more of the stream, the packets of all records so far are
/// written and flushed. At the end of the stream the numbers of records and bytes go to standard error.
/// Errors: `Run` if the stream is cut or a record is bad; `TextNotGiven` if it brings a text that isn't given; `Gone` if the output's
/// reader closed it; and the faults of files and texts.
pub fn run<'a, R: Files + Eprint + AllocGlobal, I: Read + Drop, W: Write>(
    rt: &R,
    schedule: &'a str,
    rules: &[&'a str],
    input: I,
    out: &mut W,
) -> Result<(), Fault<'a>> {
    let plan = schedule_in(rt, schedule)?;
    let texts = texts_in(rt, rules)?;
    let mut slices = Vec::new(rt.alloc());
    for text in &texts {
        slices.push(text.as_slice())?;
    }
    let (read, written) = (Cell::new(None), Cell::new(None));
    let missing = Cell::new(None);
    let input = Noting::new(input, &read);
    let mut reader = Reading::new(TextNoting::new(rt.alloc(), input, slices.len(), &missing)?);
    let writer = Writing::new(Noting::new(Prompt { writer: out }, &written));
    let (answer, _device) = launch(rt.alloc(), slices.as_slice(), &plan, &mut reader, writer);
    let (read, written) = (read.get(), written.get());
    let Report { records, bytes } = run_result(rules, answer, read, written, missing.get())?;
    let _said = eprintln!(rt; "records {records}, bytes {bytes}");
    Ok(())
}
