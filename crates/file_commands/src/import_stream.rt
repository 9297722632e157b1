//! The stream that an import writes.

use lc_model::Moment;
use lc_model::stream::{HEADER, moment_of};
use program_io::fault_of;
use std::alloc::Global;
use std::io::Write;
use stream_script::read_script;
use tool_faults::{Fault, fault_at, listing_result, output_fault};

/// The records that bring both halves of a rule text as the Limit Checker's tables, and start it and the scheduler.
fn start_of<'a>(alloc: Global, moment: Moment, text: u16) -> Result<Vec<u8>, Fault<'a>> {
    let Moment {
        seconds,
        subseconds,
    } = moment;
    let mut script = Vec::new(alloc);
    listing_result(writeln!(script, "at {seconds} {subseconds}"))?;
    listing_result(writeln!(script, "wdt {text} /cf/lc_def_wdt.tbl"))?;
    listing_result(writeln!(script, "adt {text} /cf/lc_def_adt.tbl"))?;
    listing_result(script.write_all(b"start LC\nstart SCH\n"))?;
    read_script(alloc, script.as_slice()).map_err(|_| Fault::Memory)
}

/// The stream that is written.
#[derive(Drop)]
pub struct Stream<'a, 's, S> {
    /// Its file's name; `None` for standard output.
    pub name: Option<&'a str>,
    /// Where it is written.
    pub file: &'s mut S,
    /// The rule text with which the stream begins, if an option gives one and nothing is written yet.
    pub start: Option<u16>,
}

impl<'a, S: Write> Stream<'a, '_, S> {
    /// Writes bytes to the stream.
    fn push(&mut self, bytes: &[u8]) -> Result<(), Fault<'a>> {
        match (self.file.write_all(bytes), self.name) {
            (Ok(()), _) => Ok(()),
            (Err(error), Some(name)) => Err(fault_at(name, fault_of(&error))),
            (Err(error), None) => Err(output_fault(error.kind())),
        }
    }

    /// Writes records, with the start before the first of them.
    pub fn push_records(&mut self, alloc: Global, records: &[u8]) -> Result<(), Fault<'a>> {
        if records.len() < HEADER {
            return Ok(());
        }
        if let Some(text) = self.start {
            self.start = None;
            let start = start_of(alloc, moment_of(records), text)?;
            self.push(start.as_slice())?;
        }
        self.push(records)
    }
}
