//! The inputs of a run from files: a schedule and rule texts.

use crate::fault::Fault;
use crate::files::read_whole_text;
use crate::telling::refusal_fault;
use program_io::{Shell, read_texts};
use schedules::Schedule;
use script_errors::read_schedule;
use std::fs::Files;

/// Reads a schedule from the text of a file with this name. Errors: `Lines` with the message; `Memory`.
pub fn schedule_of<'a, R: AllocGlobal>(
    rt: &R,
    name: &'a str,
    text: &[u8],
) -> Result<Schedule, Fault<'a>> {
    match read_schedule(rt.alloc(), text) {
        Ok(schedule) => Ok(schedule),
        Err(refusal) => Err(refusal_fault(rt.alloc(), name, text, refusal)),
    }
}

/// Reads the schedule in a file. Errors: `File`; `Lines` with the message; `Memory`.
pub fn schedule_in<'a, R: Files + AllocGlobal>(
    rt: &R,
    name: &'a str,
) -> Result<Schedule, Fault<'a>> {
    let text = read_whole_text(rt, name)?;
    schedule_of(rt, name, text.as_slice())
}

/// Reads the rule texts in these files, each as `read_text` does.
pub fn texts_in<'a, R: Files + AllocGlobal>(
    rt: &R,
    names: &[&'a str],
) -> Result<Vec<Vec<u8>>, Fault<'a>> {
    Ok(read_texts(rt.alloc(), &mut Shell::new(rt), names)?)
}
