//! Writes the values of their fields with which the rules of a text fail and pass.

use analysis_listing::list_outcomes;
use diagnostics::{note_line, printable};
use rpn_compiler::RuleText;
use std::alloc::Global;
use std::io::Write;
use tool_faults::{Fault, judgement_fault, listing_result};

/// Writes a line as a JSON object.
fn write_note<'a, W: Write>(
    alloc: Global,
    name: &'a str,
    line: &[u8],
    out: &mut W,
) -> Result<(), Fault<'a>> {
    let note = printable(alloc, line)?;
    let object = note_line(alloc, name, false, note.as_str())?;
    listing_result(out.write_all(object.as_bytes()))
}

/// Writes a line after the name of its file.
fn write_named<'a, W: Write>(name: &'a str, line: &[u8], out: &mut W) -> Result<(), Fault<'a>> {
    listing_result(write!(out, "{name}: "))?;
    listing_result(out.write_all(line))?;
    listing_result(out.write_all(b"\n"))
}

/// Writes a line, after the name of its file or as a JSON object.
pub(crate) fn write_line<'a, W: Write>(
    alloc: Global,
    name: &'a str,
    line: &[u8],
    is_json: bool,
    out: &mut W,
) -> Result<(), Fault<'a>> {
    if is_json {
        write_note(alloc, name, line, out)
    } else {
        write_named(name, line, out)
    }
}

/// Writes lines, each after the name of its file or as a JSON object.
fn write_lines<'a, W: Write>(
    alloc: Global,
    name: &'a str,
    lines: &[u8],
    is_json: bool,
    out: &mut W,
) -> Result<(), Fault<'a>> {
    for line in lines.split(|byte| *byte == b'\n') {
        if !line.is_empty() {
            write_line(alloc, name, line, is_json, out)?;
        }
    }
    Ok(())
}

/// Writes the values of their fields with which the rules of a text fail and pass. Errors are of output and memory.
pub fn write_outcomes<'a, W: Write>(
    alloc: Global,
    name: &'a str,
    text: &RuleText<'_>,
    is_json: bool,
    out: &mut W,
) -> Result<(), Fault<'a>> {
    let mut lines = Vec::new(alloc);
    list_outcomes(alloc, text, &mut lines).map_err(|error| judgement_fault(name, error))?;
    write_lines(alloc, name, lines.as_slice(), is_json, out)
}
