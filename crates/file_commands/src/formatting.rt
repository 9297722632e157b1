//! The command `format [--check] RULES..`.

use lc_model::LONGEST_TEXT;
use program_io::{STANDARD, STANDARD_INPUT, begin, discard, fault_of, feed_over, keep};
use rpn_compiler::CompileError;
use rule_layout::FormatError;
use std::alloc::Global;
use std::fs::Files;
use std::io::{Read, Write};
use tool_faults::{Fault, fault_at, listing_result, read_text};

/// The fault of a text in a file of this name that is not formatted.
fn format_fault<'a>(alloc: Global, name: &'a str, error: FormatError) -> Fault<'a> {
    match error {
        FormatError::Lex(error) => Fault::Rules(name, CompileError::Lex(error)),
        FormatError::Parse(error) => Fault::Rules(name, CompileError::Parse(error)),
        FormatError::TooLong => match format!(in alloc; "{name}: {error}\n") {
            Ok(line) => Fault::Lines(line),
            Err(_) => Fault::Memory,
        },
        FormatError::Memory => Fault::Memory,
    }
}

/// The text of a file with this name, formatted.
fn layout_of<'a>(alloc: Global, name: &'a str, text: &[u8]) -> Result<Vec<u8>, Fault<'a>> {
    rule_layout::format(alloc, text).map_err(|error| format_fault(alloc, name, error))
}

/// Reads a text from standard input: at most one piece more than a text may have.
fn read_input<I: Read + Drop>(alloc: Global, input: I) -> Result<Vec<u8>, Fault<'static>> {
    let mut feed = feed_over(alloc, STANDARD_INPUT, input);
    for _ in 0..u64::MAX {
        if !feed.read_on()? || feed.contents().len() > LONGEST_TEXT {
            break;
        }
    }
    Ok(Vec::from_slice(alloc, feed.contents())?)
}

/// Writes a text to a draft, which replaces the file of this name.
fn replace<'a, R: Files + AllocGlobal>(
    rt: &R,
    name: &'a str,
    text: &[u8],
) -> Result<(), Fault<'a>> {
    let mut draft = begin(rt, name).map_err(|fault| fault_at(name, fault))?;
    match draft.file.write_all(text) {
        Ok(()) => keep(rt, draft).map_err(|fault| fault_at(name, fault)),
        Err(error) => {
            discard(rt, draft);
            Err(fault_at(name, fault_of(&error)))
        }
    }
}

/// Lists a name.
fn list<W: Write>(name: &str, out: &mut W) -> Result<(), Fault<'static>> {
    listing_result(writeln!(out, "{name}"))?;
    listing_result(out.flush())
}

/// Formats the file of this name, or, if it is a check, lists its name. Returns whether it differed.
fn format_file<'a, R: Files + AllocGlobal, W: Write>(
    rt: &R,
    name: &'a str,
    is_check: bool,
    out: &mut W,
) -> Result<bool, Fault<'a>> {
    let old = read_text(rt, name)?;
    let new = layout_of(rt.alloc(), name, old.as_slice())?;
    if new.as_slice() == old.as_slice() {
        return Ok(false);
    }
    if is_check {
        list(name, out)?;
    } else {
        replace(rt, name, new.as_slice())?;
    }
    Ok(true)
}

/// Formats standard input to standard output, or, if it is a check, lists its name. Returns whether it differed.
fn format_input<I: Read + Drop, W: Write>(
    alloc: Global,
    input: I,
    is_check: bool,
    out: &mut W,
) -> Result<bool, Fault<'static>> {
    let old = read_input(alloc, input)?;
    let new = layout_of(alloc, STANDARD_INPUT, old.as_slice())?;
    let is_other = new.as_slice() != old.as_slice();
    if !is_check {
        listing_result(out.write_all(new.as_slice()))?;
        listing_result(out.flush())?;
    } else if is_other {
        list(STANDARD, out)?;
    }
    Ok(is_other)
}

/// Gives each rule text the one layout, in its file; `-` is standard input, formatted to standard output. With `is_check` nothing is
/// written but the names of the files that differ, and the error is `Differs` if there are any. The first text that is refused
/// ends the call: `Rules`, or `Lines` if its layout is too long. Other errors are of files and memory.
pub fn format<'a, R: Files + AllocGlobal, I: Read + Drop, W: Write>(
    rt: &R,
    rules: &[&'a str],
    is_check: bool,
    input: I,
    out: &mut W,
) -> Result<(), Fault<'a>> {
    let mut input = Some(input);
    let mut is_other = false;
    for name in rules {
        let differs = if *name == STANDARD {
            match input.take() {
                Some(input) => format_input(rt.alloc(), input, is_check, out)?,
                None => false,
            }
        } else {
            format_file(rt, name, is_check, out)?
        };
        is_other = is_other || differs;
    }
    if is_check && is_other {
        Err(Fault::Differs)
    } else {
        Ok(())
    }
}
