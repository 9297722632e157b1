//! Writes what an error or a warning means.

use crate::explanations::{Explanation, PARTS, part};
use diagnostics::nearest;
use std::alloc::{AllocError, Global};
use std::io::Write;
use tool_faults::{Fault, listing_result};

/// What to write in place of a number or a name that nothing has and that is near no name.
const ADVICE: &str = "write a number or a name that `flight_tools check --explain` lists";

/// Writes one line for each of these.
fn write_heads<'a, W: Write>(rows: &[Explanation], out: &mut W) -> Result<(), Fault<'a>> {
    for row in rows {
        let head = row.head;
        listing_result(writeln!(out, "{head}"))?;
    }
    Ok(())
}

/// Writes one line for each error and each warning.
fn write_list<'a, W: Write>(out: &mut W) -> Result<(), Fault<'a>> {
    for number in 0..PARTS {
        write_heads(part(number), out)?;
    }
    listing_result(out.flush())
}

/// Writes a row.
fn write_row<'a, W: Write>(row: &Explanation, out: &mut W) -> Result<(), Fault<'a>> {
    let (head, rest) = (row.head, row.rest);
    listing_result(write!(out, "{head}\n{rest}"))?;
    listing_result(out.flush())
}

/// The one of these with this number or name.
fn found_in(rows: &'static [Explanation], name: &[u8]) -> Option<&'static Explanation> {
    for row in rows {
        if row.name.as_bytes() == name {
            return Some(row);
        }
    }
    None
}

/// The error of this number, or the error or the warning of this name.
fn explanation_of(name: &[u8]) -> Option<&'static Explanation> {
    for number in 0..PARTS {
        let row = found_in(part(number), name);
        if row.is_some() {
            return row;
        }
    }
    None
}

/// Appends those of these names that a misspelt one may stand for.
fn push_names(
    names: &mut Vec<&'static [u8]>,
    rows: &'static [Explanation],
) -> Result<(), AllocError> {
    for row in rows {
        if !row.advice.is_empty() {
            names.push(row.name.as_bytes())?;
        }
    }
    Ok(())
}

/// What to write in place of a name that no error and no warning has.
fn advice(alloc: Global, name: &str) -> Result<&'static str, AllocError> {
    let mut names = Vec::new(alloc);
    for number in 0..PARTS {
        push_names(&mut names, part(number))?;
    }
    match nearest(alloc, name.as_bytes(), names.as_slice())? {
        Some(near) => match explanation_of(near) {
            Some(row) => Ok(row.advice),
            None => Ok(ADVICE),
        },
        None => Ok(ADVICE),
    }
}

/// Writes what the error of this number or the warning of this name means, with its examples; for an empty name a line for each error and
/// each warning. Errors: `Value` for another name or number; others are of output and memory.
pub fn explain<'a, W: Write>(alloc: Global, name: &'a str, out: &mut W) -> Result<(), Fault<'a>> {
    if name.is_empty() {
        return write_list(out);
    }
    match explanation_of(name.as_bytes()) {
        Some(row) => write_row(row, out),
        None => Err(Fault::Value("--explain", name, advice(alloc, name)?)),
    }
}
