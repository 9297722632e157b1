//! Comments that keep warnings quiet.

ghost use Rattle.std.specs.Prelude.{◌≡◌, ◌≤◌, ◌<◌, ◌^◌, ◌==◌, ◌++◌, ◌&&◌, IfOk, OnOk, bytes_eq, length, option_map, slice_get, take};
ghost use Rattle.std.specs.List.{list_any, position_or_len, prefix_len};
ghost use Rattle.rule_lints.specs.Names.{name_of};
ghost use Rattle.rule_lints.specs.Quiet.{begins_line, behind_opening, is_gap, is_known, is_met, is_of_schedule, is_quieted, kept, known, line_above, most_names, names_below, names_in, of_line, of_name, of_place, placed, quiet_names, spare_below, spare_quiets, start_of, unindented};
ghost use Rattle.rule_lints.specs.Words.{names_by, texts_of};

use crate::declarations::warn_if;
use crate::lint::Lint;
use crate::warning::Warning;
use diagnostics::{behind, front, line_of, line_start};
use std::alloc::{AllocError, Global};

/// The most names that are read from one comment.
const MOST_NAMES: usize = 16;

/// A kind of warning, and the place at which its line begins.
#[derive(Clone, Copy)]
pub(crate) struct Placed {
    pub lint: Lint,
    pub line: usize,
}

/// Whether a byte separates names: space, tab, carriage return or comma.
fn is_gap(byte: u8) -> bool
    ensures { result ≡ is_gap byte }
{
    byte == b' ' || byte == b'\t' || byte == b'\r' || byte == b','
}

/// The number of separators in front.
fn gaps(line: &[u8]) -> usize
    ensures count { result ≡ prefix_len is_gap line.now }
    ensures inside { result ≤ length line.now }
{
    line.iter().take_while(|byte| is_gap(**byte)).count()
}

/// The number of bytes in front that aren't separators.
fn name_length(line: &[u8]) -> usize
    ensures place { result ≡ position_or_len is_gap line.now }
    ensures inside { result ≤ length line.now }
{
    line.iter().take_while(|byte| !is_gap(**byte)).count()
}

/// The first name, and what follows it.
fn first_name(bytes: &[u8]) -> Option<(&[u8], &[u8])>
    ensures { names_in bytes.now ≡ names_by result }
{
    let (_, from) = bytes.split_at(gaps(bytes));
    if from.is_empty() {
        return None;
    }
    Some(from.split_at(name_length(from)))
}

/// The first names among some bytes, at most sixteen.
#[tactic(auto, using(crate::proofs::Listed::are_all))]
fn first_names(alloc: Global, bytes: &[u8]) -> Result<Vec<&[u8]>, AllocError>
    ensures { IfOk result (λ names. texts_of names.items ≡ take most_names (names_in bytes.now)) }
{
    let mut names = Vec::new(alloc);
    let mut left = bytes;
    for _number in 0..MOST_NAMES {
        let Some((name, rest)) = first_name(left) else {
            return Ok(names);
        };
        names.push(name)?;
        left = rest;
    }
    Ok(names)
}

/// The line without the separators in front.
fn without_indent(line: &[u8]) -> &[u8]
    ensures { result.now ≡ unindented line.now }
{
    line.split_at(gaps(line)).1
}

/// The part of a line after `# quiet:`, if the line is such a comment.
fn behind_opening(line: &[u8]) -> Option<&[u8]>
    ensures { option_map (λ rest. rest.now) result ≡ behind_opening line.now }
{
    let rest = without_indent(line);
    let opening: &[u8] = b"# quiet:";
    if front(rest, 8) == opening {
        Some(behind(rest, 8))
    } else {
        None
    }
}

/// The names of warnings that a line keeps quiet in the next line.
pub(crate) fn quiet_names(alloc: Global, line: &[u8]) -> Result<Vec<&[u8]>, AllocError>
    ensures { IfOk result (λ names. texts_of names.items ≡ quiet_names line.now) }
{
    match behind_opening(line) {
        Some(names) => first_names(alloc, names),
        None => Ok(Vec::new(alloc)),
    }
}

/// The place at which the line of a place begins. A place after the text counts as its end.
fn start_of(text: &[u8], at: usize) -> usize
    ensures value { result ≡ start_of text.now at }
    ensures within { result ≤ length text.now }
{
    line_start(text, at.min(text.len()))
}

/// The line above that of a place.
fn line_above(text: &[u8], at: usize) -> &[u8]
    ensures { result.now ≡ line_above text.now at }
{
    let start = start_of(text, at);
    if start == 0 {
        return &[];
    }
    line_of(text, start - 1)
}

/// Whether a name is among some.
fn is_among(name: &[u8], names: &[&[u8]]) -> bool
    ensures { result ≡ list_any (bytes_eq name.now) (texts_of names.now) }
{
    for other in names {
        if name == *other {
            return true;
        }
    }
    false
}

/// Whether the line above keeps the warning quiet.
fn is_quieted(alloc: Global, text: &[u8], warning: Warning) -> Result<bool, AllocError>
    ensures { IfOk result (λ quieted. quieted ≡ is_quieted text.now warning) }
{
    let names = quiet_names(alloc, line_above(text, warning.at))?;
    Ok(is_among(warning.lint.name().as_bytes(), &names))
}

/// The warnings that no comment keeps quiet.
pub(crate) fn without_quiet(
    alloc: Global,
    text: &[u8],
    found: &[Warning],
) -> Result<Vec<Warning>, AllocError>
    ensures { IfOk result (λ told. told.items ≡ kept text.now found.now) }
{
    let mut told = Vec::new(alloc);
    for warning in found {
        if !is_quieted(alloc, text, *warning)? {
            told.push(*warning)?;
        }
    }
    Ok(told)
}

/// The warnings with the places of their lines.
fn place_all(alloc: Global, text: &[u8], found: &[Warning]) -> Result<Vec<Placed>, AllocError>
    ensures { IfOk result (λ all. all.items ≡ placed text.now found.now) }
{
    let mut all = Vec::new(alloc);
    for warning in found {
        all.push(Placed {
            lint: warning.lint,
            line: start_of(text, warning.at),
        })?;
    }
    Ok(all)
}

/// Whether the warning has this name, and is in the line that begins here.
fn meets(placed: Placed, line: usize, name: &[u8]) -> bool
    ensures { result ≡ (bytes_eq (name_of placed.lint) name.now && placed.line == line) }
{
    placed.lint.name().as_bytes() == name && placed.line == line
}

/// Whether the line that begins here has a warning of this name.
fn is_met(all: &[Placed], line: usize, name: &[u8]) -> bool
    ensures { result ≡ is_met all.now line name.now }
{
    for placed in all {
        if meets(*placed, line, name) {
            return true;
        }
    }
    false
}

/// The name with this number.
fn name_at<'n>(names: &[&'n [u8]], number: usize) -> Option<&'n [u8]>
    ensures { option_map (λ name. name.now) result ≡ slice_get (texts_of names.now) number }
{
    match names.get(number) {
        Some(name) => Some(*name),
        None => None,
    }
}

/// Adds the warning of the name with this number of a comment, if it keeps nothing quiet in the line that begins at `next`.
fn add_name(
    all: &[Placed],
    at: usize,
    next: usize,
    names: &[&[u8]],
    number: usize,
    found: &mut Vec<Warning>,
) -> Result<(), AllocError>
    ensures { OnOk result (found.new.items ≡ found.old.items ++
        of_name all.now at next number (slice_get (texts_of names.now) number)) }
{
    match name_at(names, number) {
        Some(name) => {
            let is_met = is_met(all, next, name);
            warn_if(found, !is_met, Lint::UnusedQuiet, at, number)
        }
        None => Ok(()),
    }
}

/// Adds the warnings of all names of a comment that keep nothing quiet.
fn add_names(
    all: &[Placed],
    at: usize,
    next: usize,
    names: &[&[u8]],
    found: &mut Vec<Warning>,
) -> Result<(), AllocError>
    ensures { OnOk result (found.new.items ≡ found.old.items ++
        names_below all.now at next (texts_of names.now) (length names.now)) }
{
    for number in 0..names.len() {
        add_name(all, at, next, names, number, found)?;
    }
    Ok(())
}

/// Adds the warnings of the line that begins at this place.
fn add_line(
    alloc: Global,
    all: &[Placed],
    at: usize,
    line: &[u8],
    found: &mut Vec<Warning>,
) -> Result<(), AllocError>
    requires { at < 2 ^ 63 }
    ensures { OnOk result (found.new.items ≡ found.old.items ++ of_line all.now at line.now) }
{
    let names = quiet_names(alloc, line)?;
    add_names(all, at, at + line.len() + 1, &names, found)
}

/// Whether a line begins at this place.
fn begins_line(text: &[u8], at: usize) -> bool
    requires { at < length text.now }
    ensures { result ≡ begins_line text.now at }
{
    at == 0 || text[at - 1] == b'\n'
}

/// Adds the warnings of the line that begins at this place, if one does.
fn add_place(
    alloc: Global,
    text: &[u8],
    all: &[Placed],
    at: usize,
    found: &mut Vec<Warning>,
) -> Result<(), AllocError>
    requires { at < length text.now }
    ensures { OnOk result (found.new.items ≡ found.old.items ++ of_place text.now all.now at) }
{
    if !begins_line(text, at) {
        return Ok(());
    }
    add_line(alloc, all, at, line_of(text, at), found)
}

/// Adds the warnings of all lines.
fn add_places(
    alloc: Global,
    text: &[u8],
    all: &[Placed],
    found: &mut Vec<Warning>,
) -> Result<(), AllocError>
    ensures { OnOk result (found.new.items ≡
        found.old.items ++ spare_below text.now all.now (length text.now)) }
{
    for at in 0..text.len() {
        add_place(alloc, text, all, at, found)?;
    }
    Ok(())
}

/// Whether only with a schedule a warning of this name is given.
fn is_of_schedule(name: Option<&[u8]>) -> bool
    ensures { result ≡ is_of_schedule (option_map (λ name. name.now) name.entry) }
{
    match name {
        Some(name) => Lint::NeverSampled.name().as_bytes() == name,
        None => false,
    }
}

/// Whether it is known that the name of a comment, which this warning is about, keeps nothing quiet.
fn is_known(
    alloc: Global,
    has_plan: bool,
    text: &[u8],
    warning: Warning,
) -> Result<bool, AllocError>
    ensures { IfOk result (λ known. known ≡ is_known has_plan text.now warning) }
{
    let names = quiet_names(alloc, line_of(text, warning.at.min(text.len())))?;
    Ok(has_plan || !is_of_schedule(name_at(&names, warning.about)))
}

/// The warnings of comments that are known to keep nothing quiet.
pub(crate) fn keep_known(
    alloc: Global,
    has_plan: bool,
    text: &[u8],
    spare: &[Warning],
) -> Result<Vec<Warning>, AllocError>
    ensures { IfOk result (λ told. told.items ≡ known has_plan text.now spare.now) }
{
    let mut told = Vec::new(alloc);
    for warning in spare {
        if is_known(alloc, has_plan, text, *warning)? {
            told.push(*warning)?;
        }
    }
    Ok(told)
}

/// Adds the warnings of comments that keep none of `all` quiet.
pub(crate) fn spare_quiets(
    alloc: Global,
    text: &[u8],
    all: &[Warning],
    found: &mut Vec<Warning>,
) -> Result<(), AllocError>
    ensures { OnOk result (found.new.items ≡
        found.old.items ++ spare_quiets text.now all.now) }
{
    let lines = place_all(alloc, text, all)?;
    add_places(alloc, text, lines.as_slice(), found)
}
