//! The commands that list a file as text.

ghost use Rattle.std.specs.Prelude.{◌≡◌};
ghost use Rattle.file_commands.specs.Listed.{holds_watchpoints};

use crate::record_line::record_lines;
use analysis_listing::{LineChoice, list_actionpoints};
use clap::Error;
use lc_model::Kind;
use packet_listing::{TextRules, list_named};
use program_io::{Feed, Noting, feed_of};
use scenarios::DeclaredItems;
use std::alloc::Global;
use std::cell::Cell;
use std::fs::Files;
use std::io::{Read, Write};
use stream_script::{Front, front_of, write_script};
use table_file::{Layout, open};
use table_listing::{ListingError, list_table};
use tool_faults::{
    Fault, LONGEST_TABLE, judgement_fault, listing_result, output_fault, read, written_fault,
};

/// What is written where watchpoints are named beside a file of watchpoints.
const ONLY_ACTIONPOINTS: &str =
    "the listed file holds watchpoints itself; name it here, and list the actionpoints";

/// Writes the help or the version to `out`. The error is that of the output.
pub fn write_help<'a, W: Write>(text: &Error, out: &mut W) -> Result<(), Fault<'a>> {
    listing_result(write!(out, "{text}"))?;
    listing_result(out.flush())
}

/// Whether a file is a table file with an image as long as those of watchpoints.
fn holds_watchpoints(file: &[u8]) -> bool
    ensures { result ≡ holds_watchpoints file.now }
{
    match open(file) {
        Ok(table) => Layout::of_image(Kind::Wdt, table.image()).is_some(),
        Err(_) => false,
    }
}

/// Writes the warnings about a table of actionpoints; the file `watchpoints` has its watchpoints.
fn mark<'a, R: Files + AllocGlobal, W: Write>(
    rt: &R,
    watchpoints: &'a str,
    actionpoints: &[u8],
    out: &mut W,
) -> Result<(), Fault<'a>> {
    let own = read(rt, watchpoints, LONGEST_TABLE)?;
    let mut lines = Vec::new(rt.alloc());
    list_actionpoints(
        rt.alloc(),
        own.as_slice(),
        actionpoints,
        LineChoice::Warnings,
        &mut lines,
    )
    .map_err(|error| judgement_fault(watchpoints, error))?;
    listing_result(out.write_all(lines.as_slice()))?;
    listing_result(out.flush())
}

/// Lists a table file; with `watchpoints`, the name of the file with the actionpoints' watchpoints, their warnings
/// follow. Errors: `Table` if the file has a fault, which the listing reports; `Value` if it holds watchpoints itself; others are of
/// files, output and memory.
pub fn table<'a, R: Files + AllocGlobal, W: Write>(
    rt: &R,
    file: &'a str,
    watchpoints: Option<&'a str>,
    out: &mut W,
) -> Result<(), Fault<'a>> {
    let bytes = read(rt, file, LONGEST_TABLE)?;
    let kind = Cell::new(None);
    let mut noted = Noting::new(out, &kind);
    match list_table(rt.alloc(), bytes.as_slice(), &mut noted) {
        Ok(is_sound) => {
            listing_result(noted.flush())?;
            if !is_sound {
                return Err(Fault::Table);
            }
            match watchpoints {
                Some(name) if holds_watchpoints(bytes.as_slice()) => {
                    Err(Fault::Value("--watchpoints", name, ONLY_ACTIONPOINTS))
                }
                Some(name) => mark(rt, name, bytes.as_slice(), &mut noted),
                None => Ok(()),
            }
        }
        Err(ListingError::Memory) => Err(Fault::Memory),
        Err(ListingError::Write) => Err(written_fault(kind.get())),
    }
}

/// Returns the number of whole records at the front of `bytes`, their total length, and what follows them.
pub fn whole_records(bytes: &[u8]) -> (usize, usize, Front) {
    let mut count = 0usize;
    let mut size = 0usize;
    let mut rest = bytes;
    for _ in 0..bytes.len() {
        match front_of(rest) {
            Front::Record { kind: _, size: one } => {
                let (_, behind) = rest.split_at(one);
                rest = behind;
                count = count.saturating_add(1);
                size = size.saturating_add(one);
            }
            _ => break,
        }
    }
    (count, size, front_of(rest))
}

/// The text of records as a listing, with commands in words, or as a script; `first` is the number of the first record.
fn text_of<'a>(
    alloc: Global,
    first: usize,
    records: &[u8],
    whole: bool,
    declared: &DeclaredItems<'_>,
) -> Result<Vec<u8>, Fault<'a>> {
    let text = if whole {
        write_script(alloc, records)?
    } else {
        record_lines(alloc, first, records, declared)?
    };
    Ok(text)
}

/// Lists the records of a stream piece by piece, with commands in words, or writes them as a script if `whole`. Error:
/// `Early` if the stream ends early; others are of files, output and memory.
pub fn stream<'a, R: Files + AllocGlobal, W: Write>(
    rt: &R,
    file: &'a str,
    whole: bool,
    declared: &DeclaredItems<'_>,
    out: &mut W,
) -> Result<(), Fault<'a>> {
    let mut feed = feed_of(rt, file)?;
    let mut first = 1usize;
    for _ in 0..u64::MAX {
        let is_more = feed.read_on()?;
        let (count, size, behind) = whole_records(feed.contents());
        let is_last = !is_more || matches!(behind, Front::NoRecord);
        let listed_size = if is_last { feed.contents().len() } else { size };
        let records = feed
            .contents()
            .split_at_checked(listed_size)
            .map_or(&[][..], |it| it.0);
        let text = text_of(rt.alloc(), first, records, whole, declared)?;
        listing_result(out.write_all(text.as_slice()))?;
        if is_last {
            listing_result(out.flush())?;
            return ended_with(matches!(behind, Front::End));
        }
        feed.let_go(size);
        first = first.saturating_add(count);
    }
    Ok(())
}

/// The result of a listing: `Early` if the file isn't whole.
fn ended_with<'a>(is_whole: bool) -> Result<(), Fault<'a>> {
    if is_whole { Ok(()) } else { Err(Fault::Early) }
}

/// Lists the packets of a file piece by piece, with the names of these rules. Error: `Early` if bytes follow the last whole packet; others are of
/// files, output and memory.
pub fn packets<'a, R: Files + AllocGlobal, W: Write>(
    rt: &R,
    file: &'a str,
    rules: &[TextRules<'_>],
    out: &mut W,
) -> Result<(), Fault<'a>> {
    let mut feed = feed_of(rt, file)?;
    let mut number = 0u64;
    for _ in 0..u64::MAX {
        let is_more = feed.read_on()?;
        let (count, size) = list_named(feed.contents(), number, &*rules, out).map_err(
            |error| output_fault(error.kind()),
        )?;
        number = count;
        feed.let_go(size);
        if !is_more {
            return end_of_packets(&feed, number, out);
        }
    }
    Ok(())
}

/// Writes a line for the bytes after the last packet, if there are any.
fn end_of_packets<'a, F: Read + Drop, W: Write>(
    feed: &Feed<'_, F>,
    number: u64,
    out: &mut W,
) -> Result<(), Fault<'a>> {
    let left = feed.contents().len();
    if left > 0 {
        listing_result(writeln!(
            out,
            "ends early: bytes after packet {number} that are not a whole packet: {left}"
        ))?;
    }
    listing_result(out.flush())?;
    ended_with(left == 0)
}
