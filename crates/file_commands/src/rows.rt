//! The commands that write packets and records as rows, for other programs.

ghost use Rattle.std.specs.Prelude.{◌≡◌, ◌&&◌, false, is_ok, is_some, true, IfErr, IfOk};
ghost use Rattle.tool_faults.specs.Status.{status_of};
ghost use Rattle.file_commands.specs.Asked.{IsAsked};
ghost use Rattle.file_commands.specs.Taken.{IsTaken};

use crate::ends::{end_of_packets, end_of_stream};
use crate::record_line::record_line;
use flight_tools_args::RowWords;
use lc_model::packet::first_packet;
use packet_listing::{NamedLine, TextRules};
use packet_rows::{Epoch, Form, RowError, RowWriter};
use program_io::{Feed, feed_of};
use scenarios::DeclaredItems;
use std::alloc::Global;
use std::fs::Files;
use std::io::{Read, Write};
use stream_script::{Front, front_of};
use tool_faults::{Fault, epoch_of, listing_result, output_fault};

/// What is written for two options of which each leaves no room for the other.
pub const ONE_OF_TWO: &str = "write one of the two, not both";

/// What to write for an epoch of text.
const ONLY_ROWS: &str = "write --csv or --json too: text shows no UTC times";

/// How rows are written: as values or as objects, and from which epoch their times count.
#[derive(Clone, Copy)]
pub struct Rows {
    form: Form,
    epoch: Option<Epoch>,
}

/// Returns `None`, the form of text. Error: `Value` if there is an epoch.
fn text_form<'a>(epoch: Option<&'a str>) -> Result<Option<Rows>, Fault<'a>>
    ensures asked { IfOk result (λ rows. (is_some rows ≡ false) × (is_some epoch.entry ≡ false)) }
    ensures refused { IfErr result (λ fault. (is_some epoch.entry ≡ true) × (status_of fault ≡ 2)) }
{
    match epoch {
        None => Ok(None),
        Some(word) => Err(Fault::Value("--epoch", word, ONLY_ROWS)),
    }
}

/// Returns how rows are to be written, or `None` if the words ask for text. Errors: `Value` if they ask for values and objects at once,
/// for an invalid epoch, or for an epoch of text, since only rows have times in UTC.
pub fn rows_of<'a>(words: RowWords<'a>) -> Result<Option<Rows>, Fault<'a>>
    ensures asked { IfOk result (IsAsked words.entry) }
    ensures refused { IfErr result (λ fault. status_of fault ≡ 2) }
    ensures accepts { is_some words.entry.epoch ≡ false
        → (words.entry.csv && words.entry.json) ≡ false
        → is_ok result ≡ true }
{
    let epoch = epoch_of(words.epoch)?;
    let form = match (words.csv, words.json) {
        (true, true) => return Err(Fault::Value("--csv", "--json", ONE_OF_TWO)),
        (true, false) => Form::Csv,
        (false, true) => Form::Json,
        (false, false) => return text_form(words.epoch),
    };
    Ok(Some(Rows { form, epoch }))
}

/// The result of writing rows to standard output; an error becomes a `Fault`, as `output_fault` has it.
fn row_result<T: Drop>(written: Result<T, RowError>) -> Result<T, Fault<'static>>
    ensures { IsTaken written result }
{
    match written {
        Ok(written) => Ok(written),
        Err(RowError::Memory) => Err(Fault::Memory),
        Err(RowError::Write(kind)) => Err(output_fault(kind)),
    }
}

/// The number of the last row, and how many of the held bytes are written.
type Written = Result<(u64, usize), RowError>;

/// Writes the rows of the whole packets at the front, after `before` earlier ones, with the names of these rules. Returns the number of
/// the last one, and the bytes of all.
fn write_packets<'x>(
    writer: &mut RowWriter,
    packets: &'x [u8],
    before: u64,
    texts: &'x [TextRules<'x>],
) -> Written {
    let mut number = before;
    let mut rest = packets;
    for _ in 0..packets.len() {
        let Some((packet, behind)) = first_packet(rest) else {
            break;
        };
        number = number.saturating_add(1);
        writer.write_packet(NamedLine {
            number,
            packet,
            texts,
        })?;
        rest = behind;
    }
    Ok((number, packets.len().saturating_sub(rest.len())))
}

/// Writes the rows of the whole records at the front, with commands in words, after `before` earlier ones. Returns the number of the last
/// one, and the bytes of all.
fn write_records(
    alloc: Global,
    writer: &mut RowWriter,
    records: &[u8],
    before: u64,
    declared: &DeclaredItems<'_>,
) -> Written {
    let mut number = before;
    let mut rest = records;
    for _ in 0..records.len() {
        let Front::Record { kind: _, size } = front_of(rest) else {
            break;
        };
        let (record, behind) = rest.split_at(size);
        number = number.saturating_add(1);
        let line = record_line(alloc, 1, record, declared)?;
        writer.write_record(number, record, line.as_slice())?;
        rest = behind;
    }
    Ok((number, records.len().saturating_sub(rest.len())))
}

/// Writes one row for each packet that a feed brings. Errors as for `packets`.
fn feed_packets<'a, F: Read + Drop, W: Write>(
    feed: &mut Feed<'a, F>,
    file: &'a str,
    writer: &mut RowWriter,
    texts: &[TextRules<'_>],
    out: &mut W,
) -> Result<(), Fault<'a>> {
    let mut number = 0u64;
    for _ in 0..u64::MAX {
        let is_more = feed.read_on()?;
        let (count, size) = row_result(write_packets(writer, feed.contents(), number, &*texts))?;
        row_result(writer.write_to(out))?;
        number = count;
        feed.let_go(size);
        if !is_more {
            listing_result(out.flush())?;
            return end_of_packets(file, number, feed.contents().len());
        }
    }
    Ok(())
}

/// Writes one row for each packet of a file, piece by piece, with the names of these rules. Error: `Packets` with the place if bytes
/// follow the last whole packet; others are of files, output and memory.
pub fn packets<'a, R: Files + AllocGlobal, W: Write>(
    rt: &R,
    file: &'a str,
    rows: &Rows,
    texts: &[TextRules<'_>],
    out: &mut W,
) -> Result<(), Fault<'a>> {
    let mut feed = feed_of(rt, file)?;
    let mut writer = RowWriter::new(rt.alloc(), rows.form, rows.epoch);
    row_result(writer.write_packet_names())?;
    feed_packets(&mut feed, file, &mut writer, texts, out)
}

/// Writes one row for each record that a feed brings. Errors as for `records`.
fn feed_records<'a, F: Read + Drop, W: Write>(
    alloc: Global,
    feed: &mut Feed<'a, F>,
    file: &'a str,
    writer: &mut RowWriter,
    declared: &DeclaredItems<'_>,
    out: &mut W,
) -> Result<(), Fault<'a>> {
    let mut number = 0u64;
    for _ in 0..u64::MAX {
        let is_more = feed.read_on()?;
        let (count, size) = row_result(write_records(
            alloc,
            writer,
            feed.contents(),
            number,
            declared,
        ))?;
        row_result(writer.write_to(out))?;
        number = count;
        feed.let_go(size);
        let front = front_of(feed.contents());
        if !is_more || matches!(front, Front::NoRecord) {
            listing_result(out.flush())?;
            return end_of_stream(file, front, number.saturating_add(1));
        }
    }
    Ok(())
}

/// Writes one row for each record of a stream, piece by piece. Error: `Stream` with the place if the stream ends early;
/// others are of files, output and memory.
pub fn records<'a, R: Files + AllocGlobal, W: Write>(
    rt: &R,
    file: &'a str,
    rows: &Rows,
    declared: &DeclaredItems<'_>,
    out: &mut W,
) -> Result<(), Fault<'a>> {
    let mut feed = feed_of(rt, file)?;
    let mut writer = RowWriter::new(rt.alloc(), rows.form, rows.epoch);
    row_result(writer.write_record_names())?;
    feed_records(rt.alloc(), &mut feed, file, &mut writer, declared, out)
}
