//! What a run gives, as text.

use crate::effort::effort;
use crate::row::Row;
use flight_core::{Report, RunError};
use flight_profile::launch;
use lc_model::{Reading, Writing};
use packet_listing::list_named;
use schedules::parse_schedule;
use sha2::{Digest, Sha256};
use std::alloc::Global;
use std::io::{self, Write};

/// Writes how a run ended: its records and bytes, or what stopped it and the bytes by then.
fn write_ending<W: Write>(
    ending: &Result<Report, RunError>,
    bytes: usize,
    out: &mut W,
) -> io::Result<()> {
    match ending {
        Ok(report) => writeln!(out, "records {}, bytes {}", report.records, report.bytes),
        Err(error) => match error.code() {
            Some(code) => writeln!(out, "stopped {code}: {error}; bytes {bytes}"),
            None => writeln!(out, "stopped: {error}; bytes {bytes}"),
        },
    }
}

/// Writes the effort of the engine with the row's first text.
fn write_effort<W: Write>(alloc: Global, row: &Row, out: &mut W) -> anyhow::Result<()> {
    let Some(text) = row.texts.first() else {
        anyhow::bail!("effort wants a rule text");
    };
    let (steps, probes) = effort(alloc, text.as_slice(), row.stream.as_slice())?;
    writeln!(out, "steps {steps}, probes {probes}")?;
    Ok(())
}

/// Runs a row: a line for how it ended, one for the SHA-256 of what it wrote, one for the effort where the row has it, and
/// one for each packet.
pub fn outcome(alloc: Global, row: &Row) -> anyhow::Result<Vec<u8>> {
    let schedule = parse_schedule(alloc, row.schedule.as_slice())?;
    let mut texts = Vec::new(alloc);
    for text in &row.texts {
        texts.push(text.as_slice())?;
    }
    let mut packets = Vec::new(alloc);
    let mut reader = Reading::new(row.stream.as_slice());
    let writer = Writing::new(&mut packets);
    let ending = launch(alloc, texts.as_slice(), &schedule, &mut reader, writer).0;
    let mut text = Vec::new(alloc);
    write_ending(&ending, packets.len(), &mut text)?;
    let hash = hex::encode(alloc, Sha256::digest(packets.as_slice()).as_slice())?;
    writeln!(text, "sha256 {hash}")?;
    if row.has_effort {
        write_effort(alloc, row, &mut text)?;
    }
    let _listed = list_named(packets.as_slice(), 0, &[], &mut text)?;
    Ok(text)
}
