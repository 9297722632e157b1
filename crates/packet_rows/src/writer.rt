//! Writes rows, one after another.

use crate::epoch::{Epoch, TimeTexts};
use crate::error::RowError;
use crate::form::{Form, RowText};
use crate::packet::{PacketTexts, packet_cells};
use crate::packet_cells::{PACKET_KEYS, PACKET_NAMES};
use crate::record::{RECORD_KEYS, RECORD_NAMES, record_cells};
use lc_model::stream::{HEADER, moment_of};
use packet_listing::NamedLine;
use std::alloc::Global;
use std::io::Write;

/// Writes the rows of packets or of records as text, which `write_to` takes out. It keeps its memory from row to row.
#[derive(Drop)]
pub struct RowWriter {
    text: RowText,
    times: TimeTexts,
    packet: PacketTexts,
}

impl RowWriter {
    /// A writer of rows in this form. With an epoch the rows have times in UTC, too.
    pub fn new(alloc: Global, form: Form, epoch: Option<Epoch>) -> RowWriter {
        RowWriter {
            text: RowText::new(alloc, form),
            times: TimeTexts::new(alloc, epoch),
            packet: PacketTexts::new(alloc),
        }
    }

    /// Writes the line of a packet's columns for CSV; writes nothing for JSON. The only error is `Memory`.
    pub fn write_packet_names(&mut self) -> Result<(), RowError> {
        self.text.write_names(&PACKET_NAMES)
    }

    /// Writes the line of a record's columns for CSV; writes nothing for JSON. The only error is `Memory`.
    pub fn write_record_names(&mut self) -> Result<(), RowError> {
        self.text.write_names(&RECORD_NAMES)
    }

    /// Writes the row of a packet. The column `says` is the part of the packet's line after the time, with the names of the line's
    /// texts. A byte of a text that isn't printable ASCII becomes `.`. The only error is `Memory`.
    pub fn write_packet(&mut self, line: NamedLine<'_>) -> Result<(), RowError> {
        let content = self.packet.show(line)?;
        self.times.show(content.moment)?;
        let cells = packet_cells(line.number, line.packet, content, &self.times, &self.packet);
        match self.text.form() {
            Form::Csv => self.text.write_row(&PACKET_NAMES, &cells.columns()),
            Form::Json => self.text.write_row(&PACKET_KEYS, &cells.members()),
        }
    }

    /// Writes the row of a whole record with this number and this listing line. The only error is `Memory`.
    pub fn write_record(
        &mut self,
        number: u64,
        record: &[u8],
        line: &[u8],
    ) -> Result<(), RowError> {
        let moment = if record.len() < HEADER {
            None
        } else {
            Some(moment_of(record))
        };
        self.times.show(moment)?;
        let cells = record_cells(number, record.len(), line, &self.times);
        match self.text.form() {
            Form::Csv => self.text.write_row(&RECORD_NAMES, &cells.columns()),
            Form::Json => self.text.write_row(&RECORD_KEYS, &cells.members()),
        }
    }

    /// Writes the rows so far to `out`, and drops them. Errors: `Memory`, or `Write` with the writer's error.
    pub fn write_to<W: Write>(&mut self, out: &mut W) -> Result<(), RowError> {
        self.text.write_to(out)
    }
}
