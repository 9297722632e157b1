//! Rows as comma-separated values.

use crate::cell::Cell;
use crate::error::RowError;
use csv::{Error, Writer};
use itoa::Buffer;
use std::alloc::Global;
use std::io::Write;
use std::mem::replace;

/// Writes a cell as a field.
fn write_value(writer: &mut Writer<Vec<u8>>, cell: Cell<'_>) -> Result<(), Error> {
    match cell {
        Cell::Empty => writer.write_field(b""),
        Cell::Number(number) => {
            let mut digits = Buffer::new();
            writer.write_field(digits.format(number).as_bytes())
        }
        Cell::Text(text) => writer.write_field(text.as_bytes()),
    }
}

/// Writes cells as a line of fields.
fn write_values(writer: &mut Writer<Vec<u8>>, cells: &[Cell<'_>]) -> Result<(), Error> {
    for cell in cells {
        write_value(writer, *cell)?;
    }
    writer.end_record()
}

/// Writes names as a line of fields.
fn write_names(writer: &mut Writer<Vec<u8>>, names: &[&str]) -> Result<(), Error> {
    for name in names {
        writer.write_field(name.as_bytes())?;
    }
    writer.end_record()
}

/// The result of writing to memory.
fn in_memory(written: Result<(), Error>) -> Result<(), RowError> {
    match written {
        Ok(()) => Ok(()),
        Err(_) => Err(RowError::Memory),
    }
}

/// Lines of comma-separated values, all with as many fields.
#[derive(Drop)]
pub struct Values {
    alloc: Global,
    writer: Writer<Vec<u8>>,
}

impl Values {
    /// No lines.
    pub fn new(alloc: Global) -> Values {
        Values {
            alloc,
            writer: Writer::from_writer(Vec::new(alloc)),
        }
    }

    /// Appends a line with these names. The only error is `Memory`.
    pub fn write_names(&mut self, names: &[&str]) -> Result<(), RowError> {
        in_memory(write_names(&mut self.writer, names))
    }

    /// Appends a line, with a field for each cell. The only error is `Memory`.
    pub fn write_row(&mut self, cells: &[Cell<'_>]) -> Result<(), RowError> {
        in_memory(write_values(&mut self.writer, cells))
    }

    /// Writes the lines to `out`, and drops them. Errors: `Memory`, or `Write` with the writer's error.
    pub fn write_to<W: Write>(&mut self, out: &mut W) -> Result<(), RowError> {
        let next = Writer::from_writer(Vec::new(self.alloc));
        match replace(&mut self.writer, next).into_inner() {
            Ok(lines) => Ok(out.write_all(lines.as_slice())?),
            Err(_) => Err(RowError::Memory),
        }
    }
}
