//! How rows are written.

ghost use Rattle.std.specs.Prelude.{◌≡◌, length};

use crate::cell::Cell;
use crate::error::RowError;
use crate::objects::Objects;
use crate::values::Values;
use std::alloc::Global;
use std::io::Write;

/// The format of rows.
#[derive(Clone, Copy, Debug, PartialEq, Eq)]
pub enum Form {
    /// Comma-separated values after a line with the columns' names (RFC 4180, except that a line ends with a line feed alone).
    Csv,
    /// One JSON object per line (RFC 8259).
    Json,
}

/// Rows as text.
#[derive(Drop)]
pub enum RowText {
    Csv(Values),
    Json(Objects),
}

impl RowText {
    /// No rows of this form.
    pub fn new(alloc: Global, form: Form) -> RowText {
        match form {
            Form::Csv => RowText::Csv(Values::new(alloc)),
            Form::Json => RowText::Json(Objects::new(alloc)),
        }
    }

    /// The form of the rows.
    pub fn form(&self) -> Form {
        match self {
            RowText::Csv(_) => Form::Csv,
            RowText::Json(_) => Form::Json,
        }
    }

    /// Appends the line of the columns' names for CSV; appends nothing for JSON. The only error is `Memory`.
    pub fn write_names(&mut self, names: &[&str]) -> Result<(), RowError> {
        match self {
            RowText::Csv(values) => values.write_names(names),
            RowText::Json(_) => Ok(()),
        }
    }

    /// Appends a row, with a cell for each name; for JSON these are keys as `Objects` has them. The only error is `Memory`.
    pub fn write_row(&mut self, names: &[&str], cells: &[Cell<'_>]) -> Result<(), RowError>
        requires { length cells.now ≡ length names.now }
    {
        match self {
            RowText::Csv(values) => values.write_row(cells),
            RowText::Json(objects) => Ok(objects.write_row(names, cells)?),
        }
    }

    /// Writes the rows so far to `out`, and drops them. Errors: `Memory`, or `Write` with the writer's error.
    pub fn write_to<W: Write>(&mut self, out: &mut W) -> Result<(), RowError> {
        match self {
            RowText::Csv(values) => values.write_to(out),
            RowText::Json(objects) => objects.write_to(out),
        }
    }
}
