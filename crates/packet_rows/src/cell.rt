//! The cells of a row.

ghost use Rattle.std.specs.Prelude.{◌≡◌};
ghost use Rattle.packet_rows.specs.Cell.{number_cell};

use std::alloc::{AllocError, Global};
use std::fmt::Display;

/// The content of one cell of a row.
#[derive(Clone, Copy)]
pub enum Cell<'c> {
    /// No value: an empty field in CSV, `null` in JSON.
    Empty,
    /// A number.
    Number(u64),
    /// A text.
    Text(&'c str),
}

/// The cell of a number; `Empty` for `None`.
pub fn number<'c>(number: Option<u16>) -> Cell<'c>
    ensures { result ≡ number_cell number }
{
    match number {
        Some(number) => Cell::Number(u64::from(number)),
        None => Cell::Empty,
    }
}

/// The cell of a word; `Empty` for `None`.
pub fn some_word(word: Option<&str>) -> Cell<'_> {
    let Some(word) = word else {
        return Cell::Empty;
    };
    Cell::Text(word)
}

/// The text of a cell, or none. It keeps its memory from row to row.
#[derive(Drop)]
pub struct CellText {
    text: String,
    is_there: bool,
}

impl CellText {
    /// A cell without a value.
    pub fn new(alloc: Global) -> CellText {
        CellText {
            text: String::new(alloc),
            is_there: false,
        }
    }

    /// Takes what a value displays as. Out of memory is the only error.
    pub fn show<D: Display + Drop>(&mut self, value: D) -> Result<(), AllocError> {
        self.text.clear();
        self.is_there = true;
        self.text.write(value)
    }

    /// Drops the value.
    pub fn hide(&mut self) {
        self.is_there = false;
    }

    /// Takes the value back that was shown last.
    pub fn show_again(&mut self) {
        self.is_there = true;
    }

    /// The text, even if it is hidden.
    pub fn as_str(&self) -> &str {
        self.text.as_str()
    }

    /// The cell with this text.
    pub fn cell(&self) -> Cell<'_> {
        if self.is_there {
            Cell::Text(self.text.as_str())
        } else {
            Cell::Empty
        }
    }
}
