//! Rows as JSON objects, one a line.

ghost use Rattle.std.specs.Prelude.{◌≡◌, ◌++◌, length, true, IfOk, OnOk};
ghost use Rattle.json.specs.Print.{quoted, token_text};
ghost use Rattle.packet_rows.specs.Object.{is_plain, is_plain_byte, members_text, value_of};

use crate::cell::Cell;
use crate::error::RowError;
use itoa::Buffer;
use json::Writer;
use std::alloc::{AllocError, Global};
use std::io::Write;

/// Whether a byte stands in a string as it is.
fn is_plain_byte(byte: u8) -> bool
    ensures { result ≡ is_plain_byte byte }
{
    byte > 0x1F && byte != b'"' && byte != b'\\'
}

/// Whether a text stands in a string as it is.
fn is_plain(text: &[u8]) -> bool
    ensures { result ≡ is_plain text.now }
{
    text.iter().fold(true, |is, byte| is & is_plain_byte(*byte))
}

/// The JSON text of a string, with escapes.
fn string_text(alloc: Global, text: &str) -> Result<Vec<u8>, AllocError>
    ensures { IfOk result (λ string. string.items ≡ quoted text.now) }
{
    let mut writer = Writer::new(Vec::new(alloc));
    writer.string(text)?;
    Ok(writer.into_inner())
}

/// Appends a plain text as a string.
fn push_plain(out: &mut Vec<u8>, text: &str) -> Result<(), AllocError>
    requires { is_plain text.now ≡ true }
    ensures { OnOk result (out.new.items ≡ out.old.items ++ quoted text.now) }
{
    out.push(b'"')?;
    out.extend_from_slice(text.as_bytes())?;
    out.push(b'"')?;
    Ok(())
}

/// Appends a string.
fn push_string(alloc: Global, out: &mut Vec<u8>, text: &str) -> Result<(), AllocError>
    ensures { OnOk result (out.new.items ≡ out.old.items ++ quoted text.now) }
{
    if !is_plain(text.as_bytes()) {
        return out.extend_from_slice(string_text(alloc, text)?.as_slice());
    }
    push_plain(out, text)
}

/// Appends the value of a cell.
fn push_value(alloc: Global, out: &mut Vec<u8>, cell: &Cell<'_>) -> Result<(), AllocError>
    ensures { OnOk result (out.new.items ≡ out.old.items ++ token_text (value_of cell.now)) }
{
    match *cell {
        Cell::Empty => out.extend_from_slice(b"null"),
        Cell::Number(number) => {
            let mut digits = Buffer::new();
            out.extend_from_slice(digits.format(number).as_bytes())
        }
        Cell::Text(text) => push_string(alloc, out, text),
    }
}

/// Appends a key and the value of its cell.
fn push_member(
    alloc: Global,
    out: &mut Vec<u8>,
    key: &str,
    cell: &Cell<'_>,
) -> Result<(), AllocError>
    ensures { OnOk result
        (out.new.items ≡ out.old.items ++ (key.now ++ token_text (value_of cell.now))) }
{
    out.extend_from_slice(key.as_bytes())?;
    push_value(alloc, out, cell)
}

/// Appends each key and the value of its cell.
fn push_members(
    alloc: Global,
    out: &mut Vec<u8>,
    keys: &[&str],
    cells: &[Cell<'_>],
) -> Result<(), AllocError>
    requires { length cells.now ≡ length keys.now }
    ensures { OnOk result (out.new.items ≡ out.old.items ++ members_text keys.now cells.now) }
{
    for (number, key) in keys.iter().enumerate() {
        push_member(alloc, out, key, &cells[number])?;
    }
    Ok(())
}

/// Objects, one a line. They keep their memory.
#[derive(Drop)]
pub struct Objects {
    alloc: Global,
    text: Vec<u8>,
}

impl Objects {
    /// No objects.
    pub fn new(alloc: Global) -> Objects {
        Objects {
            alloc,
            text: Vec::new(alloc),
        }
    }

    /// Appends an object. A key is the text before its cell's value: `{` or a comma, the name in quotes, and a colon. Out of memory is
    /// the only error.
    pub fn write_row(&mut self, keys: &[&str], cells: &[Cell<'_>]) -> Result<(), AllocError>
        requires { length cells.now ≡ length keys.now }
    {
        push_members(self.alloc, &mut self.text, keys, cells)?;
        self.text.extend_from_slice(b"}\n")
    }

    /// Writes the objects to `out`, and drops them. Errors: `Memory`, or `Write` with the writer's error.
    pub fn write_to<W: Write>(&mut self, out: &mut W) -> Result<(), RowError> {
        out.write_all(self.text.as_slice())?;
        self.text.clear();
        Ok(())
    }
}
