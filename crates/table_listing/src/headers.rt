//! The lines of a file's headers and of its image's preamble.

ghost use Rattle.std.specs.Prelude.{◌≡◌, ◌≤◌, ◌==◌, Some, length};
ghost use Rattle.std.specs.List.{position_or_len};
ghost use Rattle.lc_model.specs.Name.{name_in};
ghost use Rattle.lc_model.specs.Tables.Image.{preamble_length};
ghost use Rattle.table_listing.specs.Headers.{file_line, table_line, preamble_lines, preamble_lines_of};

use crate::shown::{InHex, QuotedName};
use crate::value_names::kind_word;
use std::fmt::{self, Display, Formatter, Write};
use table_file::{TableFile, preamble};

/// The number of bytes before the first zero byte, or of all bytes if there is none.
fn text_length(field: &[u8]) -> usize
    ensures { result ≡ position_or_len (λ b. b == 0) field.now }
{
    field.iter().take_while(|byte| **byte != 0).count()
}

/// The bytes before the first zero byte, or all bytes if there is none.
fn text_in(field: &[u8]) -> &[u8]
    ensures { result.now ≡ name_in field.now }
{
    &field[..text_length(field)]
}

/// The line of the cFE file header (cFE user's guide); every file that opens has this content type and subtype:
/// `file: content type 0x63464531 subtype 8 spacecraft 66 processor 1 application 0 seconds 0 subseconds 0`.
#[derive(Clone, Copy)]
pub struct FileLine {
    /// The spacecraft id.
    pub spacecraft: u32,
    /// The processor id.
    pub processor: u32,
    /// The application id.
    pub application: u32,
    /// The time of the file in seconds.
    pub seconds: u32,
    /// The part of a second of that time, as the header has it.
    pub subseconds: u32,
}

impl FileLine {
    /// Returns the line of this file.
    pub fn of(file: &TableFile) -> FileLine
        ensures { result ≡ record {
          spacecraft = file.now.spacecraft;
          processor = file.now.processor;
          application = file.now.application;
          seconds = file.now.seconds;
          subseconds = file.now.subseconds;
        } }
    {
        FileLine {
            spacecraft: file.spacecraft(),
            processor: file.processor(),
            application: file.application(),
            seconds: file.seconds(),
            subseconds: file.subseconds(),
        }
    }
}

impl Display for FileLine {
    ghost output = { λ l.
        Some (file_line l.spacecraft l.processor l.application l.seconds l.subseconds) };

    fn fmt<W: Write>(&self, f: &mut Formatter<W>) -> fmt::Result {
        let FileLine {
            spacecraft,
            processor,
            application,
            seconds,
            subseconds,
        } = *self;
        write!(
            f,
            "file: content type 0x63464531 subtype 8 spacecraft {spacecraft} processor {processor} application {application} seconds {seconds} subseconds {subseconds}"
        )
    }
}

/// The line of the table header, as `table: "LC.LC_WDT" description "" reserved 0 offset 0 bytes 4264`. Name and
/// description end at their first zero byte and display as `QuotedName`. Every file that opens has offset 0.
#[derive(Clone, Copy)]
pub struct TableLine<'a> {
    /// The table's name.
    pub name: &'a [u8],
    /// The file's description.
    pub description: &'a [u8],
    /// The reserved field of the header.
    pub reserved: u32,
    /// The length of the image in bytes.
    pub size: usize,
}

impl<'a> TableLine<'a> {
    /// Returns the line of this file.
    pub fn of(file: &TableFile<'a>) -> TableLine<'a>
        ensures name { result.name.now ≡ name_in file.now.name_field }
        ensures description { result.description.now ≡ name_in file.now.description }
        ensures reserved { result.reserved ≡ file.now.reserved }
        ensures size { result.size ≡ length file.now.image }
    {
        TableLine {
            name: file.name(),
            description: text_in(file.description()),
            reserved: file.reserved(),
            size: file.image().len(),
        }
    }
}

impl Display for TableLine<'_> {
    ghost output = { λ l. Some (table_line l.name.now l.description.now l.reserved l.size) };

    fn fmt<W: Write>(&self, f: &mut Formatter<W>) -> fmt::Result {
        let TableLine {
            name,
            description,
            reserved,
            size,
        } = *self;
        let (name, description) = (QuotedName(name), QuotedName(description));
        write!(
            f,
            "table: \"{name}\" description \"{description}\" reserved {reserved} offset 0 bytes {size}"
        )
    }
}

/// The two lines of an image's preamble (docs/FORMATS.md); the second has no line end.
#[derive(Clone, Copy)]
pub struct PreambleLines<'a> {
    /// The number of the image's kind: 1 for watchpoints, 2 for actionpoints.
    pub kind: u16,
    /// The version of the image's layout.
    pub version: u16,
    /// The number of used entries.
    pub entries: u16,
    /// The number of watchpoints of the rule text.
    pub watchpoints: u16,
    /// The SHA-256 of the rule text, 32 bytes.
    pub hash: &'a [u8],
}

impl<'a> PreambleLines<'a> {
    /// Returns the lines of an image of at least 40 bytes.
    pub fn of(image: &'a [u8]) -> PreambleLines<'a>
        requires { preamble_length ≤ length image.now }
        ensures { preamble_lines_of result ≡ preamble_lines image.now }
    {
        PreambleLines {
            kind: preamble::kind_code(image),
            version: preamble::version(image),
            entries: preamble::own_count(image),
            watchpoints: preamble::watchpoint_count(image),
            hash: preamble::hash(image),
        }
    }
}

impl Display for PreambleLines<'_> {
    ghost output = { λ lines. Some (preamble_lines_of lines) };

    fn fmt<W: Write>(&self, f: &mut Formatter<W>) -> fmt::Result {
        let PreambleLines {
            kind,
            version,
            entries,
            watchpoints,
            hash,
        } = *self;
        let (word, hash) = (kind_word(kind), InHex(hash));
        write!(
            f,
            "image: kind {kind} {word} version {version} entries {entries} watchpoints {watchpoints}\nhash: {hash}"
        )
    }
}
