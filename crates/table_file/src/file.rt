//! Table files: a cFE file header, a table header and an image (cFE user's guide, table services; which fields are read
//! is this project's own).

ghost use Rattle.std.specs.Prelude.{◌≡◌, length, Ok, IfOk};
ghost use Rattle.lc_model.specs.Name.{name_in};
ghost use Rattle.lc_model.specs.Tables.File as model;
ghost use Rattle.lc_model.specs.Tables.File.{file_bytes, opened};
ghost use Rattle.lc_model.specs.Laws.Tables.{IsTableFile};
ghost use Rattle.table_file.specs.Error.{Answers};
ghost use Rattle.table_file.specs.File.{content_type_in, subtype_in, header_length_in, offset_in, number_of_bytes_in};

use crate::error::FileError;
use lc_model::{name_in, u32_at};
use std::marker::Model;

/// `cFE1`, by which a cFE file is known.
pub const CONTENT_TYPE: u32 = 0x6346_4531;

/// A table (this project's own).
pub const SUBTYPE: u32 = 8;

/// The bytes of the cFE file header.
pub const FILE_HEADER_LENGTH: u32 = 64;

/// The bytes of both headers of a table file, before the image.
pub const HEADERS_LENGTH: usize = 116;

/// A file that was opened: each field that may have more than one value, as read, and the image, a slice of the file.
#[derive(Debug, Drop)]
pub struct TableFile<'a> {
    spacecraft: u32,
    processor: u32,
    application: u32,
    seconds: u32,
    subseconds: u32,
    description: &'a [u8],
    reserved: u32,
    name_field: &'a [u8],
    image: &'a [u8],
}

impl<'a> Model for TableFile<'a> {
    ghost use Rattle.lc_model.specs.Tables.File.{TableFile};
    ghost use Rattle.table_file.specs.File.{HasWholeHeaders};

    ghost Value = { TableFile };

    ghost view = { λ f. record {
      spacecraft = f.spacecraft;
      processor = f.processor;
      application = f.application;
      seconds = f.seconds;
      subseconds = f.subseconds;
      description = f.description.now;
      reserved = f.reserved;
      name_field = f.name_field.now;
      image = f.image.now;
    } };

    ghost invariant = { λ f. HasWholeHeaders f.description.now f.image.now };
}

impl<'a> TableFile<'a> {
    /// The content type, bytes 0 to 3: `cFE1`.
    pub fn content_type(&self) -> u32
        ensures { result ≡ content_type_in (file_bytes self.now) }
    {
        CONTENT_TYPE
    }

    /// The subtype, bytes 4 to 7: 8, a table.
    pub fn subtype(&self) -> u32
        ensures { result ≡ subtype_in (file_bytes self.now) }
    {
        SUBTYPE
    }

    /// The length of the cFE file header, bytes 8 to 11: 64.
    pub fn header_length(&self) -> u32
        ensures { result ≡ header_length_in (file_bytes self.now) }
    {
        FILE_HEADER_LENGTH
    }

    /// The spacecraft that the file is for.
    pub fn spacecraft(&self) -> u32
        ensures { result ≡ self.now.spacecraft }
    {
        self.spacecraft
    }

    /// The processor that the file is for.
    pub fn processor(&self) -> u32
        ensures { result ≡ self.now.processor }
    {
        self.processor
    }

    /// The application that wrote the file.
    pub fn application(&self) -> u32
        ensures { result ≡ self.now.application }
    {
        self.application
    }

    /// The seconds of the time at which the file was written.
    pub fn seconds(&self) -> u32
        ensures { result ≡ self.now.seconds }
    {
        self.seconds
    }

    /// The subseconds of the time at which the file was written.
    pub fn subseconds(&self) -> u32
        ensures { result ≡ self.now.subseconds }
    {
        self.subseconds
    }

    /// The file's description, 32 bytes.
    pub fn description(&self) -> &'a [u8]
        ensures { result.now ≡ self.now.description }
    {
        self.description
    }

    /// The table header's first field, which nothing uses.
    pub fn reserved(&self) -> u32
        ensures { result ≡ self.now.reserved }
    {
        self.reserved
    }

    /// The place in the table at which the image begins, bytes 68 to 71: 0, since a table is loaded whole.
    pub fn offset(&self) -> u32
        ensures { result ≡ offset_in (file_bytes self.now) }
    {
        // For the proof: the field's place depends on the description's size, which is in the invariant; reading a field brings
        // it in.
        let _ = &self.description;
        0
    }

    /// The number of bytes of the image, bytes 72 to 75.
    pub fn number_of_bytes(&self) -> u32
        ensures field { result ≡ number_of_bytes_in (file_bytes self.now) }
        ensures image { result ≡ length self.now.image }
    {
        self.image.len() as u32
    }

    /// The field with the table's name, 40 bytes.
    pub fn name_field(&self) -> &'a [u8]
        ensures { result.now ≡ self.now.name_field }
    {
        self.name_field
    }

    /// The name of the table that the file is for: the bytes before the field's first zero byte, or all of them.
    pub fn name(&self) -> &'a [u8]
        ensures { result.now ≡ name_in self.now.name_field }
    {
        name_in(self.name_field)
    }

    /// The image, as it stands in the file.
    pub fn image(&self) -> &'a [u8]
        ensures { result.now ≡ self.now.image }
    {
        self.image
    }
}

/// The fields at their places, if the headers are those of a table file.
fn read_headers(bytes: &[u8]) -> Result<TableFile<'_>, FileError>
    ensures { Answers result (opened bytes.now) }
{
    if bytes.len() < HEADERS_LENGTH {
        return Err(FileError::ShortFile);
    }
    if u32_at(bytes, 0) != CONTENT_TYPE {
        return Err(FileError::NotCfe);
    }
    if u32_at(bytes, 4) != SUBTYPE {
        return Err(FileError::WrongSubtype);
    }
    if u32_at(bytes, 8) != FILE_HEADER_LENGTH {
        return Err(FileError::HeaderLength);
    }
    if u32_at(bytes, 68) != 0 {
        return Err(FileError::PartialLoad);
    }
    if u32_at(bytes, 72) as usize != bytes.len() - HEADERS_LENGTH {
        return Err(FileError::SizeMismatch);
    }
    Ok(TableFile {
        spacecraft: u32_at(bytes, 12),
        processor: u32_at(bytes, 16),
        application: u32_at(bytes, 20),
        seconds: u32_at(bytes, 24),
        subseconds: u32_at(bytes, 28),
        description: &bytes[32..64],
        reserved: u32_at(bytes, 64),
        name_field: &bytes[76..116],
        image: &bytes[HEADERS_LENGTH..],
    })
}

/// Opens a table file. The fields are those at their places; the image is the slice after the headers.
///
/// Errors: the first fault of the headers, in the order of `FileError`; never `Memory`.
pub fn open(bytes: &[u8]) -> Result<TableFile<'_>, FileError>
    // The result is the one that the definitions give for the file.
    ensures exact { Answers result (opened bytes.now) }
    // A file that opens is exactly the bytes of its fields.
    ensures spelled { IfOk result (λ file. IsTableFile file × (bytes.now ≡ file_bytes file)) }
    // The bytes of any fields open, with the same fields.
    ensures again { (file : model.TableFile) → IsTableFile file → bytes.now ≡ file_bytes file →
        result ≡ Ok file }
{
    read_headers(bytes)
}
