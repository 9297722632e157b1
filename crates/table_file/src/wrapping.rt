//! The file that is written for an image.

ghost use Rattle.std.specs.Prelude.{◌≡◌, ◌-◌, ◌≤◌, ◌++◌, length, Ok, IfErr, IfOk, OnOk};
ghost use Rattle.lc_model.specs.Host.React.{max_file_size};
ghost use Rattle.lc_model.specs.Name.{name_size};
ghost use Rattle.lc_model.specs.Tables.File.{file_bytes, headers_length, opened, table_name, wrapped};
ghost use Rattle.table_file.specs.Parts.{file_header, table_header};
ghost use Rattle.table_file.specs.declared.error.FileError.TheVariants.{Memory};

use crate::error::FileError;
use crate::file::{CONTENT_TYPE, FILE_HEADER_LENGTH, HEADERS_LENGTH, SUBTYPE};
use crate::output::{push_u32, push_zeros};
use lc_model::{Kind, PROCESSOR, SPACECRAFT};
use std::alloc::{AllocError, Global};

/// The bytes of the field with the table's name.
const NAME_LENGTH: usize = 40;

/// The name of the table of each kind.
pub fn table_name(kind: Kind) -> &'static [u8]
    ensures bytes { result.now ≡ table_name kind }
    ensures fits { length result.now ≤ name_size }
{
    match kind {
        Kind::Wdt => b"LC.LC_WDT",
        Kind::Adt => b"LC.LC_ADT",
    }
}

/// The cFE file header.
fn push_file_header(out: &mut Vec<u8>) -> Result<(), AllocError>
    ensures { OnOk result (out.new.items ≡ out.old.items ++ file_header) }
{
    push_u32(out, CONTENT_TYPE)?;
    push_u32(out, SUBTYPE)?;
    push_u32(out, FILE_HEADER_LENGTH)?;
    push_u32(out, SPACECRAFT)?;
    push_u32(out, PROCESSOR)?;
    push_zeros(out, 44)?;
    Ok(())
}

/// The table header, for an image of this many bytes.
fn push_table_header(out: &mut Vec<u8>, kind: Kind, length: u32) -> Result<(), AllocError>
    ensures { OnOk result (out.new.items ≡ out.old.items ++ table_header kind length) }
{
    push_zeros(out, 8)?;
    push_u32(out, length)?;
    let name = table_name(kind);
    out.extend_from_slice(name)?;
    push_zeros(out, NAME_LENGTH - name.len())?;
    Ok(())
}

/// The file for an image: both headers (116 bytes) and the image.
///
/// Errors: `Memory` alone.
pub fn wrap(alloc: Global, kind: Kind, image: &[u8]) -> Result<Vec<u8>, FileError>
    requires { length image.now ≤ max_file_size - headers_length }
    ensures bytes { IfOk result (λ bytes. bytes.items ≡ file_bytes (wrapped kind image.now)) }
    // The written file opens, with the fields that were written.
    ensures opens { IfOk result (λ bytes. opened bytes.items ≡ Ok (wrapped kind image.now)) }
    ensures refused { IfErr result (λ error. error ≡ Memory) }
{
    let mut out = Vec::with_capacity(alloc, HEADERS_LENGTH + image.len())?;
    push_file_header(&mut out)?;
    push_table_header(&mut out, kind, image.len() as u32)?;
    out.extend_from_slice(image)?;
    Ok(out)
}
