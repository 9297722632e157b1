//! Calls over files by name; their errors have the name.

ghost use Rattle.std.specs.Prelude.{◌≡◌, ◌≤◌, [], ◌∷◌, Some, None, is_ok, length, map, IfErr, IfOk, OnOk};
ghost use Rattle.program_io.specs.FileCall.{Reads, Writes, all_apart, all_read, followed_by, given_by};
ghost use Rattle.program_io.specs.Stops.{IsErrorOf, IsOfFile, StopsIn, longest_text};
ghost use Rattle.program_io.specs.declared.error.FileError.{FileError};

use crate::disk::Disk;
use crate::error::{FileError, error_at};
use crate::why::Why;
use lc_model::LONGEST_TEXT;
use std::alloc::Global;

/// Reads the text in a file: at most 65,537 bytes, one more than a text may have.
pub fn read_text<'a, D: Disk>(disk: &mut D, name: &'a str) -> Result<Vec<u8>, FileError<'a>>
    ensures noted { D.calls disk.new ≡ followed_by (D.calls disk.old)
        (Reads name.entry.now (given_by (λ bytes. bytes.items) result) ∷ []) }
    ensures refused { IfErr result (IsOfFile name.entry.now) }
{
    disk.read(name).map_err(|fault| error_at(name, fault))
}

/// Reads the text in a file of at most 65,536 bytes. Error: `TooLong` for a longer file.
pub fn read_whole_text<'a, D: Disk>(disk: &mut D, name: &'a str) -> Result<Vec<u8>, FileError<'a>>
    ensures read { IfOk result (λ text. D.calls disk.new ≡ followed_by (D.calls disk.old)
        (Reads name.entry.now (Some text.items) ∷ [])) }
    ensures bounded { IfOk result (λ text. length text.items ≤ longest_text) }
    ensures stops { IfErr result (StopsIn FileError IsErrorOf
        (Reads name.entry.now None ∷ []) (D.calls disk.old) (D.calls disk.new)) }
{
    let text = read_text(disk, name)?;
    if text.len() > LONGEST_TEXT {
        return Err(FileError::Unusable(name, Why::TooLong(LONGEST_TEXT as u64)));
    }
    Ok(text)
}

/// Reads the texts in these files, each as `read_text` does.
pub fn read_texts<'a, D: Disk>(
    alloc: Global,
    disk: &mut D,
    names: &[&'a str],
) -> Result<Vec<Vec<u8>>, FileError<'a>>
    ensures each { IfOk result (λ texts. length texts.items ≡ length names.now) }
    ensures read { IfOk result (λ texts. D.calls disk.new ≡ followed_by (D.calls disk.old)
        (all_read (map (λ name. name.now) names.now) (map (λ text. text.items) texts.items))) }
    ensures stops { IfErr result (StopsIn FileError IsErrorOf
        (map (λ name. Reads name None) (map (λ name. name.now) names.now))
        (D.calls disk.old) (D.calls disk.new)) }
{
    let mut texts = Vec::new(alloc);
    for name in names {
        texts.push(read_text(disk, name)?)?;
    }
    Ok(texts)
}

/// Creates a file with these bytes, in place of another of its name.
pub fn write_file<'a, D: Disk>(
    disk: &mut D,
    name: &'a str,
    bytes: &[u8],
) -> Result<(), FileError<'a>>
    ensures noted { D.calls disk.new ≡ followed_by (D.calls disk.old)
        (Writes name.entry.now bytes.now (is_ok result) ∷ []) }
    ensures refused { IfErr result (IsOfFile name.entry.now) }
{
    disk.write(name, bytes)
        .map_err(|fault| error_at(name, fault))
}

/// Checks that a file to be written isn't one of these others, which are read or written too. Error: `Itself` if it is.
pub fn check_apart<'a, D: Disk>(
    disk: &mut D,
    name: &'a str,
    others: &[&str],
) -> Result<(), FileError<'a>>
    ensures apart { OnOk result (D.calls disk.new ≡ followed_by (D.calls disk.old)
        (all_apart name.entry.now (map (λ other. other.now) others.now))) }
    ensures refused { IfErr result (StopsIn FileError IsErrorOf
        (all_apart name.entry.now (map (λ other. other.now) others.now))
        (D.calls disk.old) (D.calls disk.new)) }
{
    for other in others {
        if disk.is_one_file(name, other) {
            return Err(FileError::Unusable(name, Why::Itself));
        }
    }
    Ok(())
}
