//! Old files that a stream, an archive or a page takes the place of.

ghost use Rattle.std.specs.Prelude.{◌≡◌, IfErr};
ghost use Rattle.program_io.specs.Replaced.{begins_packet, begins_stream};
ghost use Rattle.program_io.specs.Stops.{IsOfFile};

use crate::error::{FileError, error_at};
use crate::whole_files::read_front;
use crate::why::Why;
use lc_model::packet::{MESSAGE_IDS, padded_message_id};
use lc_model::stream::{HEADER, body_size, fits_body};
use std::fs::{self, Files};

/// The bytes of a packet with its version, which begins its message id.
const VERSION_SIZE: u64 = 2;

/// Whether a file with these first bytes begins with a record's header.
fn begins_stream(front: &[u8]) -> bool
    ensures { result ≡ begins_stream front.now }
{
    front.len() >= HEADER && fits_body(front[0], body_size(front))
}

/// Whether a file with these first bytes begins with the version of a space packet, which is 0. Text doesn't.
fn begins_packet(front: &[u8]) -> bool
    ensures { result ≡ begins_packet front.now }
{
    usize::from(padded_message_id(front)) < MESSAGE_IDS
}

/// The first bytes of an old file of this name, at most `most`. `None` if there is no such file, it is empty, or it is a device or a
/// pipe.
fn old_front<'a, R: Files + AllocGlobal>(
    rt: &R,
    name: &'a str,
    most: u64,
) -> Result<Option<Vec<u8>>, FileError<'a>>
    ensures { IfErr result (IsOfFile name.entry.now) }
{
    match fs::metadata(rt, name) {
        Ok(there) if there.is_file() && there.len() > 0 => {}
        _ => return Ok(None),
    }
    match read_front(rt, name, most) {
        Ok(front) => Ok(Some(front)),
        Err(fault) => Err(error_at(name, fault)),
    }
}

/// Checks that a stream may replace the file of this name: there is none, it is empty, it is a device or a pipe, or it begins with a
/// record's header. Error: `NoStream` if it begins otherwise, as an archive does.
pub fn check_stream_place<'a, R: Files + AllocGlobal>(
    rt: &R,
    name: &'a str,
) -> Result<(), FileError<'a>>
    ensures { IfErr result (IsOfFile name.entry.now) }
{
    match old_front(rt, name, HEADER as u64)? {
        Some(front) if !begins_stream(front.as_slice()) => {
            Err(FileError::Unusable(name, Why::NoStream))
        }
        _ => Ok(()),
    }
}

/// Checks that an archive may replace the file of this name: there is none, it is empty, it is a device or a pipe, or it begins with a
/// packet's version. Error: `NoArchive` if it begins otherwise, as a rule text does; a stream begins so, too.
pub fn check_archive_place<'a, R: Files + AllocGlobal>(
    rt: &R,
    name: &'a str,
) -> Result<(), FileError<'a>>
    ensures { IfErr result (IsOfFile name.entry.now) }
{
    match old_front(rt, name, VERSION_SIZE)? {
        Some(front) if !begins_packet(front.as_slice()) => {
            Err(FileError::Unusable(name, Why::NoArchive))
        }
        _ => Ok(()),
    }
}

/// Checks that a page that begins with `front` may replace the file of this name: there is none, it is empty, it is a device or a pipe,
/// or it begins so too. Error: `NoPage` if it begins otherwise, as a rule text does.
pub fn check_page_place<'a, R: Files + AllocGlobal>(
    rt: &R,
    name: &'a str,
    front: &[u8],
) -> Result<(), FileError<'a>>
    ensures { IfErr result (IsOfFile name.entry.now) }
{
    match old_front(rt, name, front.len() as u64)? {
        Some(old) if old.as_slice() != front => Err(FileError::Unusable(name, Why::NoPage)),
        _ => Ok(()),
    }
}
