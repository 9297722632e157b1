//! Why a file can't be used.

ghost use Rattle.std.specs.Prelude.{◌≡◌, Some};
ghost use Rattle.std.specs.IoError.{error_kind};
ghost use Rattle.program_io.specs.Why.{fault_by, reason, why_of};

use std::fmt::{self, Display, Formatter, Write};
use std::io::{self, ErrorKind};

/// Why a file can't be used, as the system reports it.
#[derive(Clone, Copy, Debug, PartialEq, Eq)]
pub enum Why {
    /// There is no file of that name.
    NotThere,
    /// The system doesn't allow it.
    NotAllowed,
    /// It is a folder.
    Folder,
    /// The part before its last `/` isn't a folder.
    NoFolder,
    /// The device has no room.
    Full,
    /// The same call also reads it, or writes it twice.
    Itself,
    /// It is a link that leads nowhere.
    Nowhere,
    /// It is a link that leads back to itself.
    Loop,
    /// Another user owns it.
    NotOwn,
    /// It would be replaced by a stream, and it is none.
    NoStream,
    /// It would be replaced by an archive of packets, and it is none.
    NoArchive,
    /// It would be replaced by a page, and it is no page.
    NoPage,
    /// It is `-`, which names no file that is written.
    Dash,
    /// It is longer than this greatest length for files of its kind, in bytes.
    TooLong(u64),
    /// It failed for another reason.
    Failed,
}

impl Display for Why {
    ghost output = { λ why. Some (reason why) };

    fn fmt<W: Write>(&self, f: &mut Formatter<W>) -> fmt::Result {
        match *self {
            Why::NotThere => write!(f, "there is none of that name"),
            Why::NotAllowed => write!(f, "the system does not allow it"),
            Why::Folder => write!(f, "it is a folder"),
            Why::NoFolder => write!(f, "what stands before its last / is no folder"),
            Why::Full => write!(f, "the device is full"),
            Why::Itself => write!(f, "the same call reads it, or writes it twice"),
            Why::Nowhere => write!(f, "it is a link that leads nowhere"),
            Why::Loop => write!(f, "it is a link that leads back to itself"),
            Why::NotOwn => write!(f, "another user owns it"),
            Why::NoStream => write!(f, "it is no stream, and the last name is the stream's"),
            Why::NoArchive => write!(f, "it is no archive, and the last name is the archive's"),
            Why::NoPage => write!(f, "it is no page, and the third name is the page's"),
            Why::Dash => write!(
                f,
                "write /dev/stdout for standard output, or ./- for a file"
            ),
            Why::TooLong(most) => write!(f, "it has more than {most} bytes"),
            Why::Failed => write!(f, "it failed"),
        }
    }
}

/// The error of a call over one file, without its name.
#[derive(Clone, Copy, Debug, PartialEq, Eq)]
pub enum FileFault {
    /// There is no memory.
    Memory,
    /// The file can't be used.
    Unusable(Why),
}

/// The fault for an error of the system.
pub fn fault_of(error: &io::Error) -> FileFault
    ensures { result ≡ fault_by (error_kind error.now) }
{
    match error.kind() {
        ErrorKind::OutOfMemory => FileFault::Memory,
        kind => FileFault::Unusable(reason_for(kind)),
    }
}

/// The reason for an error kind of the system.
pub fn reason_for(kind: ErrorKind) -> Why
    ensures { result ≡ why_of kind }
{
    match kind {
        ErrorKind::NotFound => Why::NotThere,
        ErrorKind::PermissionDenied | ErrorKind::ReadOnlyFilesystem => Why::NotAllowed,
        ErrorKind::IsADirectory => Why::Folder,
        ErrorKind::NotADirectory => Why::NoFolder,
        ErrorKind::StorageFull | ErrorKind::QuotaExceeded | ErrorKind::FileTooLarge => Why::Full,
        ErrorKind::FilesystemLoop => Why::Loop,
        _ => Why::Failed,
    }
}
