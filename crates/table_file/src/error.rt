//! Why a table file can't be opened or written.

ghost use Rattle.std.specs.Prelude.{◌≡◌};
ghost use Rattle.table_file.specs.Error.{error_code};
ghost use Rattle.table_file.specs.declared.error.FileError.TheVariants.{Memory};

use std::alloc::AllocError;
use thiserror::Error;

/// The first fault of a file's headers, or lack of memory for what is written.
#[derive(Clone, Copy, Debug, PartialEq, Eq, Error)]
pub enum FileError {
    /// Fewer bytes than the two headers have.
    #[error("the file has under 116 bytes")]
    ShortFile,
    /// Another content type than cFE's.
    #[error("no cFE file")]
    NotCfe,
    /// Another subtype than a table's.
    #[error("no table file")]
    WrongSubtype,
    /// Another length of the file header than 64.
    #[error("the file header's length isn't 64")]
    HeaderLength,
    /// The image doesn't begin at the table's first byte.
    #[error("a part of a table")]
    PartialLoad,
    /// The number of bytes in the table header is not that of the image.
    #[error("the image has another length than its header says")]
    SizeMismatch,
    /// No memory for the bytes that are written.
    #[error("out of memory")]
    Memory,
}

impl From<AllocError> for FileError {
    ghost from_gives = { λ _ e. e ≡ Memory };

    fn from(_refused: AllocError) -> FileError {
        FileError::Memory
    }
}

impl FileError {
    /// The fault's number, 51 to 56. `Memory` has none, since the file isn't at fault.
    pub fn code(self) -> Option<u8>
        ensures { result ≡ error_code self }
    {
        match self {
            FileError::ShortFile => Some(51),
            FileError::NotCfe => Some(52),
            FileError::WrongSubtype => Some(53),
            FileError::HeaderLength => Some(54),
            FileError::PartialLoad => Some(55),
            FileError::SizeMismatch => Some(56),
            FileError::Memory => None,
        }
    }
}
