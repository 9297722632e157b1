//! The errors of the table services.

ghost use Rattle.std.specs.Prelude.{◌≡◌};
ghost use Rattle.tbl_service.specs.Error.{error_code};
ghost use Rattle.tbl_service.specs.declared.error.TableError.TheVariants.{Memory};

use std::alloc::{AllocError, AllocFailed};
use table_file::FileError;
use thiserror::Error;

/// Why a call is refused; a refused call changes nothing.
#[derive(Clone, Copy, Debug, PartialEq, Eq, Error)]
pub enum TableError {
    /// No file with this name is stored.
    #[error("no such file")]
    NoFile,
    /// The file is not a valid table file; it has this fault.
    #[error("the file does not open: {0}")]
    FileFault(FileError),
    /// No table with this name is registered.
    #[error("no such table")]
    UnknownTable,
    /// The image's length is none of the table's sizes.
    #[error("the image has another size than the table")]
    WrongSize,
    /// An activated image waits for its owner to take it.
    #[error("an activated image waits")]
    UpdatePending,
    /// The table has no waiting image.
    #[error("no image waits")]
    NothingLoaded,
    /// The owner has not found the waiting image valid.
    #[error("the image was not found valid")]
    NotValidated,
    /// Eight files with other names are stored.
    #[error("eight files are stored")]
    StoreFull,
    /// The file has more than 32,768 bytes.
    #[error("the file is too long")]
    FileTooLong,
    /// The seat has two tables already, or the name is taken.
    #[error("no place for the table, or its name is taken")]
    NoSlot,
    /// There is no memory for files and images. Only `Tables::new` returns this error.
    #[error("out of memory")]
    Memory,
}

impl<T: Drop> From<AllocFailed<T>> for TableError {
    ghost from_gives = { λ _ e. e ≡ Memory };

    fn from(_failed: AllocFailed<T>) -> TableError {
        TableError::Memory
    }
}

impl From<AllocError> for TableError {
    ghost from_gives = { λ _ e. e ≡ Memory };

    fn from(_error: AllocError) -> TableError {
        TableError::Memory
    }
}

impl TableError {
    /// Returns the refusal's number, 111 to 120, or `None` for `Memory`: then the call isn't at fault.
    pub fn code(self) -> Option<u8>
        ensures { result ≡ error_code self }
    {
        match self {
            TableError::NoFile => Some(111),
            TableError::FileFault(_fault) => Some(112),
            TableError::UnknownTable => Some(113),
            TableError::WrongSize => Some(114),
            TableError::UpdatePending => Some(115),
            TableError::NothingLoaded => Some(116),
            TableError::NotValidated => Some(117),
            TableError::StoreFull => Some(118),
            TableError::FileTooLong => Some(119),
            TableError::NoSlot => Some(120),
            TableError::Memory => None,
        }
    }
}
