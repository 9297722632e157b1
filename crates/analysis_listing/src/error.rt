//! The errors of listing the analysis of a rule text or of a pair of tables.

ghost use Rattle.std.specs.Prelude.{◌≡◌};
ghost use Rattle.analysis_listing.specs.declared.error.ListingError.TheVariants.{File, Memory, Table, Write};

use std::alloc::{AllocError, AllocFailed};
use std::io;
use table_file::FileError;
use table_validator::TableFault;
use thiserror::Error;

/// Why nothing or only a part was written.
#[derive(Clone, Copy, Debug, Error)]
pub enum ListingError {
    /// There is no memory for the analysis.
    #[error("out of memory")]
    Memory,
    /// A table file's headers have a fault.
    #[error("{0}")]
    File(FileError),
    /// A table has a fault.
    #[error("{0}")]
    Table(TableFault),
    /// The tables are of different rule texts.
    #[error("the tables are of two rule texts")]
    Apart,
    /// The writer refused bytes.
    #[error("the listing can't be written")]
    Write,
}

impl From<AllocError> for ListingError {
    ghost from_gives = { λ _ e. e ≡ Memory };

    fn from(_refused: AllocError) -> ListingError {
        ListingError::Memory
    }
}

impl<T: Drop> From<AllocFailed<T>> for ListingError {
    ghost from_gives = { λ _ e. e ≡ Memory };

    fn from(_refused: AllocFailed<T>) -> ListingError {
        ListingError::Memory
    }
}

impl From<FileError> for ListingError {
    ghost from_gives = { λ error e. e ≡ File error };

    fn from(error: FileError) -> ListingError {
        ListingError::File(error)
    }
}

impl From<TableFault> for ListingError {
    ghost from_gives = { λ fault e. e ≡ Table fault };

    fn from(fault: TableFault) -> ListingError {
        ListingError::Table(fault)
    }
}

impl From<io::Error> for ListingError {
    ghost from_gives = { λ _ e. e ≡ Write };

    fn from(_refused: io::Error) -> ListingError {
        ListingError::Write
    }
}
