//! The errors of writing a listing.

ghost use Rattle.std.specs.Prelude.{◌≡◌};
ghost use Rattle.table_listing.specs.declared.error.ListingError.TheVariants.{Memory, Write};

use std::alloc::AllocError;
use std::io;
use thiserror::Error;

/// Why a listing ends early. A fault of the file is no error: the listing reports it.
#[derive(Clone, Copy, Debug, PartialEq, Eq, Error)]
pub enum ListingError {
    /// There is no memory for an equation's condition.
    #[error("out of memory")]
    Memory,
    /// The writer refused bytes.
    #[error("the listing can't be written")]
    Write,
}

impl From<AllocError> for ListingError {
    ghost from_gives = { λ _ e. e ≡ Memory };

    fn from(_refused: AllocError) -> ListingError {
        ListingError::Memory
    }
}

impl From<io::Error> for ListingError {
    ghost from_gives = { λ _ e. e ≡ Write };

    fn from(_refused: io::Error) -> ListingError {
        ListingError::Write
    }
}
