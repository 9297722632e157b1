//! The outcome of one call that handles a record.

/// The outcome of one call that handles a record.
#[derive(Clone, Copy, Debug, PartialEq, Eq)]
pub enum Handled {
    /// The record was handled.
    Whole,
    /// The next bytes are not a valid record. No later call handles anything.
    NoRecord,
    /// No whole record is held yet; nothing was handled.
    Part,
}
