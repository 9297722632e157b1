//! Why a run stops.

/// Why a run stops.
#[derive(Clone, Copy, Debug, PartialEq, Eq)]
pub enum Halt {
    /// The next record is bad.
    NoRecord,
    /// A read failed.
    Fault,
    /// The most reads were made.
    Bound,
    /// A write failed after this many bytes of the record's output.
    Unsent(u64),
}
