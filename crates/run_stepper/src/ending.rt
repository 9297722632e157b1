//! How a stream ended.

/// How a stream ended.
#[derive(Clone, Copy, Debug, PartialEq, Eq)]
pub enum Ending {
    /// After its last record. `records` is the number of records.
    Whole { records: u64 },
    /// Record `n`, counted from 1, is not a valid record.
    NoRecord { n: u64 },
    /// Inside record `n`, counted from 1.
    Cut { n: u64 },
    /// At the bound of reads. `watch` never returns it.
    Bound,
}
