//! Why the runs of a comparison ended before the stream did.

use thiserror::Error;

/// Why both runs ended before the end of the stream. Both have as many rule texts, so they end at the same record. Records
/// count from 1.
#[derive(Clone, Copy, Debug, PartialEq, Eq, Error)]
pub enum Stop {
    /// Record `n` brings a half of the rule text of this number, which is not given.
    #[error("record {n} names rule text {text}, which is not given")]
    NoText { n: u64, text: usize },
    /// Record `n` is none, for another reason.
    #[error("record {n} is none")]
    NoRecord { n: u64 },
    /// The stream ends inside record `n`.
    #[error("the stream ends inside record {n}")]
    Cut { n: u64 },
}
