//! The results of a comparison of conditions.

use crate::situation::Situation;

/// Why it isn't known whether a condition can be true where another one is not.
#[derive(Clone, Copy, Debug, PartialEq, Eq)]
pub enum Unsettled {
    /// The question has more than 4,096 comparisons. Each comparison of a condition counts twice, and each `xor` doubles its operands.
    Size,
    /// The allowed steps did not suffice.
    Steps,
    /// Values of fields and ages of watchpoints were found, but no packets that have them.
    Situation,
    /// A comparison reads packets with message id 0, which no stream brings.
    NoTelemetry,
}

/// Whether a condition can be true where another one is not.
#[derive(Debug, Drop)]
pub enum Chance {
    /// After no history.
    Never,
    /// In this situation.
    Possible(Situation),
    /// It isn't known, for this reason.
    Unknown(Unsettled),
}

/// How a changed condition is related to the old one. A rule fails where its condition is true.
#[derive(Debug, Drop)]
pub enum ConditionChange {
    /// Both have the same result after every history.
    Same,
    /// Both have the same result after every history, except that one may be stale where the other is in error.
    SameButForStaleAndError,
    /// Both are true after the same histories.
    FailsAlike,
    /// The new one is true only where the old one is. In this situation only the old one is true.
    FailsOnlyWhere(Situation),
    /// The new one is true wherever the old one is. In this situation only the new one is true.
    FailsWherever(Situation),
    /// Each can be true where the other one is not.
    Differs {
        /// Only the old one is true.
        lost: Situation,
        /// Only the new one is true.
        gained: Situation,
    },
    /// At least one direction isn't known.
    NotKnown {
        /// Whether the old one can be true where the new one is not.
        lost: Chance,
        /// Whether the new one can be true where the old one is not.
        gained: Chance,
    },
}
