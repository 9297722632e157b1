//! The entries of a schedule.

/// A request for the Limit Checker.
#[derive(Clone, Copy, Debug, Default, PartialEq, Eq)]
pub enum Entry {
    /// A sample of the rules from the first to the last, or of all rules with 0xFFFF for both, and whether the watchpoints age
    /// afterwards.
    Sample { first: u16, last: u16, ages: bool },
    /// A request for the Limit Checker's housekeeping.
    #[default]
    Housekeeping,
}
