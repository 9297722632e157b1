//! The reactions to a sampled rule (cFS Limit Checker user's guide; the counts, the maxima and the order of request and events
//! are this project's own).

/// A turn that is reported with an event of `LC`.
#[derive(Clone, Copy, Debug, PartialEq, Eq)]
pub enum Turn {
    /// A failure directly after a pass: event 5.
    ToFail,
    /// A pass directly after a failure: event 6.
    ToPass,
}

/// The reaction to enough failures in a row.
#[derive(Clone, Copy, Debug, PartialEq, Eq)]
pub enum Failure {
    /// The sequence request, and then the rule's own event with this number of failures in a row, up to 65,535.
    Requested(u16),
    /// Event 3: the rule was active, and the Limit Checker is passive.
    LcPassive,
    /// Event 4: the rule was already passive.
    Passive,
}

/// The reactions to a sample of one rule: at most three packets, those of the turn first.
#[derive(Clone, Copy, Debug, PartialEq, Eq)]
pub struct Reactions {
    /// The reported turn, if any.
    pub turn: Option<Turn>,
    /// The reaction to enough failures in a row, if any.
    pub failure: Option<Failure>,
}

/// The reactions of the rule with this number.
#[derive(Clone, Copy, Debug, PartialEq, Eq)]
pub struct Asked {
    /// The number of the rule, from 0.
    pub rule: u16,
    /// At least one of the two is there, in what a sample lists.
    pub reactions: Reactions,
}
