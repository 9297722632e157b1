//! The entries of lists of changes (this project's own).

ghost use Rattle.std.specs.Prelude.{◌≡◌};
ghost use Rattle.bounded_history.specs.Changes.{is_said_again, joined};

/// The content of an entry: for a rule its results and states as bits, for a field its least and greatest value.
#[derive(Clone, Copy)]
pub struct Content {
    /// The results of a rule, one bit each; 0 for a field.
    pub results: u8,
    /// The states of a rule, one bit each; 0 for a field.
    pub states: u8,
    /// The least value of a field, above `high` if there is none; 0 for a rule.
    pub low: i64,
    /// The greatest value of a field; 0 for a rule.
    pub high: i64,
}

impl Content {
    /// Whether another content is equal to this one.
    pub fn is_said_by(self, other: Content) -> bool
        ensures { result ≡ is_said_again self other }
    {
        self.results == other.results
            && self.states == other.states
            && self.low == other.low
            && self.high == other.high
    }
}

/// What holds from a record on: one change exactly, or all that several changes had until the next entry.
#[derive(Clone, Copy)]
pub struct Entry {
    /// The number of the record, counted from 1.
    pub from: u64,
    /// The record's time in 1/65,536 s, counted from the first record's.
    pub time: i64,
    /// The content from this record on.
    pub told: Content,
    /// The number of changes that the entry stands for.
    pub changes: u64,
}

impl Entry {
    /// Returns two consecutive entries as one that begins with the first and has the contents of both.
    pub fn join(self, other: Entry) -> Entry
        ensures { result ≡ joined self other }
    {
        Entry {
            from: self.from,
            time: self.time,
            told: Content {
                results: self.told.results | other.told.results,
                states: self.told.states | other.told.states,
                low: self.told.low.min(other.told.low),
                high: self.told.high.max(other.told.high),
            },
            changes: self.changes.saturating_add(other.changes),
        }
    }
}
