//! The part of a run that a page shows.

/// The times of a part of a run, in 1/65,536 s since second 0: it has the records from the first one at `from` or later, up to the next one
/// at `until` or later, which isn't in it.
#[derive(Clone, Copy)]
pub struct Part {
    /// The time at which it begins; `None`: with the first record.
    pub from: Option<u64>,
    /// The time at which it ends; `None`: with the last record.
    pub until: Option<u64>,
}

/// The whole of a run.
pub const WHOLE: Part = Part {
    from: None,
    until: None,
};

/// Where a run stands with regard to the part that is shown.
#[derive(Clone, Copy)]
pub enum Phase {
    /// Before the part.
    Before,
    /// In the part.
    Inside,
    /// After the part.
    After,
}

impl Part {
    /// Whether a record of this time may begin the part.
    fn is_from(self, ticks: u64) -> bool {
        match self.from {
            None => true,
            Some(from) => from <= ticks,
        }
    }

    /// Whether a record of this time ends the part.
    fn is_until(self, ticks: u64) -> bool {
        match self.until {
            None => false,
            Some(until) => until <= ticks,
        }
    }

    /// The phase at a record of this time; `phase` is that at the record before it.
    pub fn phase_after(self, phase: Phase, ticks: u64) -> Phase {
        match phase {
            Phase::Before => if !self.is_from(ticks) {
                Phase::Before
            } else if self.is_until(ticks) {
                Phase::After
            } else {
                Phase::Inside
            },
            Phase::Inside => if self.is_until(ticks) {
                Phase::After
            } else {
                Phase::Inside
            },
            Phase::After => Phase::After,
        }
    }
}

impl Phase {
    /// Whether the part hasn't begun.
    pub fn is_before(self) -> bool {
        match self {
            Phase::Before => true,
            Phase::Inside => false,
            Phase::After => false,
        }
    }

    /// Whether the part begins, or is passed, if the next phase is this one.
    pub fn is_left_for(self, next: Phase) -> bool {
        match self {
            Phase::Before => !next.is_before(),
            Phase::Inside => false,
            Phase::After => false,
        }
    }

    /// Whether the part is over.
    pub fn is_after(self) -> bool {
        match self {
            Phase::Before => false,
            Phase::Inside => false,
            Phase::After => true,
        }
    }
}
