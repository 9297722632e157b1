//! Places in a run, and the results and states of rules there.

use lc_model::{ApMode, ApResult};

/// The place of a record in a run.
#[derive(Clone, Copy)]
pub struct Place {
    /// The record's number, counted from 1.
    pub record: u64,
    /// Its time less that of the first record, in 1/65,536 s.
    pub time: i64,
}

/// Whether two places are equal.
pub(crate) fn is_place(one: Place, other: Place) -> bool {
    one.record == other.record && one.time == other.time
}

/// The result, state and failures in a row of a rule.
#[derive(Clone, Copy)]
pub struct Stand {
    /// The bit of its last result (`result_bit`); 1 if there is no such rule.
    pub result: u8,
    /// The bit of its state (`state_bit`); 0 if there is no such rule.
    pub state: u8,
    /// How often it failed in a row.
    pub fails: u16,
}

/// The value for a rule that doesn't exist.
pub const ABSENT: Stand = Stand {
    result: 1,
    state: 0,
    fails: 0,
};

/// The rule with this number; `ABSENT` if there is none.
pub fn stand_in(stands: &[Stand], rule: usize) -> Stand {
    match stands.get(rule) {
        Some(stand) => *stand,
        None => ABSENT,
    }
}

/// The bit of the result fail.
pub const FAIL: u8 = 32;

/// The bit of the state active: the rule may request its sequence.
pub const ACTIVE: u8 = 1;

/// The bit of the state passive: the rule has requested its sequence, or may not request it.
pub const PASSIVE: u8 = 2;

/// The bit of a result: 2 for none, then 4, 8, 16 and 32 for pass, stale, error and fail.
pub fn result_bit(last: Option<ApResult>) -> u8 {
    match last {
        None => 2,
        Some(ApResult::Pass) => 4,
        Some(ApResult::Stale) => 8,
        Some(ApResult::Error) => 16,
        Some(ApResult::Fail) => FAIL,
    }
}

/// The bit of a state: 1, 2, 4 and 8 for active, passive, disabled and off for good.
pub fn state_bit(state: ApMode) -> u8 {
    match state {
        ApMode::Active => ACTIVE,
        ApMode::Passive => PASSIVE,
        ApMode::Disabled => 4,
        ApMode::PermOff => 8,
    }
}
