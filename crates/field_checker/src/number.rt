//! The numbers of a rule text that have ranges of their own (those of the cFS Limit Checker's tables).

ghost use Rattle.std.specs.Prelude.{◌≡◌, Some};
ghost use Rattle.field_checker.specs.Number.{least_of, most_of, number_text};

use std::fmt;

/// A number of a rule or a field that has a range of its own.
#[derive(Clone, Copy, Debug, PartialEq, Eq)]
pub enum RuleNumber {
    /// The failures in a row after `fails`, 1 to 65,535.
    Fails,
    /// The command sequence, 1 to 65,535.
    Sequence,
    /// The event's number, 1,000 to 65,535.
    EventId,
    /// The first number after `report`, the most events for failures while passive: 0 to 255.
    ReportPassive,
    /// The second one, the most events for turns from pass to fail: 0 to 65,535.
    ReportPassToFail,
    /// The third one, the most events for turns from fail to pass: 0 to 65,535.
    ReportFailToPass,
    /// A field's stale age in agings, 0 to 4,294,967,295.
    Stale,
}

impl RuleNumber {
    /// The least that the number may be.
    pub fn least(self) -> u32
        ensures { result ≡ least_of self }
    {
        match self {
            RuleNumber::Fails | RuleNumber::Sequence => 1,
            RuleNumber::EventId => 1_000,
            RuleNumber::ReportPassive
            | RuleNumber::ReportPassToFail
            | RuleNumber::ReportFailToPass
            | RuleNumber::Stale => 0,
        }
    }

    /// The most that the number may be.
    pub fn most(self) -> u32
        ensures { result ≡ most_of self }
    {
        match self {
            RuleNumber::ReportPassive => 0xFF,
            RuleNumber::Fails
            | RuleNumber::Sequence
            | RuleNumber::EventId
            | RuleNumber::ReportPassToFail
            | RuleNumber::ReportFailToPass => 0xFFFF,
            RuleNumber::Stale => 0xFFFF_FFFF,
        }
    }
}

impl fmt::Display for RuleNumber {
    ghost output = { λ n. Some (number_text n) };

    fn fmt<W: fmt::Write>(&self, f: &mut fmt::Formatter<W>) -> fmt::Result {
        f.write_str(match self {
            RuleNumber::Fails => "`fails` takes 1 to 65,535",
            RuleNumber::Sequence => "`sequence` takes 1 to 65,535",
            RuleNumber::EventId => "an event has a number from 1,000 to 65,535",
            RuleNumber::ReportPassive => "the first number of `report` is 0 to 255",
            RuleNumber::ReportPassToFail => "the second number of `report` is 0 to 65,535",
            RuleNumber::ReportFailToPass => "the third number of `report` is 0 to 65,535",
            RuleNumber::Stale => "`stale` takes 0 to 4,294,967,295",
        })
    }
}
