//! What is expected of a run.

ghost use Rattle.std.specs.Prelude.{◌≡◌};
ghost use Rattle.scenario_trial.specs.Judged.{has_come, is_number, is_what, is_within, kind_number};

use lc_model::{ApMode, ApResult};

/// What can be expected to come.
#[derive(Clone, Copy, Debug, PartialEq, Eq)]
pub enum ArrivalKind {
    /// A request for a command sequence.
    Sequence,
    /// An event of the Limit Checker.
    Event,
    /// An event of the host itself, whose name is `HOST`.
    HostEvent,
}

impl ArrivalKind {
    /// The kind's number, from 0.
    pub fn number(self) -> u8
        ensures { result ≡ kind_number self }
    {
        match self {
            ArrivalKind::Sequence => 0,
            ArrivalKind::Event => 1,
            ArrivalKind::HostEvent => 2,
        }
    }
}

/// A request or an event with this number; any if there is none.
#[derive(Clone, Copy, Debug, PartialEq, Eq)]
pub struct What {
    pub kind: ArrivalKind,
    pub number: Option<u16>,
}

/// A range of seconds of the stream, both ends included; empty if the last is before the first.
#[derive(Clone, Copy, Debug, PartialEq, Eq)]
pub struct Span {
    pub first: u32,
    pub last: u32,
}

/// What is expected, and in which seconds.
#[derive(Clone, Copy, Debug, PartialEq, Eq)]
pub struct Coming {
    pub what: What,
    pub span: Span,
}

/// An expectation: something comes, nothing comes, or a rule has a state or a last result.
#[derive(Clone, Copy, Debug, PartialEq, Eq)]
pub enum Expectation<'a> {
    /// Something comes within these seconds.
    Comes(Coming),
    /// Nothing of this comes within these seconds.
    Absent(Coming),
    /// A rule is in this state at the expectation's place in the script.
    State(&'a [u8], ApMode),
    /// A rule has this last result at the expectation's place in the script.
    Result(&'a [u8], Option<ApResult>),
}

/// A request or an event that came: its number, and the second of its record.
#[derive(Clone, Copy, Debug, PartialEq, Eq)]
pub struct Arrival {
    /// The number of its record, from 0.
    pub place: usize,
    pub second: u32,
    pub kind: ArrivalKind,
    pub number: u16,
}

/// Whether the number is the expected one, or any number is expected.
fn is_number(asked: Option<u16>, number: u16) -> bool
    ensures { result ≡ is_number asked number }
{
    match asked {
        Some(asked) => asked == number,
        None => true,
    }
}

impl What {
    /// Whether an arrival is of this kind and has the expected number.
    pub fn is(self, came: Arrival) -> bool
        ensures { result ≡ is_what self came }
    {
        self.kind.number() == came.kind.number() && is_number(self.number, came.number)
    }
}

impl Span {
    /// Whether a second is in the range.
    pub fn holds(self, second: u32) -> bool
        ensures { result ≡ is_within self second }
    {
        self.first <= second && second <= self.last
    }
}

/// Whether an expected arrival came within these seconds.
pub fn has_come(what: What, span: Span, came: &[Arrival]) -> bool
    ensures { result ≡ has_come what span came.now }
{
    came.iter()
        .any(|one| what.is(*one) && span.holds(one.second))
}
