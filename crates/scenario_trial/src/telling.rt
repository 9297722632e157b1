//! Unmet expectations in words, with what came instead.

ghost use Rattle.std.specs.Prelude.{◌≡◌};
ghost use Rattle.scenario_trial.specs.Telling as model;

use crate::expectation::{Arrival, ArrivalKind, Span, What};
use lc_model::ApResult;
use run_stepper::RuleStanding;
use std::fmt::{self, Display, Formatter, Write};

/// The most arrivals that a message names.
const TOLD: usize = 3;

/// An unmet expectation, by what is found instead.
#[derive(Clone, Copy)]
pub enum Unmet<'a> {
    /// Nothing of this came within these seconds, among all that came.
    Missing {
        what: What,
        span: Span,
        arrivals: &'a [Arrival],
    },
    /// Some of this came within these seconds.
    Came {
        what: What,
        span: Span,
        arrivals: &'a [Arrival],
    },
    /// The rule is in another state.
    State(RuleStanding),
    /// The rule has another result.
    Result(RuleStanding),
}

impl Display for Arrival {
    fn fmt<W: Write>(&self, f: &mut Formatter<W>) -> fmt::Result {
        let word = match self.kind {
            ArrivalKind::Sequence => "sequence",
            ArrivalKind::Event => "event",
            ArrivalKind::HostEvent => "event HOST",
        };
        write!(
            f,
            "{word} {} in second {} (record {})",
            self.number,
            self.second,
            self.place.saturating_add(1)
        )
    }
}

/// Which arrivals a message names: of this kind and number, or all of the same application; within these seconds, or outside.
#[derive(Clone, Copy)]
struct Selection {
    what: What,
    is_alone: bool,
    span: Span,
    is_within: bool,
}

/// Whether a kind is an event of the host itself.
fn is_of_host(kind: ArrivalKind) -> bool {
    matches!(kind, ArrivalKind::HostEvent)
}

impl Selection {
    /// Whether a message names this arrival.
    fn takes(self, one: Arrival) -> bool {
        let is_asked = if self.is_alone {
            self.what.is(one)
        } else {
            is_of_host(one.kind) == is_of_host(self.what.kind)
        };
        is_asked && self.span.holds(one.second) == self.is_within
    }
}

/// Writes the first few of these arrivals after some words. Returns whether there is one.
fn say_those<W: Write>(
    words: &str,
    which: Selection,
    arrivals: &[Arrival],
    f: &mut Formatter<W>,
) -> Result<bool, fmt::Error> {
    let mut count = 0usize;
    for one in arrivals {
        if which.takes(*one) {
            if count == TOLD {
                write!(f, " ..")?;
                return Ok(true);
            }
            let sign = if count == 0 { words } else { ", " };
            write!(f, "{sign}{one}")?;
            count = count.saturating_add(1);
        }
    }
    Ok(count > 0)
}

/// Writes what came instead: the expected arrival at other times, or else other arrivals in its seconds.
fn say_missing<W: Write>(
    what: What,
    span: Span,
    arrivals: &[Arrival],
    f: &mut Formatter<W>,
) -> fmt::Result {
    let elsewhere = Selection {
        what,
        is_alone: true,
        span,
        is_within: false,
    };
    if say_those("there came ", elsewhere, arrivals, f)? {
        return Ok(());
    }
    let others = Selection {
        what,
        is_alone: false,
        span,
        is_within: true,
    };
    if say_those("there came ", others, arrivals, f)? {
        return Ok(());
    }
    write!(f, "nothing came")
}

/// The words for a rule's last result.
fn result_word(last: Option<ApResult>) -> &'static str
    ensures { result.now ≡ model.result_word last }
{
    match last {
        None => "no result",
        Some(ApResult::Pass) => "pass",
        Some(ApResult::Fail) => "fail",
        Some(ApResult::Stale) => "stale",
        Some(ApResult::Error) => "error",
    }
}

/// Writes why a rule isn't found.
fn say_not_found<W: Write>(found: RuleStanding, f: &mut Formatter<W>) -> fmt::Result {
    match found {
        RuleStanding::NoRule => write!(f, "the tables in force have no such rule"),
        RuleStanding::Stopped => write!(f, "the Limit Checker doesn't run"),
        RuleStanding::Stands { .. } => Ok(()),
    }
}

impl Display for Unmet<'_> {
    fn fmt<W: Write>(&self, f: &mut Formatter<W>) -> fmt::Result {
        match *self {
            Unmet::Missing {
                what,
                span,
                arrivals,
            } => say_missing(what, span, arrivals, f),
            Unmet::Came {
                what,
                span,
                arrivals,
            } => {
                let those = Selection {
                    what,
                    is_alone: true,
                    span,
                    is_within: true,
                };
                let _is_told = say_those("there came ", those, arrivals, f)?;
                Ok(())
            }
            Unmet::State(RuleStanding::Stands { state, .. }) => write!(f, "it is {}", state.word()),
            Unmet::Result(RuleStanding::Stands { last, .. }) => write!(
                f,
                "its last result is {}",
                result_word(last)
            ),
            Unmet::State(found) | Unmet::Result(found) => say_not_found(found, f),
        }
    }
}
