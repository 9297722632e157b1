//! The state and last result of a rule.

ghost use Rattle.std.specs.Prelude.{◌≡◌, option_map};
ghost use Rattle.run_stepper.specs.Trace.{standing_in};

use lc_model::{ApMode, ApResult};
use limit_engine::Engine;

/// The state and last result of a rule at a place of the stream.
#[derive(Clone, Copy, Debug, PartialEq, Eq)]
pub enum RuleStanding {
    /// No Limit Checker runs.
    Stopped,
    /// The tables in force have no rule with this number.
    NoRule,
    /// The rule's state, and its last result; none before its first sample.
    Stands {
        state: ApMode,
        last: Option<ApResult>,
    },
}

/// The state and last result of the rule with this number in an engine, if there is one.
pub(crate) fn standing_in(checker: Option<&Engine>, rule: usize) -> RuleStanding
    ensures { result ≡ standing_in (option_map (λ engine. engine.now) checker.entry) rule }
{
    match checker {
        None => RuleStanding::Stopped,
        Some(engine) => {
            if rule >= engine.rule_count() {
                return RuleStanding::NoRule;
            }
            let standing = engine.standing(rule);
            RuleStanding::Stands {
                state: standing.state,
                last: standing.last,
            }
        }
    }
}
