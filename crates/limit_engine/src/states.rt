//! Modes and states that commands set (cFS Limit Checker user's guide; the numbers and the refusals are this project's own).

ghost use Rattle.std.specs.Prelude.{◌≡◌, map};
ghost use Rattle.lc_model.specs.Command.{state_numbered};
ghost use Rattle.lc_model.specs.LimitChecker.Steps.{all_set, one_set, settable, states_set, turned_permanently_off};
ghost use Rattle.limit_engine.specs.States.{answered, outcome, refusal_number, unless_refused};

use crate::actionpoint::Point;
use lc_model::{ALL_RULES, ApMode};
use thiserror::Error;

/// Why a command did not set a mode or a state.
#[derive(Clone, Copy, Debug, PartialEq, Eq, Error)]
pub enum StateRefusal {
    /// No rule has the number.
    #[error("no rule has the number")]
    BadIndex,
    /// The number is not that of a mode or state that a command may set, 1 to 3.
    #[error("no mode or no state that may be set has the number")]
    BadMode,
    /// The rule's state does not allow the change.
    #[error("the rule's state does not allow the change")]
    NotSettable,
}

impl StateRefusal {
    /// The number of the refusal, 153 to 155, for the event of the refused command.
    pub fn code(self) -> u8
        ensures { result ≡ refusal_number self }
    {
        match self {
            StateRefusal::BadIndex => 153,
            StateRefusal::BadMode => 154,
            StateRefusal::NotSettable => 155,
        }
    }
}

/// Sets the state of all rules that are not off for good.
fn set_all(points: &mut [Point], state: ApMode)
    ensures { points.new ≡ all_set state points.old }
{
    for point in points.iter_mut() {
        point.set_unless_off(state);
    }
}

/// Sets the state of one rule, unless it is off for good. `number` is the state's.
fn set_one(points: &mut [Point], index: u16, number: u16) -> Result<(), StateRefusal>
    ensures answer { answered result ≡ outcome (one_set index (settable number) points.old) }
    ensures points { points.new ≡ unless_refused (one_set index (settable number) points.old)
        points.old }
{
    let index = usize::from(index);
    if points.len() <= index {
        return Err(StateRefusal::BadIndex);
    }
    let Some(state) = ApMode::from_code(number) else {
        return Err(StateRefusal::BadMode);
    };
    if points[index].is_permanently_off() {
        return Err(StateRefusal::NotSettable);
    }
    points[index].set(state);
    Ok(())
}

/// Sets the state of the rule with this number, or of all rules (0xFFFF). `number` is the state's.
pub(crate) fn set_state(points: &mut [Point], index: u16, number: u16) -> Result<(), StateRefusal>
    ensures answer { answered result ≡ outcome (states_set index number points.old) }
    ensures points { points.new ≡ unless_refused (states_set index number points.old) points.old }
{
    if index != ALL_RULES {
        return set_one(points, index, number);
    }
    let Some(state) = ApMode::from_code(number) else {
        return Err(StateRefusal::BadMode);
    };
    set_all(points, state);
    Ok(())
}

/// Turns the rule with this number, which has to be disabled, off for good.
pub(crate) fn turn_permanently_off(points: &mut [Point], index: u16) -> Result<(), StateRefusal>
    ensures answer { answered result ≡ outcome (one_set index turned_permanently_off points.old) }
    ensures points { points.new ≡ unless_refused (one_set index turned_permanently_off points.old)
        points.old }
{
    let index = usize::from(index);
    if points.len() <= index {
        return Err(StateRefusal::BadIndex);
    }
    if !points[index].is_disabled() {
        return Err(StateRefusal::NotSettable);
    }
    points[index].set(ApMode::PermOff);
    Ok(())
}
