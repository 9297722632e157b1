//! The state and last result of each rule, as housekeeping reports it (cFS Limit Checker user's guide; the layout is this
//! project's own).

ghost use Rattle.std.specs.Prelude.{◌≡◌, ◌≤◌, length, map};
ghost use Rattle.lc_model.specs.Codes.{table_entries};
ghost use Rattle.lc_model.specs.Events.Outgoing.{standing_byte};
ghost use Rattle.lc_model.specs.Kept.Next.{by_counts};
ghost use Rattle.lc_model.specs.LimitChecker.Steps.{standing};
ghost use Rattle.limit_checker.specs.Standings.{standing_of};

use arrayvec::ArrayVec;
use lc_model::{ApResult, TABLE_ENTRIES};
use limit_engine::{Engine, Standing};

/// A rule in one byte: its state in the upper four bits, its last result in the lower.
fn byte_of(standing: Standing) -> u8
    ensures { result ≡ standing_byte (standing_of standing) }
{
    16 * standing.state.code() + ApResult::last_code(standing.last)
}

/// A byte for each rule, in order.
pub(crate) fn standings(engine: &Engine) -> ArrayVec<u8, TABLE_ENTRIES>
    ensures bytes { result.items ≡ map standing_byte (map (standing by_counts) engine.now.points) }
    ensures few { length result.items ≤ table_entries }
{
    let mut bytes = ArrayVec::new();
    let count = engine.rule_count();
    for index in 0..count {
        bytes.push(byte_of(engine.standing(index)));
    }
    bytes
}
