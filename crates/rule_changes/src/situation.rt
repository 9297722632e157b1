//! The truth of a condition after some packets and agings.

ghost use Rattle.std.specs.Prelude.{◌≡◌, IsTrue, option_map};
ghost use Rattle.lc_model.specs.Condition.{condition_of};
ghost use Rattle.lc_model.specs.LimitChecker.Watch.{is_stale, judgement, last_packet, truth_of, truth_of_term};
ghost use Rattle.lc_model.specs.Field.{value_of};
ghost use Rattle.rule_changes.specs.Situations.{ShowsOnlyFirst, history_in};

use lc_model::{Cond, Term, Truth};
use rule_analysis::{are_telemetry, last_of, value_in};

/// What came before a sample: first the earlier packets, then agings, then the recent packets. Both lists have their last packet first.
#[derive(Debug, Drop)]
pub struct Situation {
    /// The packets after which no watchpoint aged.
    pub recent: Vec<Vec<u8>>,
    /// How many times all watchpoints aged before these packets.
    pub agings: u32,
    /// The packets before the agings.
    pub earlier: Vec<Vec<u8>>,
}

/// The truth of the term after this packet came last.
fn term_with(term: &Term, packet: &[u8]) -> Truth
    ensures { result ≡ judgement term.now (value_of term.now packet.now) }
{
    match value_in(term, packet) {
        None => Truth::Error,
        Some(value) => if term.op.holds(value, term.value) {
            Truth::True
        } else {
            Truth::False
        },
    }
}

/// Whether the term is stale after this many agings.
fn is_stale(term: &Term, agings: u32) -> bool
    ensures { result ≡ is_stale term.now agings }
{
    term.stale > 0 && term.stale <= agings
}

/// The last packet of a message id in a situation, and the agings since; `None` if none came.
fn last_in(situation: &Situation, mid: u16) -> Option<(&[u8], u32)>
    ensures { last_packet mid (history_in situation.now) ≡
        option_map (λ seen. (seen.0.now, seen.1)) result }
{
    if let Some(packet) = last_of(&situation.recent, mid) {
        return Some((packet, 0));
    }
    match last_of(&situation.earlier, mid) {
        None => None,
        Some(packet) => Some((packet, situation.agings)),
    }
}

/// The truth of the term in a situation.
fn term_in(term: &Term, situation: &Situation) -> Truth
    ensures { result ≡ truth_of_term term.now (history_in situation.now) }
{
    match last_in(situation, term.mid) {
        None => Truth::Stale,
        Some((packet, agings)) => if is_stale(term, agings) {
            Truth::Stale
        } else {
            term_with(term, packet)
        },
    }
}

/// The truth of the condition in a situation.
fn truth_in(cond: &Cond, situation: &Situation) -> Truth
    ensures { result ≡ truth_of (condition_of cond.now) (history_in situation.now) }
{
    match cond {
        Cond::Watch(term) => term_in(term, situation),
        Cond::Not(operand) => truth_in(operand, situation).not(),
        Cond::And(operands) => {
            truth_in(&operands.0, situation).and(truth_in(&operands.1, situation))
        }
        Cond::Or(operands) => {
            truth_in(&operands.0, situation).or(truth_in(&operands.1, situation))
        }
        Cond::Xor(operands) => {
            truth_in(&operands.0, situation).xor(truth_in(&operands.1, situation))
        }
    }
}

/// Whether a stream may bring this situation, and the first condition is true in it and the second one is not.
pub(crate) fn shows_only_first(first: &Cond, second: &Cond, situation: &Situation) -> bool
    ensures { IsTrue result →
        ShowsOnlyFirst (condition_of first.now) (condition_of second.now) situation.now }
{
    are_telemetry(&situation.recent)
        && are_telemetry(&situation.earlier)
        && truth_in(first, situation) == Truth::True
        && truth_in(second, situation) != Truth::True
}
