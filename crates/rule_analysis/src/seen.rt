//! The truth of a condition after some packets.

ghost use Rattle.std.specs.Prelude.{◌≡◌, IsTrue, option_map};
ghost use Rattle.std.specs.List.{AllByRecursion};
ghost use Rattle.lc_model.specs.Condition.{condition_of};
ghost use Rattle.lc_model.specs.Field.{value_of};
ghost use Rattle.lc_model.specs.LimitChecker.Watch.{judgement, last_packet, truth_of, truth_of_term};
ghost use Rattle.rule_analysis.specs.Findings.{IsTelemetry, Shows, value_seen};
ghost use Rattle.rule_analysis.specs.Came.{history_of};

use lc_model::packet::{padded_message_id, stream_fault};
use lc_model::{Cond, Term, Truth, mids};

/// The value of the term's field in a packet; `None` if the packet ends before the field does.
pub fn value_in(term: &Term, packet: &[u8]) -> Option<i64>
    ensures { result ≡ value_of term.now packet.now }
{
    let start = term.offset as usize;
    let end = start + term.kind.width();
    if packet.len() < end {
        return None;
    }
    let bits = term.kind.bits_in(&packet[start..end]);
    Some(term.kind.signed_value(bits & term.mask))
}

/// The latest packet of a message id. The packets are listed latest first.
pub fn last_of(packets: &[Vec<u8>], mid: u16) -> Option<&[u8]>
    ensures { last_packet mid (history_of packets.now) ≡ option_map (λ packet.
        (packet.now, 0)) result }
{
    for packet in packets {
        if padded_message_id(packet) == mid {
            return Some(packet);
        }
    }
    None
}

/// The value of the term's field in the latest packet of its message id; packets are listed latest first. `None` if there is no such
/// packet, or if it ends before the field does.
pub fn value_with(term: &Term, packets: &[Vec<u8>]) -> Option<i64>
    ensures { result ≡ value_seen term.now (last_packet term.now.mid (history_of packets.now)) }
{
    match last_of(packets, term.mid) {
        None => None,
        Some(packet) => value_in(term, packet),
    }
}

/// The bits of the term's field in the latest packet of its message id; packets are listed latest first. `None` if there is no such
/// packet, or if it ends before the field does.
pub(crate) fn bits_with(term: &Term, packets: &[Vec<u8>]) -> Option<u32> {
    let packet = last_of(packets, term.mid)?;
    let start = term.offset as usize;
    let bytes = packet.get(start..start + term.kind.width())?;
    Some(term.kind.bits_in(bytes) & term.mask)
}

/// The truth of the term after these packets.
fn term_with(term: &Term, packets: &[Vec<u8>]) -> Truth
    ensures { result ≡ truth_of_term term.now (history_of packets.now) }
{
    match last_of(packets, term.mid) {
        None => Truth::Stale,
        Some(packet) => match value_in(term, packet) {
            None => Truth::Error,
            Some(value) => if term.op.holds(value, term.value) {
                Truth::True
            } else {
                Truth::False
            },
        },
    }
}

/// The truth of the condition after these packets.
fn truth_with(cond: &Cond, packets: &[Vec<u8>]) -> Truth
    ensures { result ≡ truth_of (condition_of cond.now) (history_of packets.now) }
{
    match cond {
        Cond::Watch(term) => term_with(term, packets),
        Cond::Not(operand) => truth_with(operand, packets).not(),
        Cond::And(operands) => {
            truth_with(&operands.0, packets).and(truth_with(&operands.1, packets))
        }
        Cond::Or(operands) => {
            truth_with(&operands.0, packets).or(truth_with(&operands.1, packets))
        }
        Cond::Xor(operands) => {
            truth_with(&operands.0, packets).xor(truth_with(&operands.1, packets))
        }
    }
}

/// Whether the packet is telemetry that a stream may bring.
fn is_telemetry(packet: &[u8]) -> bool
    ensures only { IsTrue result → IsTelemetry packet.now }
    ensures all { IsTelemetry packet.now → IsTrue result }
{
    stream_fault(packet).is_none() && mids::is_telemetry(padded_message_id(packet))
}

/// Whether all these packets are telemetry that a stream may bring.
pub fn are_telemetry(packets: &[Vec<u8>]) -> bool
    ensures only { IsTrue result → AllByRecursion (λ packet. IsTelemetry packet.items) packets.now }
    ensures all { AllByRecursion (λ packet. IsTelemetry packet.items) packets.now → IsTrue result }
{
    for packet in packets {
        if !is_telemetry(packet) {
            return false;
        }
    }
    true
}

/// Whether these packets may come and make the condition true.
pub(crate) fn shows(cond: &Cond, packets: &[Vec<u8>]) -> bool
    ensures only { IsTrue result → Shows (condition_of cond.now) packets.now }
    ensures all { Shows (condition_of cond.now) packets.now → IsTrue result }
{
    are_telemetry(packets) && truth_with(cond, packets) == Truth::True
}
