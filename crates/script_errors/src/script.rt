//! Messages about a refused line of a script.

ghost use Rattle.std.specs.Prelude.{◌≡◌, ◌≤◌, IfOk};
ghost use Rattle.script_errors.specs.Line.{line_count};
ghost use Rattle.script_errors.specs.Telling.{IsOn, reason_code};

use crate::body::{body_said, late_said};
use crate::fields::fields_said;
use crate::line::{line_count, line_numbered};
use crate::orders::PACE_PLACE;
use crate::said::{LineMessage, MARK_ADVICE, expected_word, message_on};
use crate::statement::{Statement, VERBS, statement_of};
use crate::wanted::{wanted_said, wrong_said};
use crate::word::{Word, before_comment, nth_word};
use diagnostics::Message;
use std::alloc::{AllocError, Global};
use stream_script::Reason;

/// The advice for a line that begins no statement.
const VERBS_ADVICE: &str = "write `at`, `after`, `fields`, `tick`, `sample`, `start` or another";

/// The same if packets are declared.
const PACKETS_ADVICE: &str =
    "write a packet's name, `after`, `tick`, `start`, `state`, `expect` or another";

/// The number of the message for each reason.
fn code_of(reason: Reason) -> u8
    ensures { result ≡ reason_code reason }
{
    match reason {
        Reason::UnknownStatement => 161,
        Reason::BadNumber => 162,
        Reason::BadBytes => 163,
        Reason::UnknownKind => 164,
        Reason::UnknownType => 165,
        Reason::OutsidePacket => 166,
        Reason::BadBody => 167,
        Reason::LongName => 168,
    }
}

/// The message about a `fields` line: its words, or its fields. None if all are valid one by one.
fn packet_said(
    alloc: Global,
    line: &[u8],
    statement: Statement,
) -> Result<Option<LineMessage>, AllocError> {
    if let Some(said) = wrong_said(alloc, line, 1, statement.wanted)? {
        return Ok(Some(said));
    }
    fields_said(alloc, line)
}

/// The message about a refused line that begins as this statement.
fn statement_said(
    alloc: Global,
    line: &[u8],
    statement: Statement,
) -> Result<LineMessage, AllocError> {
    let said = if statement.has_fields {
        packet_said(alloc, line, statement)?
    } else {
        wanted_said(alloc, line, 1, statement.wanted)?
    };
    match said {
        Some(said) => Ok(said),
        None => body_said(alloc, line),
    }
}

/// All words with which a line may begin, with these names of packets.
fn packets_and_verbs<'a>(alloc: Global, packets: &[&'a [u8]]) -> Result<Vec<&'a [u8]>, AllocError> {
    let mut known = Vec::from_slice(alloc, packets)?;
    for verb in VERBS {
        known.push(*verb)?;
    }
    Ok(known)
}

/// The message about a line that begins no statement, with these declared packets.
fn verb_said(alloc: Global, verb: Word<'_>, packets: &[&[u8]]) -> Result<LineMessage, AllocError> {
    let known = packets_and_verbs(alloc, packets)?;
    let (wanted, advice) = if packets.is_empty() {
        ("a statement", VERBS_ADVICE)
    } else {
        ("a packet's name or a statement", PACKETS_ADVICE)
    };
    if verb.has_order_mark() {
        return expected_word(alloc, verb, &[], wanted, MARK_ADVICE);
    }
    expected_word(alloc, verb, known.as_slice(), wanted, advice)
}

/// The message about a refused line, with these declared packets. A ramp is refused where the seconds between its values go beyond the last
/// moment.
fn line_said(alloc: Global, line: &[u8], packets: &[&[u8]]) -> Result<LineMessage, AllocError> {
    let line = before_comment(line);
    let verb = nth_word(line, 0);
    match statement_of(verb.text) {
        Some(statement) => statement_said(alloc, line, statement),
        None if matches!(verb.text, b"ramp") => late_said(alloc, nth_word(line, PACE_PLACE)),
        None => verb_said(alloc, verb, packets),
    }
}

/// The message about the line with this number.
fn message(
    alloc: Global,
    text: &[u8],
    code: u8,
    number: usize,
    packets: &[&[u8]],
) -> Result<Message, AllocError>
    requires some { 1 ≤ number }
    requires there { number ≤ line_count text.now }
    ensures { IfOk result (IsOn text.now code number) }
{
    let line = line_numbered(text, number);
    let said = line_said(alloc, line.bytes, packets)?;
    message_on(alloc, line, code, said)
}

/// The message about the line with this number, from 1, that the reader refuses for this reason: which word is wrong or missing, and what
/// would be right. If no line has the number, the message is about the nearest line. `packets` are the names of declared packets.
///
/// The message has a number for each reason: 161 no such statement, 162 a number, 163 bytes, 164 a kind of record, 165 a type of a field,
/// 166 a field outside its packet, 167 bytes that such a record can't have, 168 a name that is too long. Error: out of memory.
pub fn script_message(
    alloc: Global,
    text: &[u8],
    number: usize,
    reason: Reason,
    packets: &[&[u8]],
) -> Result<Message, AllocError>
    ensures { 1 ≤ number → number ≤ line_count text.now →
        IfOk result (IsOn text.now (reason_code reason) number) }
{
    let nearest = number.min(line_count(text)).max(1);
    message(alloc, text, code_of(reason), nearest, packets)
}
