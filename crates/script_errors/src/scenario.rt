//! Messages about a refused line of a scenario.

ghost use Rattle.std.specs.Prelude.{◌≡◌, ◌≤◌, IfOk};
ghost use Rattle.script_errors.specs.Line.{line_count};
ghost use Rattle.script_errors.specs.Telling.{IsOn};

use crate::assignment::{other_said, shared_said, unassigned_said, unknown_said, value_said};
use crate::line::{line_count, line_numbered};
use crate::names::{DeclaredNames, NAMES_ADVICE};
use crate::orders::{ALL, order_words};
use crate::said::{LineMessage, advise, expect_word, message_on, said_of};
use crate::wanted::wanted_said;
use crate::word::{Word, are_digits, before_comment, nth_word};
use diagnostics::{Message, nearest, quote};
use scenarios::Reason;
use std::alloc::{AllocError, Global};

/// The number of the message about a line in a rule text's words that is invalid.
pub const NO_WORDS: u8 = 169;

/// The advice for a rule's name or number that no rule text has.
fn rule_advice(word: Word<'_>, names: &DeclaredNames<'_>) -> &'static str {
    if are_digits(word.text) {
        "write the name of a rule, or a number from 0 to 65,534"
    } else if names.is_empty() {
        NAMES_ADVICE
    } else {
        "write the name of a rule"
    }
}

/// The message about a rule's name or number that no rule text has.
fn rule_said(
    alloc: Global,
    word: Word<'_>,
    names: &DeclaredNames<'_>,
) -> Result<LineMessage, AllocError> {
    let rules = names.rules_and(alloc, ALL)?;
    let shown = word.quote(alloc)?;
    let head = format!(in alloc; "no rule text has a rule {shown}")?;
    match nearest(alloc, word.text, rules.as_slice())? {
        Some(meant) => {
            let meant = quote(alloc, meant)?;
            let label = format!(in alloc; "did you mean {meant}?")?;
            Ok(said_of(word, head, label))
        }
        None => advise(alloc, word, head, rule_advice(word, names)),
    }
}

/// The number of words of the line after its first.
fn count_behind(line: &[u8]) -> usize {
    let mut count = 0usize;
    for number in 1..line.len() {
        if nth_word(line, number).is_end() {
            break;
        }
        count = number;
    }
    count
}

/// The message about a line whose words are valid one by one, by the reason.
fn whole_said(alloc: Global, line: &[u8], reason: Reason) -> Result<LineMessage, AllocError> {
    let verb = nth_word(line, 0);
    let (head, advice) = match reason {
        Reason::Unended => ("`repeat` has no `}`", "a line `}` ends what is repeated"),
        Reason::Unbegun => ("`}` ends no `repeat`", "leave it out"),
        Reason::TooLong if verb.text == b"ramp".as_slice() => (
            "the ramp has over 100,000 values, or the script over 1,000,000 lines",
            "write a greater step",
        ),
        Reason::TooLong => (
            "the script has over 1,000,000 lines",
            "up to here it has so many",
        ),
        Reason::NoState => {
            let head = String::from_str(alloc, "all rules can't be off for good")?;
            return advise(
                alloc,
                nth_word(line, 2),
                head,
                "name a rule, or write `disabled`",
            );
        }
        reason => {
            let head = format!(in alloc; "{reason}")?;
            return advise(alloc, verb, head, "this line");
        }
    };
    advise(alloc, verb, String::from_str(alloc, head)?, advice)
}

/// The message about a line that should become a command or other lines.
fn order_said(alloc: Global, line: &[u8], reason: Reason) -> Result<LineMessage, AllocError> {
    let verb = nth_word(line, 0);
    let said = match order_words(verb.text, count_behind(line)) {
        Some(wanted) => wanted_said(alloc, line, 1, wanted)?,
        None => None,
    };
    match said {
        Some(said) => Ok(said),
        None => whole_said(alloc, line, reason),
    }
}

/// The message about a line that would end a repetition if no words stood after its `}`. None if the line is no such line.
fn end_said(alloc: Global, line: &[u8]) -> Result<Option<LineMessage>, AllocError> {
    let behind = nth_word(line, 1);
    if !matches!(nth_word(line, 0).text, b"}") || behind.is_end() {
        return Ok(None);
    }
    let advice = "`}` has a line of its own";
    Ok(Some(expect_word(alloc, behind, "the end of the line", advice)?))
}

/// The message about a line that is refused for this reason, with these declared names.
fn line_said(
    alloc: Global,
    line: &[u8],
    reason: Reason,
    names: &DeclaredNames<'_>,
) -> Result<LineMessage, AllocError> {
    let said = match reason {
        Reason::NoField => unassigned_said(alloc, line, names)?,
        Reason::OtherField => other_said(alloc, line, names)?,
        Reason::UnknownField => unknown_said(alloc, line, names)?,
        Reason::BadNumber | Reason::OutsideType | Reason::OutsideMask => {
            value_said(alloc, line, names)?
        }
        Reason::TwoValues => shared_said(alloc, line, names)?,
        Reason::UnknownRule => Some(rule_said(alloc, nth_word(line, 1), names)?),
        Reason::Unended => end_said(alloc, line)?,
        _ => None,
    };
    match said {
        Some(said) => Ok(said),
        None => order_said(alloc, line, reason),
    }
}

/// The message about the line with this number.
fn message(
    alloc: Global,
    text: &[u8],
    number: usize,
    reason: Reason,
    names: &DeclaredNames<'_>,
) -> Result<Message, AllocError>
    requires some { 1 ≤ number }
    requires there { number ≤ line_count text.now }
    ensures { IfOk result (IsOn text.now 169 number) }
{
    let line = line_numbered(text, number);
    let said = line_said(alloc, before_comment(line.bytes), reason, names)?;
    message_on(alloc, line, NO_WORDS, said)
}

/// The message, with number 169, about the line with this number, from 1, of a scenario, which is refused for this reason: which word is
/// wrong or missing, and what would be right, with these declared names. If no line has the number, the message is about the nearest line.
///
/// Error: out of memory.
pub fn scenario_message(
    alloc: Global,
    text: &[u8],
    number: usize,
    reason: Reason,
    names: &DeclaredNames<'_>,
) -> Result<Message, AllocError>
    ensures { 1 ≤ number → number ≤ line_count text.now → IfOk result (IsOn text.now 169 number) }
{
    let nearest = number.min(line_count(text)).max(1);
    message(alloc, text, nearest, reason, names)
}
