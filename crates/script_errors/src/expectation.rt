//! Messages about an invalid expectation.

ghost use Rattle.std.specs.Prelude.{◌≡◌, ◌≤◌, IfOk};
ghost use Rattle.script_errors.specs.Line.{line_count};
ghost use Rattle.script_errors.specs.Telling.{IsOn};

use crate::line::{line_count, line_numbered};
use crate::orders::{EXPECTED_RESULT, EXPECTED_STATE};
use crate::said::{LineMessage, advise, expected_word, message_on};
use crate::statement::{Wanted, WordShape};
use crate::wanted::{wanted_said, wrong_said};
use crate::word::{Word, before_comment, nth_word};
use diagnostics::Message;
use std::alloc::{AllocError, Global};

/// The number of the message about an invalid expectation.
pub const NO_EXPECTATION: u8 = 170;

/// The words for what may be expected.
const EXPECTED: &[&[u8]] = &[b"sequence", b"event", b"state", b"result", b"no"];

/// The words for what may be expected not to come.
const ABSENT: &[&[u8]] = &[b"sequence", b"event"];

/// The words in front of seconds.
const SPANS: &[&[u8]] = &[b"from", b"at", b"by", b"until"];

/// The advice for the seconds of an expectation.
const SPAN_ADVICE: &str =
    "give seconds by `from`, `at`, `by` or `until`; `from` may be combined with `by` or `until`";

const SPAN: Wanted = Wanted {
    what: "`from`, `at`, `by` or `until`",
    advice: SPAN_ADVICE,
    shape: WordShape::OneOf(SPANS),
};

const SECOND: Wanted = Wanted {
    what: "a second",
    advice: "write 0 to 4,294,967,295; after `until` at least 1",
    shape: WordShape::Number(0, 4_294_967_295),
};

const NUMBER: Wanted = Wanted {
    what: "the number of a sequence or of an event",
    advice: "write 0 to 65,535",
    shape: WordShape::Number(0, 65_535),
};

const SPAN_WORD: &[Wanted] = &[SPAN];

const ONE_SPAN: &[Wanted] = &[SPAN, SECOND];

const TWO_SPANS: &[Wanted] = &[SPAN, SECOND, SPAN, SECOND];

const ONE_NUMBER: &[Wanted] = &[NUMBER];

/// Whether a word begins with a digit.
fn is_numeral(word: Word<'_>) -> bool {
    word.text.first().is_some_and(|byte| byte.is_ascii_digit())
}

/// Whether two words give seconds together: `from` with `by` or `until`, in either order.
fn go_together(word: Word<'_>, other: Word<'_>) -> bool {
    matches!(
        (word.text, other.text),
        (b"from", b"by" | b"until") | (b"by" | b"until", b"from")
    )
}

/// The message about seconds whose words, from the one with this number on, are valid one by one, but not together.
fn together_said(alloc: Global, line: &[u8], first: usize) -> Result<LineMessage, AllocError> {
    let (second, other) = (
        nth_word(line, first.saturating_add(1)),
        nth_word(line, first.saturating_add(2)),
    );
    if other.is_end() {
        let head = String::from_str(alloc, "there is no second before second 0")?;
        return advise(alloc, second, head, "write 1 at least");
    }
    let word = nth_word(line, first);
    if !go_together(word, other) {
        let shown = other.quote(alloc)?;
        let head = format!(in alloc; "{shown} cannot be combined with the seconds before it")?;
        return advise(alloc, other, head, SPAN_ADVICE);
    }
    let last = nth_word(line, first.saturating_add(3));
    let head = String::from_str(
        alloc,
        "these seconds end before they begin: nothing can come in them",
    )?;
    advise(alloc, last, head, "write the lesser second after `from`")
}

/// The message about invalid seconds, from the word with this number on.
fn span_said(alloc: Global, line: &[u8], first: usize) -> Result<LineMessage, AllocError> {
    if !nth_word(line, first).is_end() {
        if let Some(said) = wrong_said(alloc, line, first, SPAN_WORD)? {
            return Ok(said);
        }
    }
    let has_two = !nth_word(line, first.saturating_add(2)).is_end();
    let wanted = if has_two { TWO_SPANS } else { ONE_SPAN };
    match wanted_said(alloc, line, first, wanted)? {
        Some(said) => Ok(said),
        None => together_said(alloc, line, first),
    }
}

/// Whether the word with this number begins an event of the host: `event HOST`.
fn is_of_host(line: &[u8], kind: usize) -> bool {
    let sender = nth_word(line, kind.saturating_add(1));
    matches!(
        (nth_word(line, kind).text, sender.text),
        (b"event", b"HOST")
    )
}

/// The message about an invalid expectation of a sequence or an event; `kind` is the number of the word for which of the two.
fn coming_said(alloc: Global, line: &[u8], kind: usize) -> Result<LineMessage, AllocError> {
    let kind_words = if is_of_host(line, kind) { 2 } else { 1 };
    let next = kind.saturating_add(kind_words);
    if !is_numeral(nth_word(line, next)) {
        return span_said(alloc, line, next);
    }
    match wrong_said(alloc, line, next, ONE_NUMBER)? {
        Some(said) => Ok(said),
        None => span_said(alloc, line, next.saturating_add(1)),
    }
}

/// The message about an invalid expectation of a rule's state or result, which needs these words.
fn standing_said(alloc: Global, line: &[u8], wanted: &[Wanted]) -> Result<LineMessage, AllocError> {
    match wanted_said(alloc, line, 2, wanted)? {
        Some(said) => Ok(said),
        None => {
            let head = String::from_str(alloc, "this is not an expectation")?;
            advise(alloc, nth_word(line, 0), head, "see the words after it")
        }
    }
}

/// The message about a line with an invalid expectation.
fn line_said(alloc: Global, line: &[u8]) -> Result<LineMessage, AllocError> {
    let what = nth_word(line, 1);
    match what.text {
        b"state" => standing_said(alloc, line, EXPECTED_STATE),
        b"result" => standing_said(alloc, line, EXPECTED_RESULT),
        b"sequence" | b"event" => coming_said(alloc, line, 1),
        b"no" => {
            let absent = nth_word(line, 2);
            if ABSENT.iter().any(|word| *word == absent.text) {
                return coming_said(alloc, line, 2);
            }
            let advice = "only a sequence or an event can be expected not to come";
            expected_word(alloc, absent, ABSENT, "`sequence` or `event`", advice)
        }
        _ => {
            let advice =
                "write `sequence`, `event`, `state`, `result`, or `no` and one of the first two";
            expected_word(alloc, what, EXPECTED, "what is expected", advice)
        }
    }
}

/// The message about the line with this number.
fn message(alloc: Global, text: &[u8], number: usize) -> Result<Message, AllocError>
    requires some { 1 ≤ number }
    requires there { number ≤ line_count text.now }
    ensures { IfOk result (IsOn text.now 170 number) }
{
    let line = line_numbered(text, number);
    let said = line_said(alloc, before_comment(line.bytes))?;
    message_on(alloc, line, NO_EXPECTATION, said)
}

/// The message, with number 170, about the line with this number, from 1, of a scenario, which has an invalid expectation: which word is
/// wrong or missing, and what would be right. If no line has the number, the message is about the nearest line.
///
/// Error: out of memory.
pub fn expectation_message(alloc: Global, text: &[u8], number: usize) -> Result<Message, AllocError>
    ensures { 1 ≤ number → number ≤ line_count text.now → IfOk result (IsOn text.now 170 number) }
{
    let nearest = number.min(line_count(text)).max(1);
    message(alloc, text, nearest)
}
