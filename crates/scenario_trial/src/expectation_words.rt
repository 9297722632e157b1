//! Expectations from the words after `expect`.

ghost use Rattle.std.specs.Prelude.{◌≡◌, bytes_eq, Ok, Err, IfOk, IfErr};
ghost use Rattle.text_lines.specs.Lines.{texts_of};
ghost use Rattle.scenario_trial.specs.Expected.{coming_in, coming_of, event_of, expected_in, expected_of, go_together, is_end, is_numeral, narrowed, narrowed_to, narrowed_twice, number_in, numbered, result_in, result_named, some_number, some_span, span_in, state_in, state_named, until, within};

use crate::expectation::{ArrivalKind, Coming, Expectation, Span, What};
use crate::fault::ExpectationFault;
use lc_model::{ApMode, ApResult};
use stream_script::decimal_number;

/// All seconds.
const WHOLE_SPAN: Span = Span {
    first: 0,
    last: u32::MAX,
};

/// The number in a word's decimal digits, up to the given most.
fn number_in(most: u32, word: &[u8]) -> Option<u32>
    ensures { result ≡ number_in most word.now }
{
    match decimal_number(word) {
        Some(number) if number <= u64::from(most) => Some(number as u32),
        _ => None,
    }
}

/// Whether a word is this one.
pub(crate) fn is(word: &[u8], other: &[u8]) -> bool
    ensures { result ≡ bytes_eq word.now other.now }
{
    word == other
}

/// Whether a word begins as a number does.
fn is_numeral(word: &[u8]) -> bool
    ensures { result ≡ is_numeral word.now }
{
    match word {
        [first, ..] => first.is_ascii_digit(),
        [] => false,
    }
}

/// The second before one that isn't 0.
fn until(span: Span, second: u32) -> Result<Span, ExpectationFault>
    ensures { result ≡ until span second }
{
    if second == 0 {
        return Err(ExpectationFault::BadSecond);
    }
    Ok(Span {
        first: span.first,
        last: second - 1,
    })
}

/// The range of seconds, narrowed by one word and its number.
fn narrowed_to(span: Span, word: &[u8], second: u32) -> Result<Span, ExpectationFault>
    ensures { result ≡ narrowed_to span word.now second }
{
    if is(word, b"from") {
        return Ok(Span {
            first: second,
            last: span.last,
        });
    }
    if is(word, b"at") {
        return Ok(Span {
            first: second,
            last: second,
        });
    }
    if is(word, b"by") {
        return Ok(Span {
            first: span.first,
            last: second,
        });
    }
    if is(word, b"until") {
        return until(span, second);
    }
    Err(ExpectationFault::NoSpan)
}

/// The range of seconds, narrowed by a word and a number in digits.
fn narrow_by(span: Span, word: &[u8], second: &[u8]) -> Result<Span, ExpectationFault>
    ensures { result ≡ narrowed span word.now second.now }
{
    match number_in(u32::MAX, second) {
        Some(second) => narrowed_to(span, word, second),
        None => Err(ExpectationFault::BadSecond),
    }
}

/// Whether a word gives the end of a range, and not its beginning.
fn is_end(word: &[u8]) -> bool
    ensures { result ≡ is_end word.now }
{
    is(word, b"by") || is(word, b"until")
}

/// Whether one of two words gives the beginning of a range and the other its end.
fn go_together(word: &[u8], other: &[u8]) -> bool
    ensures { result ≡ go_together word.now other.now }
{
    is(word, b"from") && is_end(other) || is_end(word) && is(other, b"from")
}

/// The range, if it has a second.
fn some_span(span: Span) -> Result<Span, ExpectationFault>
    ensures { result ≡ some_span span }
{
    if span.first <= span.last {
        Ok(span)
    } else {
        Err(ExpectationFault::NoSecond)
    }
}

/// The range between two given ends.
fn narrow_twice(
    word: &[u8],
    second: &[u8],
    other: &[u8],
    last: &[u8],
) -> Result<Span, ExpectationFault>
    ensures set { IfOk result
        (λ span. narrowed_twice word.now second.now other.now last.now ≡ Ok span) }
    ensures refused { IfErr result
        (λ fault. narrowed_twice word.now second.now other.now last.now ≡ Err fault) }
{
    let once = narrow_by(WHOLE_SPAN, word, second)?;
    let twice = narrow_by(once, other, last)?;
    some_span(twice)
}

/// The range of seconds that some words give.
fn span_in(words: &[&[u8]]) -> Result<Span, ExpectationFault>
    ensures set { IfOk result (λ span. span_in (texts_of words.now) ≡ Ok span) }
    ensures refused { IfErr result (λ fault. span_in (texts_of words.now) ≡ Err fault) }
{
    match words {
        [] => Ok(WHOLE_SPAN),
        [word, second] => narrow_by(WHOLE_SPAN, word, second),
        [word, second, other, last] => {
            if !go_together(word, other) {
                return Err(ExpectationFault::NoSpan);
            }
            narrow_twice(word, second, other, last)
        }
        [_] => Err(ExpectationFault::NoSpan),
        [_, _, _] => Err(ExpectationFault::NoSpan),
        [_, _, _, _, _, ..] => Err(ExpectationFault::NoSpan),
    }
}

/// The expectation of this, in the seconds that some words give.
fn within(what: What, words: &[&[u8]]) -> Result<Coming, ExpectationFault>
    ensures said { IfOk result (λ coming. within what (texts_of words.now) ≡ Ok coming) }
    ensures refused { IfErr result (λ fault. within what (texts_of words.now) ≡ Err fault) }
{
    let span = span_in(words)?;
    Ok(Coming { what, span })
}

/// The number of a request or of an event.
fn number_of(word: &[u8]) -> Result<u16, ExpectationFault>
    ensures { result ≡ some_number (number_in 65535 word.now) }
{
    match number_in(65_535, word) {
        Some(number) => Ok(number as u16),
        None => Err(ExpectationFault::BadNumber),
    }
}

/// A request or an event with this number, in the seconds that some words give.
fn coming_numbered(
    kind: ArrivalKind,
    number: &[u8],
    words: &[&[u8]],
) -> Result<Coming, ExpectationFault>
    ensures said { IfOk result
        (λ coming. numbered kind number.now (texts_of words.now) ≡ Ok coming) }
    ensures refused { IfErr result
        (λ fault. numbered kind number.now (texts_of words.now) ≡ Err fault) }
{
    let number = number_of(number)?;
    within(
        What {
            kind,
            number: Some(number),
        },
        words,
    )
}

/// The same; the number may be left out.
fn coming_of(kind: ArrivalKind, words: &[&[u8]]) -> Result<Coming, ExpectationFault>
    ensures said { IfOk result
        (λ coming. coming_of kind (texts_of words.now) ≡ Ok coming) }
    ensures refused { IfErr result
        (λ fault. coming_of kind (texts_of words.now) ≡ Err fault) }
{
    let any = What { kind, number: None };
    match words {
        [] => within(any, words),
        [word, others @ ..] => {
            if is_numeral(word) {
                return coming_numbered(kind, word, others);
            }
            within(any, words)
        }
    }
}

/// An event of the Limit Checker, or of the host after `HOST`, and its seconds.
fn event_of(words: &[&[u8]]) -> Result<Coming, ExpectationFault>
    ensures said { IfOk result (λ coming. event_of (texts_of words.now) ≡ Ok coming) }
    ensures refused { IfErr result (λ fault. event_of (texts_of words.now) ≡ Err fault) }
{
    match words {
        [] => coming_of(ArrivalKind::Event, words),
        [word, others @ ..] => {
            if is(word, b"HOST") {
                return coming_of(ArrivalKind::HostEvent, others);
            }
            coming_of(ArrivalKind::Event, words)
        }
    }
}

/// What may come, and its seconds.
fn coming_in(words: &[&[u8]]) -> Result<Coming, ExpectationFault>
    ensures said { IfOk result (λ coming. coming_in (texts_of words.now) ≡ Ok coming) }
    ensures refused { IfErr result (λ fault. coming_in (texts_of words.now) ≡ Err fault) }
{
    match words {
        [] => Err(ExpectationFault::NoWhat),
        [word, others @ ..] => {
            if is(word, b"sequence") {
                return coming_of(ArrivalKind::Sequence, others);
            }
            if is(word, b"event") {
                return event_of(others);
            }
            Err(ExpectationFault::NoWhat)
        }
    }
}

/// The state that a word names: one in which a rule may begin, or off for good.
fn state_named(word: &[u8]) -> Option<ApMode>
    ensures { result ≡ state_named word.now }
{
    if is(word, b"off") {
        return Some(ApMode::PermOff);
    }
    ApMode::from_word(word)
}

/// The result that a word names; `none` is the one before the first sample.
fn result_named(word: &[u8]) -> Option<Option<ApResult>>
    ensures { result ≡ result_named word.now }
{
    if is(word, b"none") {
        return Some(None);
    }
    if is(word, b"pass") {
        return Some(Some(ApResult::Pass));
    }
    if is(word, b"fail") {
        return Some(Some(ApResult::Fail));
    }
    if is(word, b"stale") {
        return Some(Some(ApResult::Stale));
    }
    if is(word, b"error") {
        return Some(Some(ApResult::Error));
    }
    None
}

/// The expectation of a rule's state.
fn state_in<'a>(words: &[&'a [u8]]) -> Result<Expectation<'a>, ExpectationFault>
    ensures said { IfOk result
        (λ expectation. state_in (texts_of words.now) ≡ Ok (expected_of expectation)) }
    ensures refused { IfErr result (λ fault. state_in (texts_of words.now) ≡ Err fault) }
{
    match words {
        [rule, word] => match state_named(word) {
            Some(state) => Ok(Expectation::State(rule, state)),
            None => Err(ExpectationFault::NoState),
        },
        [] | [_] => Err(ExpectationFault::NoState),
        [_, _, _, ..] => Err(ExpectationFault::NoState),
    }
}

/// The expectation of a rule's last result.
fn result_in<'a>(words: &[&'a [u8]]) -> Result<Expectation<'a>, ExpectationFault>
    ensures said { IfOk result
        (λ expectation. result_in (texts_of words.now) ≡ Ok (expected_of expectation)) }
    ensures refused { IfErr result (λ fault. result_in (texts_of words.now) ≡ Err fault) }
{
    match words {
        [rule, word] => match result_named(word) {
            Some(last) => Ok(Expectation::Result(rule, last)),
            None => Err(ExpectationFault::NoResult),
        },
        [] | [_] => Err(ExpectationFault::NoResult),
        [_, _, _, ..] => Err(ExpectationFault::NoResult),
    }
}

/// The expectation in the words after `expect`.
pub(crate) fn expectation<'a>(words: &[&'a [u8]]) -> Result<Expectation<'a>, ExpectationFault>
    ensures said { IfOk result
        (λ expectation. expected_in (texts_of words.now) ≡ Ok (expected_of expectation)) }
    ensures refused { IfErr result (λ fault. expected_in (texts_of words.now) ≡ Err fault) }
{
    match words {
        [] => Err(ExpectationFault::NoWhat),
        [word, others @ ..] => {
            if is(word, b"state") {
                return state_in(others);
            }
            if is(word, b"result") {
                return result_in(others);
            }
            if is(word, b"no") {
                let coming = coming_in(others)?;
                return Ok(Expectation::Absent(coming));
            }
            let coming = coming_in(words)?;
            Ok(Expectation::Comes(coming))
        }
    }
}
