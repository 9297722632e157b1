//! Messages about a word of a statement that doesn't have its required shape.

use crate::said::{LineMessage, advise, expect_word, expected_word, said_of};
use crate::statement::{Wanted, WordShape};
use crate::word::{Word, are_digits};
use diagnostics::{choice_of, front_character, quote};
use std::alloc::{AllocError, Global};
use std::str;
use stream_script::decimal_number;

/// The number of digits of a message id.
const ID_DIGITS: usize = 4;

/// The most hexadecimal digits of a number of a scenario.
const NUMBER_DIGITS: usize = 8;

/// The greatest value of a scenario, without its sign.
const MOST_VALUE: u64 = 4_294_967_295;

/// The advice for bytes.
const BYTES_ADVICE: &str = "bytes have two digits each, of 0 to 9 and A to F";

/// Whether a word is a decimal number from `least` to `most`.
fn is_number(word: &[u8], least: u64, most: u64) -> bool {
    decimal_number(word).is_some_and(|number| (least..=most).contains(&number))
}

/// The number that a word of a scenario writes: decimal digits, or one to eight hexadecimal ones after `0x`.
fn any_number(word: &[u8]) -> Option<u64> {
    match word {
        [b'0', b'x', digits @ ..] => {
            if digits.is_empty() || digits.len() > NUMBER_DIGITS {
                return None;
            }
            u64::from_str_radix(str::from_utf8(digits).ok()?, 16).ok()
        }
        _ => decimal_number(word),
    }
}

/// The value that a word of a scenario writes: a number, with or without `-` in front, whose size is below 2^32.
pub fn value_in(word: &[u8]) -> Option<i64> {
    let (is_negative, digits) = match word {
        [b'-', digits @ ..] => (true, digits),
        _ => (false, word),
    };
    let number = any_number(digits).filter(|number| *number <= MOST_VALUE)?;
    let value = i64::try_from(number).ok()?;
    Some(if is_negative {
        value.saturating_neg()
    } else {
        value
    })
}

/// The number of hexadecimal digits at the word's beginning.
fn hex_digits(word: &[u8]) -> usize {
    word.iter()
        .take_while(|byte| byte.is_ascii_hexdigit())
        .count()
}

/// Whether a word is four hexadecimal digits.
fn is_message_id(word: &[u8]) -> bool {
    word.len() == ID_DIGITS && hex_digits(word) == ID_DIGITS
}

/// Whether a word writes bytes: `-` for none, or two hexadecimal digits each.
fn are_bytes(word: &[u8]) -> bool {
    matches!(word, b"-") || hex_digits(word) == word.len() && word.len() % 2 == 0
}

/// Whether a word has its required shape. The line's end never has.
pub fn is_right(wanted: Wanted, word: Word<'_>) -> bool {
    let text = word.text;
    if word.is_end() {
        return false;
    }
    match wanted.shape {
        WordShape::Number(least, most) => is_number(text, least, most),
        WordShape::AnyNumber(least, most) => {
            any_number(text).is_some_and(|number| (least..=most).contains(&number))
        }
        WordShape::Value => value_in(text).is_some(),
        WordShape::MessageId => is_message_id(text),
        WordShape::Bytes => are_bytes(text),
        WordShape::Name(most) => text.len() <= most,
        WordShape::OneOf(words) => words.iter().any(|other| *other == text),
    }
}

/// The message about a word that is not a number in its range.
fn number_said(
    alloc: Global,
    wanted: Wanted,
    word: Word<'_>,
    least: u64,
) -> Result<LineMessage, AllocError> {
    if !are_digits(word.text) {
        return expect_word(alloc, word, wanted.what, wanted.advice);
    }
    let shown = word.quote(alloc)?;
    let is_small = decimal_number(word.text).is_some_and(|number| number < least);
    let head = if is_small {
        format!(in alloc; "{shown} is too small")?
    } else {
        format!(in alloc; "{shown} is too large")?
    };
    advise(alloc, word, head, wanted.advice)
}

/// What follows `0x` or `0X`.
fn behind_prefix(word: &[u8]) -> Option<&[u8]> {
    match word {
        [b'0', b'x' | b'X', digits @ ..] => Some(digits),
        _ => None,
    }
}

/// The message id that was probably meant: four digits after `0x`.
fn meant_id(word: &[u8]) -> Option<&[u8]> {
    behind_prefix(word).filter(|digits| is_message_id(*digits))
}

/// The message about a message id that doesn't have four digits.
fn digits_said(alloc: Global, word: Word<'_>) -> Result<LineMessage, AllocError> {
    let shown = word.quote(alloc)?;
    let count = word.text.len();
    let head = format!(in alloc; "a message id has 4 digits, and {shown} has {count}")?;
    if count != 3 {
        return advise(alloc, word, head, "write four hexadecimal digits");
    }
    let mut meant = Vec::from_slice(alloc, b"0")?;
    meant.extend_from_slice(word.text)?;
    let meant = quote(alloc, meant.as_slice())?;
    let label = format!(in alloc; "did you mean {meant}?")?;
    Ok(said_of(word, head, label))
}

/// The message about a word that is not a message id.
fn id_said(alloc: Global, wanted: Wanted, word: Word<'_>) -> Result<LineMessage, AllocError> {
    if hex_digits(word.text) == word.text.len() {
        return digits_said(alloc, word);
    }
    let Some(meant) = meant_id(word.text) else {
        return expect_word(alloc, word, wanted.what, wanted.advice);
    };
    let meant = quote(alloc, meant)?;
    let label = format!(in alloc; "did you mean {meant}?")?;
    expect_word(alloc, word, wanted.what, label.as_str())
}

/// The message about the character after this number of digits, which is not a digit.
fn character_said(alloc: Global, word: Word<'_>, digits: usize) -> Result<LineMessage, AllocError> {
    let rest = word.text.split_at(digits.min(word.text.len())).1;
    let size = if rest.is_empty() {
        0
    } else {
        front_character(rest).1
    };
    let character = Word {
        at: word.at.saturating_add(digits),
        text: rest.split_at(size.min(rest.len())).0,
    };
    let shown = character.quote(alloc)?;
    let head = format!(in alloc; "{shown} is no hexadecimal digit")?;
    advise(alloc, character, head, BYTES_ADVICE)
}

/// The message about a word that doesn't write bytes.
fn bytes_said(alloc: Global, wanted: Wanted, word: Word<'_>) -> Result<LineMessage, AllocError> {
    if behind_prefix(word.text).is_some() {
        return expect_word(alloc, word, wanted.what, "leave out `0x`");
    }
    let digits = hex_digits(word.text);
    if digits < word.text.len() {
        return character_said(alloc, word, digits);
    }
    let shown = word.quote(alloc)?;
    let head = format!(in alloc; "{shown} has an odd number of digits, {digits}")?;
    advise(alloc, word, head, wanted.advice)
}

/// The message about a name that is too long.
fn name_said(alloc: Global, word: Word<'_>, most: usize) -> Result<LineMessage, AllocError> {
    let count = word.text.len();
    let over = count.saturating_sub(most);
    let head = format!(in alloc; "the name has {count} bytes, at most {most} are allowed")?;
    let label = format!(in alloc; "shorten it by {over}")?;
    Ok(said_of(word, head, label))
}

/// What to write.
fn advice_of(alloc: Global, wanted: Wanted) -> Result<String, AllocError> {
    match wanted.shape {
        WordShape::OneOf(words) if wanted.advice.is_empty() => {
            let words = choice_of(alloc, words)?;
            format!(in alloc; "write {words}")
        }
        _ => String::from_str(alloc, wanted.advice),
    }
}

/// The message about a word that isn't one of these.
fn choice_said(
    alloc: Global,
    wanted: Wanted,
    word: Word<'_>,
    words: &[&[u8]],
) -> Result<LineMessage, AllocError> {
    let advice = advice_of(alloc, wanted)?;
    expected_word(alloc, word, words, wanted.what, advice.as_str())
}

/// The message about a word that doesn't have its required shape. Error: out of memory.
pub fn word_said(alloc: Global, wanted: Wanted, word: Word<'_>) -> Result<LineMessage, AllocError> {
    if word.is_end() {
        let advice = advice_of(alloc, wanted)?;
        return expect_word(alloc, word, wanted.what, advice.as_str());
    }
    match wanted.shape {
        WordShape::Number(least, _) | WordShape::AnyNumber(least, _) => {
            number_said(alloc, wanted, word, least)
        }
        WordShape::Value => expect_word(alloc, word, wanted.what, wanted.advice),
        WordShape::MessageId => id_said(alloc, wanted, word),
        WordShape::Bytes => bytes_said(alloc, wanted, word),
        WordShape::Name(most) => name_said(alloc, word, most),
        WordShape::OneOf(words) => choice_said(alloc, wanted, word, words),
    }
}
