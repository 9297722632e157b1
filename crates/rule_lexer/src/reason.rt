//! Reasons for a text's fault, more precise than an error's number (this project's own).

ghost use Rattle.std.specs.Prelude.{◌≡◌, drop, is_some};
ghost use Rattle.std.specs.List.{list_all};
ghost use Rattle.std.specs.Char.{is_ascii_digit, is_ascii_hexdigit};
ghost use Rattle.lc_model.specs.Text.Token.{magnitude};
ghost use Rattle.rule_lexer.specs.Reason.{number_reason, reason_of, string_reason_at};

use crate::bytes::{LINE_FEED, QUOTE};
use crate::error::LexError;
use crate::number::without_sign;
use crate::string_literals::inner_length;
use crate::word::run_length;
use thiserror::Error;

/// A text's first fault in words for its author. `at` is the number of the text's bytes before it.
#[derive(Clone, Copy, Debug, PartialEq, Eq, Error)]
pub enum LexReason {
    /// No token begins with this byte.
    #[error("no token begins with the byte at {at}")]
    NoToken { at: usize },
    /// A number in another form than digits, or `0x` and hexadecimal digits: `12ab`, `0x` or `1_`.
    #[error("the number at {at} isn't of digits alone, or of `0x` and hexadecimal digits")]
    NotANumber { at: usize },
    /// A number of magnitude 2^32 or more.
    #[error("the number at {at} is over 4,294,967,295")]
    NumberTooLarge { at: usize },
    /// A word has more than 32 bytes.
    #[error("the name at {at} has over 32 bytes")]
    NameTooLong { at: usize },
    /// The line, or the text, ends before the string's closing quote.
    #[error("the string at {at} isn't closed on its line")]
    Unclosed { at: usize },
    /// More than 31 bytes stand between the quotes.
    #[error("the string at {at} has over 31 bytes")]
    StringTooLong { at: usize },
    /// A byte outside 0x20 to 0x7E stands between the quotes; `at` is that byte's place.
    #[error("the byte at {at} may not stand in a string")]
    ForbiddenByte { at: usize },
    /// The text has more than 65,536 bytes, whichever they are.
    #[error("the text has over 65,536 bytes")]
    TextTooLong,
    /// There is no memory for the tokens.
    #[error("out of memory")]
    Memory,
}

/// The text after its first `count` bytes; it is empty if there are no more.
fn behind(text: &[u8], count: usize) -> &[u8]
    ensures { result.now ≡ drop count text.now }
{
    if count < text.len() {
        &text[count..]
    } else {
        &[]
    }
}

fn are_hexadecimal(digits: &[u8]) -> bool
    ensures { result ≡ list_all is_ascii_hexdigit digits.now }
{
    digits.iter().all(|byte| byte.is_ascii_hexdigit())
}

fn are_decimal(digits: &[u8]) -> bool
    ensures { result ≡ list_all is_ascii_digit digits.now }
{
    digits.iter().all(|byte| byte.is_ascii_digit())
}

/// Whether the text has the form of a number without its sign, of any size.
fn is_magnitude(text: &[u8]) -> bool
    ensures { result ≡ is_some (magnitude text.now) }
{
    match text {
        [b'0', b'x', digits @ ..] => !digits.is_empty() && are_hexadecimal(digits),
        digits => !digits.is_empty() && are_decimal(digits),
    }
}

/// The reason for a bad number at this place.
fn number_reason(text: &[u8], at: usize) -> LexReason
    ensures { result ≡ number_reason text.now at }
{
    let digits = without_sign(behind(text, at));
    if is_magnitude(&digits[..run_length(digits)]) {
        LexReason::NumberTooLarge { at }
    } else {
        LexReason::NotANumber { at }
    }
}

/// The reason for a bad string whose opening quote is at this place.
fn string_reason(text: &[u8], at: usize) -> LexReason
    ensures { result ≡ string_reason_at text.now at }
{
    if at >= text.len() {
        return LexReason::Unclosed { at };
    }
    let rest = &text[at + 1..];
    let inside = inner_length(rest);
    match rest.get(inside) {
        None => LexReason::Unclosed { at },
        Some(byte) if *byte == QUOTE => LexReason::StringTooLong { at },
        Some(byte) if *byte == LINE_FEED => LexReason::Unclosed { at },
        Some(_) => LexReason::ForbiddenByte {
            at: at + 1 + inside,
        },
    }
}

impl LexError {
    /// Returns the reason for this error in words for the text's author; `text` is the text that has the error.
    pub fn reason(self, text: &[u8]) -> LexReason
        ensures { result ≡ reason_of self text.now }
    {
        match self {
            LexError::BadByte { at } => LexReason::NoToken { at },
            LexError::BadNumber { at } => number_reason(text, at),
            LexError::NameTooLong { at } => LexReason::NameTooLong { at },
            LexError::BadString { at } => string_reason(text, at),
            LexError::TextTooLong => LexReason::TextTooLong,
            LexError::Memory => LexReason::Memory,
        }
    }
}
