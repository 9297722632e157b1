//! Numbers: where they end, and which value they have.

ghost use Rattle.std.specs.Prelude.{◌≡◌, ℕ, ◌⊎◌, IsTrue};
ghost use Rattle.lc_model.specs.Text.Token.{at_most_32_bits, is_numeral, magnitude, magnitude_text, number};
ghost use Rattle.rule_lexer.specs.Front.{IsFront, begins, begins_numeral, is_minus};
ghost use Rattle.rule_lexer.specs.Digits.{value_in_base};

use crate::bytes::MINUS;
use crate::word::run_length;

/// Whether the text begins with `-`.
fn is_negative(text: &[u8]) -> bool
    ensures { result ≡ begins is_minus text.now }
{
    matches!(text, [MINUS, ..])
}

/// Returns the text without the `-` at its front, or all of it if there is none.
pub fn without_sign<'a>(text: &'a [u8]) -> &'a [u8]
    ensures { result.now ≡ magnitude_text text.now }
{
    if is_negative(text) { &text[1..] } else { text }
}

/// Whether the text begins as a number, valid or not: with a digit, or with `-` and a digit.
pub fn begins_numeral(rest: &[u8]) -> bool
    ensures { result ≡ begins_numeral rest.now }
{
    matches!(without_sign(rest), [byte, ..] if byte.is_ascii_digit())
}

/// Returns the length in bytes of the number at the start. It includes letters directly after the digits: they make the number
/// invalid.
pub fn numeral_length(rest: &[u8]) -> usize
    requires { IsTrue (begins_numeral rest.now) }
    ensures { IsFront is_numeral rest.now result }
{
    let digits = without_sign(rest);
    rest.len() - digits.len() + run_length(digits)
}

/// The value of the digits in base 10 or 16, or `None` if a byte is no digit or the value is 2^32 or more.
fn value_in_base(base: u32, digits: &[u8]) -> Option<u32>
    requires { (base ≡ 10) ⊎ (base ≡ 16) }
    ensures { result ≡ value_in_base base digits.now }
{
    if digits.is_empty() {
        return None;
    }
    let mut value: u32 = 0;
    for byte in digits {
        let digit = char::from(*byte).to_digit(base)?;
        value = value.checked_mul(base)?.checked_add(digit)?;
    }
    Some(value)
}

/// The value without its sign: `0x` and hexadecimal digits of either case, or decimal digits.
fn magnitude(text: &[u8]) -> Option<u32>
    ensures { result ≡ at_most_32_bits (magnitude text.now) }
{
    match text {
        [b'0', b'x', digits @ ..] => value_in_base(16, digits),
        digits => value_in_base(10, digits),
    }
}

/// Returns the number that the text writes, or `None` if the text is no number or its magnitude is 2^32 or more.
pub fn number_value(text: &[u8]) -> Option<i64>
    ensures { result ≡ number text.now }
{
    let value = i64::from(magnitude(without_sign(text))?);
    Some(if is_negative(text) { -value } else { value })
}
