//! Numbers in scenarios.

ghost use Rattle.std.specs.Prelude.{◌≡◌, ◌<◌, ◌≤◌, bytes_eq, codes, take, IfOk, IsTrue};
ghost use Rattle.std.specs.Char.{digit_value, is_ascii_hexdigit};
ghost use Rattle.lc_model.specs.Text.Token.{magnitude_text};
ghost use Rattle.scenarios.specs.Number.{hexadecimal, magnitude_in, number_in, value_in};

use crate::error::Reason;
use stream_script::{decimal_number, is_negative, without_sign};

/// The most digits of a hexadecimal number.
const MOST_DIGITS: usize = 8;

/// The value of a hexadecimal digit.
fn digit_value(byte: u8) -> u64
    requires { IsTrue (is_ascii_hexdigit byte) }
    ensures value { result ≡ digit_value byte }
    ensures below { result < 16 }
{
    match byte {
        b'0'..=b'9' => u64::from(byte - b'0'),
        b'a'..=b'f' => u64::from(byte - b'a') + 10,
        _ => u64::from(byte - b'A') + 10,
    }
}

/// The number that one to eight hexadecimal digits write.
fn hexadecimal(digits: &[u8]) -> Option<u64>
    ensures { result ≡ hexadecimal digits.now }
{
    if digits.is_empty() || digits.len() > MOST_DIGITS {
        return None;
    }
    let mut number = 0u64;
    for byte in digits {
        if !byte.is_ascii_hexdigit() {
            return None;
        }
        number = number * 16 + digit_value(*byte);
    }
    Some(number)
}

/// The number that decimal digits, or hexadecimal digits after `0x`, write.
fn magnitude_in(word: &[u8]) -> Option<u64>
    ensures { result ≡ magnitude_in word.now }
{
    match word {
        [b'0', b'x', digits @ ..] => hexadecimal(digits),
        _ => decimal_number(word),
    }
}

/// The number that a word writes, from 0 to `most`. The error is `BadNumber`.
pub(crate) fn number_in(most: u32, word: &[u8]) -> Result<u32, Reason>
    ensures exact { result ≡ number_in most word.now }
    ensures most { IfOk result (λ number. number ≤ most) }
{
    match magnitude_in(word) {
        Some(number) if number <= u64::from(most) => Ok(number as u32),
        _ => Err(Reason::BadNumber),
    }
}

/// The value that a word writes, negative after `-`; without its sign it has at most 32 bits. The error is `BadNumber`.
pub(crate) fn value_in(word: &[u8]) -> Result<i64, Reason>
    ensures { result ≡ value_in word.now }
{
    let number = i64::from(number_in(u32::MAX, without_sign(word))?);
    Ok(if is_negative(word) { -number } else { number })
}
