//! Numbers in scripts.

ghost use Rattle.std.specs.Prelude.{◌≡◌, bytes_eq, codes, take};
ghost use Rattle.lc_model.specs.Text.Token.{magnitude_text};
ghost use Rattle.stream_script.specs.Number.{decimal_number, number_in};

use crate::error::Reason;

/// The most digits of a number.
const MOST_DIGITS: usize = 10;

/// The number that one to ten decimal digits write; `None` for any other word.
pub fn decimal_number(word: &[u8]) -> Option<u64>
    ensures { result ≡ decimal_number word.now }
{
    text_lines::decimal_number(MOST_DIGITS, word)
}

/// Whether a word begins with `-`.
pub fn is_negative(word: &[u8]) -> bool
    ensures { result ≡ bytes_eq (take 1 word.now) (codes "-") }
{
    matches!(word, [b'-', ..])
}

/// The word without the `-` in front.
pub fn without_sign(word: &[u8]) -> &[u8]
    ensures { result.now ≡ magnitude_text word.now }
{
    if is_negative(word) { &word[1..] } else { word }
}

/// The number that a word writes, at most `most`. The error is `BadNumber`.
pub(crate) fn number_in(most: u32, word: &[u8]) -> Result<u32, Reason>
    ensures { result ≡ number_in most word.now }
{
    match decimal_number(word) {
        Some(number) if number <= u64::from(most) => Ok(number as u32),
        _ => Err(Reason::BadNumber),
    }
}
