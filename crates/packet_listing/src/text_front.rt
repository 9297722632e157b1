//! Numbers in the text of an event.

use text_lines::{decimal_number, split_digits};

/// The most digits of a number.
const MOST_DIGITS: usize = 5;

/// The decimal number of up to five digits with which a text begins, and the text after it; `None` without one.
pub fn number_in(text: &[u8]) -> Option<(usize, &[u8])> {
    let (digits, rest) = split_digits(text);
    Some((decimal_number(MOST_DIGITS, digits)? as usize, rest))
}
