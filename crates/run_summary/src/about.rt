//! The rule that an event is about, read from the text of the Limit Checker's events.

use text_lines::{decimal_number, split_digits};

/// The most digits of a rule's number.
const MOST_DIGITS: usize = 5;

/// Whether two texts are equal.
pub(crate) fn is(text: &[u8], other: &[u8]) -> bool {
    text == other
}

/// The number in front of a text, of at most five digits.
fn number_in_front(text: &[u8]) -> Option<usize> {
    let (digits, _) = split_digits(text);
    match decimal_number(MOST_DIGITS, digits) {
        Some(number) => Some(number as usize),
        None => None,
    }
}

/// What follows these words in a text that begins with them.
fn after<'t>(words: &[u8], text: &'t [u8]) -> Option<&'t [u8]> {
    if words.len() <= text.len() && is(&text[..words.len()], words) {
        return Some(text.split_at(words.len()).1);
    }
    None
}

/// The number after these words if the text begins with them, else `found`.
fn found_in_front(words: &[u8], found: Option<usize>, text: &[u8]) -> Option<usize> {
    match after(words, text) {
        Some(rest) => number_in_front(rest),
        None => found,
    }
}

/// The number after the last occurrence of these words.
pub(crate) fn number_behind(words: &[u8], text: &[u8]) -> Option<usize> {
    let mut found = None;
    for at in 0..text.len() {
        found = found_in_front(words, found, text.split_at(at).1);
    }
    found
}

/// The number of the rule that an event with this sender, id and text is about, if it is about one.
pub(crate) fn rule_of(sender: &[u8], id: u16, text: &[u8]) -> Option<usize> {
    if !is(sender, b"LC") {
        return None;
    }
    if 3 <= id && id <= 6 {
        return number_behind(b"actionpoint ", text);
    }
    if 1_000 <= id {
        return number_behind(b": AP = ", text);
    }
    None
}
