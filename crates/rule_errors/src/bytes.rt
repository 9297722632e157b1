//! Parts of rule texts.

use diagnostics::{behind, front, front_character};

/// At most `size` bytes from place `at` on; fewer at the end.
pub fn part(bytes: &[u8], at: usize, size: usize) -> &[u8] {
    front(behind(bytes, at), size)
}

/// Whether a byte is an ASCII letter, a digit or `_`.
pub fn is_word_byte(byte: u8) -> bool {
    byte.is_ascii_alphanumeric() || byte == b'_'
}

/// The number of letters, digits and `_` in front.
pub fn word_size(bytes: &[u8]) -> usize {
    bytes.iter().take_while(|byte| is_word_byte(**byte)).count()
}

/// The letters, digits and `_` at the end.
pub fn last_word(bytes: &[u8]) -> &[u8] {
    let size = bytes
        .iter()
        .rev()
        .take_while(|byte| is_word_byte(**byte))
        .count();
    behind(bytes, bytes.len().saturating_sub(size))
}

/// The character in front and its size in bytes; a blank and 0 if the bytes are empty.
pub fn character(bytes: &[u8]) -> (char, usize) {
    if bytes.is_empty() {
        return (' ', 0);
    }
    front_character(bytes)
}
