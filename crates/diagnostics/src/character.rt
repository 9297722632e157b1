//! Characters: UTF-8 sequences (the Unicode Standard, Table 3-7), and bytes that are in none.

ghost use Rattle.std.specs.Prelude.{◌≡◌, ◌<◌, ◌≤◌, length};
ghost use Rattle.diagnostics.specs.Character.{char_in_front, characters, size_in_front};

use bstr::decode_utf8;

/// The character in front and how many bytes it has. A byte that belongs to no UTF-8 sequence counts as one, read as U+FFFD.
pub fn front_character(rest: &[u8]) -> (char, usize)
    requires { 0 < length rest.now }
    ensures char { result.0 ≡ char_in_front rest.now }
    ensures size { result.1 ≡ size_in_front rest.now }
    ensures some { 0 < result.1 }
    ensures within { result.1 ≤ length rest.now }
{
    match decode_utf8(rest) {
        (Some(character), size) => (character, size),
        (None, _) => ('\u{FFFD}', 1),
    }
}

/// How many characters the bytes are.
pub(crate) fn character_count(bytes: &[u8]) -> usize
    ensures value { result ≡ length (characters bytes.now) }
    ensures within { result ≤ length bytes.now }
{
    let mut rest = bytes;
    let mut count = 0;
    while !rest.is_empty() {
        rest = rest.split_at(front_character(rest).1).1;
        count += 1;
    }
    count
}
