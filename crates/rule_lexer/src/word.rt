//! Words: reserved words and names.

ghost use Rattle.std.specs.Prelude.{◌≡◌, IsTrue};
ghost use Rattle.std.specs.List.{prefix_len};
ghost use Rattle.lc_model.specs.Text.Token.{is_letter, is_word, is_word_byte};
ghost use Rattle.rule_lexer.specs.Front.{IsFront, begins};

use crate::bytes::{is_letter, is_word_byte};

/// Whether the text begins with a letter or `_`, as words do.
pub fn begins_word(rest: &[u8]) -> bool
    ensures { result ≡ begins is_letter rest.now }
{
    matches!(rest, [byte, ..] if is_letter(*byte))
}

/// Returns the number of letters, digits and `_` at the start.
pub fn run_length(rest: &[u8]) -> usize
    ensures { result ≡ prefix_len is_word_byte rest.now }
{
    rest.iter().take_while(|byte| is_word_byte(**byte)).count()
}

/// Returns the length in bytes of the word at the start, whatever its length.
pub fn word_length(rest: &[u8]) -> usize
    requires { IsTrue (begins is_letter rest.now) }
    ensures { IsFront is_word rest.now result }
{
    run_length(rest)
}
