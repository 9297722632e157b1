//! Strings: printable bytes between two quotes.

ghost use Rattle.std.specs.Prelude.{◌≡◌, ◌≤◌, IsTrue, MatchOption, length};
ghost use Rattle.std.specs.List.{prefix_len};
ghost use Rattle.lc_model.specs.Text.Token.{BeginsNoLexeme, is_string, is_text_byte};
ghost use Rattle.rule_lexer.specs.Front.{IsFront, begins, is_quote};

use crate::bytes::QUOTE;
use lc_model::is_text_byte;

/// The largest number of bytes between the quotes.
const LONGEST_STRING: usize = 31;

/// Returns the number of bytes at the start that may stand between quotes (0x20 to 0x7E without the quote).
pub fn inner_length(rest: &[u8]) -> usize
    ensures value { result ≡ prefix_len is_text_byte rest.now }
    ensures within { result ≤ length rest.now }
{
    rest.iter().take_while(|byte| is_text_byte(**byte)).count()
}

/// Whether the text begins with a quote.
pub fn begins_string(rest: &[u8]) -> bool
    ensures { result ≡ begins is_quote rest.now }
{
    matches!(rest, [QUOTE, ..])
}

/// Returns the length in bytes of the string at the start, both quotes included; `None` if no valid string stands there.
pub fn string_length(rest: &[u8]) -> Option<usize>
    requires { IsTrue (begins is_quote rest.now) }
    ensures { MatchOption result (BeginsNoLexeme rest.now) (IsFront is_string rest.now) }
{
    let inside = rest.split_at(1).1;
    let count = inner_length(inside);
    let behind = inside.split_at(count).1;
    if count <= LONGEST_STRING && begins_string(behind) {
        Some(count + 2)
    } else {
        None
    }
}
