//! The token at the start of a text.

ghost use Rattle.std.specs.Prelude.{◌≡◌, ◌<◌, false, IsTrue, MatchResult, length};
ghost use Rattle.lc_model.specs.Text.Token.{is_letter};
ghost use Rattle.rule_lexer.specs.Front.{IsBadFront, IsFrontToken, begins, begins_numeral, is_gap_byte, is_quote};

use crate::error::LexError;
use crate::keyword::word_kind;
use crate::number::{begins_numeral, number_value, numeral_length};
use crate::sign::sign;
use crate::string_literals::{begins_string, string_length};
use crate::token::TokenKind;
use crate::word::{begins_word, word_length};

/// The largest length of a name, in bytes.
const LONGEST_NAME: usize = 32;

/// A token at the start of a text: its length in bytes, quotes included, and its kind.
#[derive(Clone, Copy, Debug, PartialEq, Eq)]
pub struct Lexeme {
    /// The token's bytes, quotes included.
    pub length: usize,
    /// What the token is.
    pub kind: TokenKind,
}

/// Reads the word at the start; `at` is the place of its first byte.
fn word(at: usize, rest: &[u8]) -> Result<Lexeme, LexError>
    requires { IsTrue (begins is_letter rest.now) }
    ensures { MatchResult result (IsFrontToken rest.now) (IsBadFront at rest.now) }
{
    let length = word_length(rest);
    if length > LONGEST_NAME {
        return Err(LexError::NameTooLong { at });
    }
    let kind = word_kind(&rest[..length]);
    Ok(Lexeme { length, kind })
}

/// Reads the number at the start; `at` is the place of its first byte.
fn numeral(at: usize, rest: &[u8]) -> Result<Lexeme, LexError>
    requires { IsTrue (begins_numeral rest.now) }
    ensures { MatchResult result (IsFrontToken rest.now) (IsBadFront at rest.now) }
{
    let length = numeral_length(rest);
    match number_value(&rest[..length]) {
        Some(value) => Ok(Lexeme {
            length,
            kind: TokenKind::Number(value),
        }),
        None => Err(LexError::BadNumber { at }),
    }
}

/// Reads the string at the start; `at` is the place of its opening quote.
fn string(at: usize, rest: &[u8]) -> Result<Lexeme, LexError>
    requires { IsTrue (begins is_quote rest.now) }
    ensures { MatchResult result (IsFrontToken rest.now) (IsBadFront at rest.now) }
{
    match string_length(rest) {
        Some(length) => Ok(Lexeme {
            length,
            kind: TokenKind::Text,
        }),
        None => Err(LexError::BadString { at }),
    }
}

/// Reads the longest token at the start of `rest`, which must not begin with a blank or comment. `at` is the place of its first
/// byte, for the error: `BadByte`, `BadNumber`, `NameTooLong` or `BadString`.
pub fn front_lexeme(at: usize, rest: &[u8]) -> Result<Lexeme, LexError>
    requires some { 0 < length rest.now }
    requires no_gap { begins is_gap_byte rest.now ≡ false }
    ensures { MatchResult result (IsFrontToken rest.now) (IsBadFront at rest.now) }
{
    if begins_word(rest) {
        word(at, rest)
    } else if begins_numeral(rest) {
        numeral(at, rest)
    } else if begins_string(rest) {
        string(at, rest)
    } else {
        sign(rest).ok_or(LexError::BadByte { at })
    }
}
