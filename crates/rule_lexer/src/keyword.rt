//! The kind of each word: which reserved word it is, or a name.

ghost use Rattle.std.specs.Prelude.{◌≡◌, IsTrue, IsFalse, MatchOption, bytes_eq};
ghost use Rattle.std.specs.List.{list_any};
ghost use Rattle.lc_model.specs.Text.Token.{is_word};
ghost use Rattle.lc_model.specs.Text.Class.{other_words};
ghost use Rattle.rule_lexer.specs.Token.{IsKind};
ghost use Rattle.rule_lexer.specs.WordGroups.{item_words, field_words, rule_words, operator_words};

use crate::token::TokenKind;
use lc_model::{ApMode, EventKind, FieldType};

/// The kind of a word that begins an item, or `None` for other words.
fn item_word(word: &[u8]) -> Option<TokenKind>
    ensures { MatchOption result (IsFalse (list_any (bytes_eq word.now) item_words))
        (λ kind. IsKind kind word.now) }
{
    match word {
        b"packet" => Some(TokenKind::Packet),
        b"field" => Some(TokenKind::Field),
        b"rule" => Some(TokenKind::Rule),
        _ => None,
    }
}

/// The kind of a word that stands in a packet or a field, or `None` for other words.
fn field_word(word: &[u8]) -> Option<TokenKind>
    ensures { MatchOption result (IsFalse (list_any (bytes_eq word.now) field_words))
        (λ kind. IsKind kind word.now) }
{
    match word {
        b"mid" => Some(TokenKind::Mid),
        b"length" => Some(TokenKind::Length),
        b"at" => Some(TokenKind::At),
        b"mask" => Some(TokenKind::Mask),
        b"stale" => Some(TokenKind::Stale),
        _ => None,
    }
}

/// The kind of a word that stands in a rule, or `None` for other words.
fn rule_word(word: &[u8]) -> Option<TokenKind>
    ensures { MatchOption result (IsFalse (list_any (bytes_eq word.now) rule_words))
        (λ kind. IsKind kind word.now) }
{
    match word {
        b"fails" => Some(TokenKind::Fails),
        b"sequence" => Some(TokenKind::Sequence),
        b"event" => Some(TokenKind::Event),
        b"report" => Some(TokenKind::Report),
        b"when" => Some(TokenKind::When),
        _ => None,
    }
}

/// The kind of an operator of a condition, or `None` for other words.
fn operator_word(word: &[u8]) -> Option<TokenKind>
    ensures { MatchOption result (IsFalse (list_any (bytes_eq word.now) operator_words))
        (λ kind. IsKind kind word.now) }
{
    match word {
        b"or" => Some(TokenKind::Or),
        b"xor" => Some(TokenKind::Xor),
        b"and" => Some(TokenKind::And),
        b"not" => Some(TokenKind::Not),
        _ => None,
    }
}

/// The kind of a reserved word without a value, or `None` for other words.
fn plain_word(word: &[u8]) -> Option<TokenKind>
    ensures { MatchOption result (IsFalse (list_any (bytes_eq word.now) other_words))
        (λ kind. IsKind kind word.now) }
{
    if let Some(kind) = item_word(word) {
        Some(kind)
    } else if let Some(kind) = field_word(word) {
        Some(kind)
    } else if let Some(kind) = rule_word(word) {
        Some(kind)
    } else {
        operator_word(word)
    }
}

/// Returns the kind of a word: which reserved word it is, or `Name` if it is not reserved.
pub fn word_kind(word: &[u8]) -> TokenKind
    requires { IsTrue (is_word word.now) }
    ensures { IsKind result word.now }
{
    if let Some(kind) = plain_word(word) {
        kind
    } else if let Some(kind) = FieldType::from_word(word) {
        TokenKind::FieldKind(kind)
    } else if let Some(mode) = ApMode::from_word(word) {
        TokenKind::State(mode)
    } else if let Some(kind) = EventKind::from_word(word) {
        TokenKind::Level(kind)
    } else {
        TokenKind::Name
    }
}
