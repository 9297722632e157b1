//! The class of tokens that the parser expects at a place of a rule text, for its errors.

ghost use Rattle.std.specs.Prelude.{◌≡◌, Some};
ghost use Rattle.rule_parser.specs.What.{kind_of_sign, kind_of_word, sign_text, what_text, word_text};

use rule_lexer::TokenKind;
use std::fmt;

/// A class of tokens that the parser expects. It displays as in an error's text.
#[derive(Clone, Copy, Debug, PartialEq, Eq)]
pub enum What {
    /// `packet`, `field` or `rule`, which begin an item.
    Item,
    /// A name: a word that isn't reserved.
    Name,
    /// A number.
    Number,
    /// A string.
    Text,
    /// A field's type: `u8`, `i8`, `u16be` and so on.
    FieldKind,
    /// `active`, `passive` or `disabled`.
    State,
    /// `debug`, `info`, `error` or `critical`.
    Level,
    /// The first token of a condition's operand: a name, `not` or `(`.
    Operand,
    /// A comparison sign: `<`, `<=`, `!=`, `==`, `>=` or `>`.
    Compare,
    /// This reserved word.
    Word(Word),
    /// This sign.
    Sign(Sign),
}

/// A reserved word inside an item that has no value; each variant stands for the word in lower case.
#[derive(Clone, Copy, Debug, PartialEq, Eq)]
pub enum Word {
    /// `mid`
    Mid,
    /// `length`
    Length,
    /// `at`
    At,
    /// `mask`
    Mask,
    /// `stale`
    Stale,
    /// `fails`
    Fails,
    /// `sequence`
    Sequence,
    /// `event`
    Event,
    /// `report`
    Report,
    /// `when`
    When,
}

/// A sign without a value: `=`, `;` or `)`.
#[derive(Clone, Copy, Debug, PartialEq, Eq)]
pub enum Sign {
    /// `=`
    Equals,
    /// `;`
    Semicolon,
    /// `)`
    Close,
}

impl Word {
    /// Returns the kind of this word's tokens.
    pub fn kind(self) -> TokenKind
        ensures { result ≡ kind_of_word self }
    {
        match self {
            Word::Mid => TokenKind::Mid,
            Word::Length => TokenKind::Length,
            Word::At => TokenKind::At,
            Word::Mask => TokenKind::Mask,
            Word::Stale => TokenKind::Stale,
            Word::Fails => TokenKind::Fails,
            Word::Sequence => TokenKind::Sequence,
            Word::Event => TokenKind::Event,
            Word::Report => TokenKind::Report,
            Word::When => TokenKind::When,
        }
    }
}

impl Sign {
    /// Returns the kind of this sign's tokens.
    pub fn kind(self) -> TokenKind
        ensures { result ≡ kind_of_sign self }
    {
        match self {
            Sign::Equals => TokenKind::Equals,
            Sign::Semicolon => TokenKind::Semicolon,
            Sign::Close => TokenKind::Close,
        }
    }
}

impl fmt::Display for Word {
    ghost output = { λ w. Some (word_text w) };

    fn fmt<W: fmt::Write>(&self, f: &mut fmt::Formatter<W>) -> fmt::Result {
        f.write_str(match self {
            Word::Mid => "mid",
            Word::Length => "length",
            Word::At => "at",
            Word::Mask => "mask",
            Word::Stale => "stale",
            Word::Fails => "fails",
            Word::Sequence => "sequence",
            Word::Event => "event",
            Word::Report => "report",
            Word::When => "when",
        })
    }
}

impl fmt::Display for Sign {
    ghost output = { λ s. Some (sign_text s) };

    fn fmt<W: fmt::Write>(&self, f: &mut fmt::Formatter<W>) -> fmt::Result {
        f.write_str(match self {
            Sign::Equals => "=",
            Sign::Semicolon => ";",
            Sign::Close => ")",
        })
    }
}

impl fmt::Display for What {
    ghost output = { λ w. Some (what_text w) };

    fn fmt<W: fmt::Write>(&self, f: &mut fmt::Formatter<W>) -> fmt::Result {
        match self {
            What::Item => write!(f, "`packet`, `field` or `rule`"),
            What::Name => write!(f, "a name"),
            What::Number => write!(f, "a number"),
            What::Text => write!(f, "a string"),
            What::FieldKind => write!(f, "a field type"),
            What::State => write!(f, "`active`, `passive` or `disabled`"),
            What::Level => write!(f, "`debug`, `info`, `error` or `critical`"),
            What::Operand => write!(f, "a name, `not` or `(`"),
            What::Compare => write!(f, "a comparison"),
            What::Word(word) => write!(f, "`{word}`"),
            What::Sign(sign) => write!(f, "`{sign}`"),
        }
    }
}
