//! Tokens of rule texts (this project's own language).

use lc_model::{ApMode, CmpOp, EventKind, FieldType};

/// One token of a rule text: a word, a number, a string or a sign.
#[derive(Clone, Copy, Debug, PartialEq, Eq)]
pub struct Token<'a> {
    /// The number of the text's bytes before the token.
    pub at: usize,
    /// The token's bytes as they stand in the text; a string's include its quotes.
    pub text: &'a [u8],
    /// What the token is, with its value if it has one.
    pub kind: TokenKind,
}

/// The kind of a token. Each reserved word and each sign has its own kind, so that no later layer compares texts.
#[derive(Clone, Copy, Debug, PartialEq, Eq)]
pub enum TokenKind {
    /// `packet`
    Packet,
    /// `field`
    Field,
    /// `rule`
    Rule,
    /// `mid`
    Mid,
    /// `length`
    Length,
    /// `at`
    At,
    /// `mask`
    Mask,
    /// `stale`
    Stale,
    /// `fails`
    Fails,
    /// `sequence`
    Sequence,
    /// `event`
    Event,
    /// `report`
    Report,
    /// `when`
    When,
    /// `or`
    Or,
    /// `xor`
    Xor,
    /// `and`
    And,
    /// `not`
    Not,
    /// A field's type: `u8`, `i8`, `u16be` and so on.
    FieldKind(FieldType),
    /// `active`, `passive` or `disabled`.
    State(ApMode),
    /// `debug`, `info`, `error` or `critical`.
    Level(EventKind),
    /// A word of at most 32 bytes that isn't reserved.
    Name,
    /// A number, decimal or hexadecimal, with magnitude below 2^32.
    Number(i64),
    /// A string with at most 31 bytes between its quotes.
    Text,
    /// `=`
    Equals,
    /// `;`
    Semicolon,
    /// `(`
    Open,
    /// `)`
    Close,
    /// `<`, `<=`, `!=`, `==`, `>=` or `>`.
    Compare(CmpOp),
}
