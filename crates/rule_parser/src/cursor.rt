//! The cursor: a place in a list of tokens, with steps that read one token each.

ghost use Rattle.std.specs.Prelude.{◌≡◌, ◌≤◌, All, IsTrue, length, option_map};
ghost use Rattle.lc_model.specs.Text.Token.{string_text};
ghost use Rattle.lc_model.specs.Text.Class as class;
ghost use Rattle.lc_model.specs.Text.Class.{comparison, event_kind, field_type, state};
ghost use Rattle.rule_lexer.specs.Token.{tokens_of, token_of, HasItsKind};
ghost use Rattle.rule_parser.specs.Syntax.{name_of, number_of};
ghost use Rattle.rule_parser.specs.Front.{Gives, IsNext, begins, class_of, is_empty, is_plain, number_at, place_in, string_at, token_at, value_at};

use crate::syntax::{Name, Number};
use lc_model::{ApMode, CmpOp, EventKind, FieldType};
use rule_lexer::laws::kinds_decide_classes;
use rule_lexer::{Token, TokenKind};
use std::marker::Model;

/// The text without its first and last byte.
fn inner<'a>(text: &'a [u8]) -> &'a [u8]
    requires { 2 ≤ length text.now }
    ensures { result.now ≡ string_text text.now }
{
    &text[1..text.len() - 1]
}

/// The tokens that aren't read yet. Contracts see them as a list of the text's remaining parts. A step that returns
/// `None` may have read a token; the parser stops there and reads no more.
#[derive(Drop)]
pub struct Cursor<'t, 'a> {
    tokens: &'t [Token<'a>],
    /// The number of tokens that are read.
    count: usize,
}

impl<'t, 'a> Model for Cursor<'t, 'a> {
    ghost use Rattle.std.specs.Prelude.{List, All, drop};
    ghost use Rattle.lc_model.specs.Text.Token.{Token};
    ghost use Rattle.rule_lexer.specs.Token.{tokens_of, HasItsKind};

    ghost Value = { List Token };

    ghost view = { λ c. tokens_of (drop c.count c.tokens.now) };

    ghost invariant = { λ c. All HasItsKind c.tokens.now };
}

impl<'t, 'a> Cursor<'t, 'a> {
    /// Creates a cursor before the first token.
    pub fn new(tokens: &'t [Token<'a>]) -> Cursor<'t, 'a>
        requires { All HasItsKind tokens.now }
        ensures { result ≡ tokens_of tokens.now }
    {
        Cursor { tokens, count: 0 }
    }

    /// Whether all tokens are read.
    pub fn is_at_end(&self) -> bool
        ensures { result ≡ is_empty self.now }
    {
        self.count >= self.tokens.len()
    }

    /// Returns the next token's place in the text, or `end` if all tokens are read.
    pub fn place(&self, end: usize) -> usize
        ensures { result ≡ place_in end self.now }
    {
        match self.tokens.get(self.count) {
            Some(token) => token.at,
            None => end,
        }
    }

    /// Reads the next token; `None` if all tokens are read.
    pub fn next(&mut self) -> Option<Token<'a>>
        ensures { IsNext self.old self.new result }
    {
        // For the proof: the kind of a token decides its class.
        kinds_decide_classes();
        let token = *self.tokens.get(self.count)?;
        self.count += 1;
        Some(token)
    }

    /// Whether the next token is of this kind, which has no value: a reserved word, a sign, a name or a string.
    pub fn begins(&self, kind: TokenKind) -> bool
        requires { IsTrue (is_plain kind) }
        ensures { result ≡ begins (class_of kind) self.now }
    {
        // For the proof: the kind of a token decides its class.
        kinds_decide_classes();
        match self.tokens.get(self.count) {
            Some(token) => token.kind == kind,
            None => false,
        }
    }

    /// Reads the next token if it is of this kind, else returns `None`. The kind has no value, as with `begins`.
    pub fn take(&mut self, kind: TokenKind) -> Option<Token<'a>>
        requires { IsTrue (is_plain kind) }
        ensures { Gives token_of self.new result (token_at (class_of kind) self.old) }
    {
        if !self.begins(kind) {
            return None;
        }
        self.next()
    }

    /// Reads the next token if it is a name; `None` if it is another token or none is left. So do the next five calls.
    pub fn name(&mut self) -> Option<Name<'a>>
        ensures { Gives name_of self.new result (token_at class.Name self.old) }
    {
        let token = self.next()?;
        match token.kind {
            TokenKind::Name => Some(Name {
                at: token.at,
                text: token.text,
            }),
            _ => None,
        }
    }

    /// Reads a number.
    pub fn number(&mut self) -> Option<Number>
        ensures { Gives number_of self.new result (number_at self.old) }
    {
        let token = self.next()?;
        match token.kind {
            TokenKind::Number(value) => Some(Number {
                at: token.at,
                value,
            }),
            _ => None,
        }
    }

    /// Reads a field's type.
    pub fn field_type(&mut self) -> Option<FieldType>
        ensures { Gives (λ kind. kind) self.new result
            (value_at class.FieldKind field_type self.old) }
    {
        let token = self.next()?;
        match token.kind {
            TokenKind::FieldKind(kind) => Some(kind),
            _ => None,
        }
    }

    /// Reads a rule's state.
    pub fn state(&mut self) -> Option<ApMode>
        ensures { Gives (λ mode. mode) self.new result (value_at class.State state self.old) }
    {
        let token = self.next()?;
        match token.kind {
            TokenKind::State(mode) => Some(mode),
            _ => None,
        }
    }

    /// Reads an event's level.
    pub fn level(&mut self) -> Option<EventKind>
        ensures { Gives (λ kind. kind) self.new result (value_at class.Level event_kind self.old) }
    {
        let token = self.next()?;
        match token.kind {
            TokenKind::Level(kind) => Some(kind),
            _ => None,
        }
    }

    /// Reads a comparison sign.
    pub fn comparison(&mut self) -> Option<CmpOp>
        ensures { Gives (λ op. op) self.new result (value_at class.Compare comparison self.old) }
    {
        let token = self.next()?;
        match token.kind {
            TokenKind::Compare(op) => Some(op),
            _ => None,
        }
    }

    /// Reads a string and returns the bytes between its quotes.
    #[tactic(auto, unfolding(crate::specs::Front::string_at))]
    pub fn string(&mut self) -> Option<&'a [u8]>
        ensures { Gives (λ text. text.now) self.new result (string_at self.old) }
    {
        let text = self.take(TokenKind::Text)?.text;
        Some(inner(text))
    }
}
