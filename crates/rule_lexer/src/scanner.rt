//! The scanner: reads a text from token to token.

ghost use Rattle.std.specs.Prelude.{◌≡◌, ◌+◌, ◌≤◌, length, take, drop, MatchResult};
ghost use Rattle.lc_model.specs.Text.Token.{longest_text};
ghost use Rattle.rule_lexer.specs.Step.{IsStep, IsFaultBehindGap};

use crate::error::LexError;
use crate::gap::gap_length;
use crate::lexeme::{Lexeme, front_lexeme};
use crate::token::Token;

/// The part of a text that isn't read yet, and the number of the text's bytes before it.
#[derive(Drop)]
pub struct Scanner<'a> {
    at: usize,
    rest: &'a [u8],
}

impl<'a> Scanner<'a> {
    /// Creates a scanner at the text's first byte.
    pub fn new(text: &'a [u8]) -> Scanner<'a>
        ensures at { result.at ≡ 0 }
        ensures rest { result.rest.now ≡ text.now }
    {
        Scanner { at: 0, rest: text }
    }

    /// Moves over `count` bytes and returns them.
    fn advance(&mut self, count: usize) -> &'a [u8]
        requires within { count ≤ length self.old.rest.now }
        requires fits { self.old.at + length self.old.rest.now ≤ longest_text }
        ensures front { result.now ≡ take count self.old.rest.now }
        ensures rest { self.new.rest.now ≡ drop count self.old.rest.now }
        ensures at { self.new.at ≡ self.old.at + count }
    {
        let (front, rest) = self.rest.split_at(count);
        self.at += count;
        self.rest = rest;
        front
    }

    /// Moves over the lexeme at the start and returns it as a token with its place.
    fn take(&mut self, lexeme: Lexeme) -> Token<'a>
        requires within { lexeme.length ≤ length self.old.rest.now }
        requires fits { self.old.at + length self.old.rest.now ≤ longest_text }
        ensures token_at { result.at ≡ self.old.at }
        ensures token_text { result.text.now ≡ take lexeme.length self.old.rest.now }
        ensures token_kind { result.kind ≡ lexeme.kind }
        ensures rest { self.new.rest.now ≡ drop lexeme.length self.old.rest.now }
        ensures at { self.new.at ≡ self.old.at + lexeme.length }
    {
        let at = self.at;
        let text = self.advance(lexeme.length);
        Token {
            at,
            text,
            kind: lexeme.kind,
        }
    }

    /// Moves over blanks, comments and the next token; returns that token, or `None` at the end of the text.
    /// The error is that of the first bad token, with its place.
    pub fn next_token(&mut self) -> Result<Option<Token<'a>>, LexError>
        requires { self.old.at + length self.old.rest.now ≤ longest_text }
        ensures { MatchResult result
            (IsStep self.old.at self.old.rest.now self.new.at self.new.rest.now)
            (IsFaultBehindGap self.old.at self.old.rest.now) }
    {
        self.advance(gap_length(self.rest));
        if self.rest.is_empty() {
            return Ok(None);
        }
        let lexeme = front_lexeme(self.at, self.rest)?;
        Ok(Some(self.take(lexeme)))
    }
}
