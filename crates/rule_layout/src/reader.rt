//! Reads the pieces of a rule text, one after the other.

ghost use Rattle.std.specs.Prelude.{◌≡◌, ◌≢◌, ◌<◌, ◌≤◌, false, true, length, take, drop, IfOk, []};
ghost use Rattle.std.specs.List.{prefix_len};
ghost use Rattle.lc_model.specs.Text.Token.{Splits, is_blank};
ghost use Rattle.rule_lexer.specs.Token.{tokens_of};
ghost use Rattle.rule_layout.specs.Pieces.{HasSkipped, HasTaken, IsNext, SplitsInto, begins_blank, is_line_byte, shape_of, shapes_of};
ghost use Rattle.rule_layout.specs.Shapes.{HasShapes, is_comment, lines_after};

use crate::piece::Piece;
use rule_lexer::Token;
use std::alloc::{AllocError, Global};

const LINE_FEED: u8 = b'\n';

/// How many line feeds of a gap are counted: more than one is an empty line.
const MOST_LINES: u8 = 2;

/// The rest of a text, all its tokens, and how many of them stand before the rest.
#[derive(Drop)]
struct PieceReader<'a, 't> {
    rest: &'a [u8],
    tokens: &'t [Token<'a>],
    count: usize,
}

/// Whether the byte is a blank between tokens.
fn is_blank(byte: u8) -> bool
    ensures { result ≡ is_blank byte }
{
    matches!(byte, b' ' | b'\t' | b'\n' | b'\r')
}

/// The line feeds that count after a blank more.
fn lines_after(lines: u8, byte: u8) -> u8
    requires { lines ≤ 2 }
    ensures lines { result ≡ lines_after lines byte }
    ensures few { result ≤ 2 }
{
    if byte == LINE_FEED {
        (lines + 1).min(MOST_LINES)
    } else {
        lines
    }
}

/// The number of bytes before the next line feed, or of all bytes if there is none.
fn line_length(rest: &[u8]) -> usize
    ensures { result ≡ prefix_len is_line_byte rest.now }
{
    rest.iter().take_while(|byte| **byte != LINE_FEED).count()
}

impl<'a, 't> PieceReader<'a, 't> {
    /// Moves over `count` bytes and returns them.
    fn advance(&mut self, count: usize) -> &'a [u8]
        requires { count ≤ length self.old.rest.now }
        ensures front { result.now ≡ take count self.old.rest.now }
        ensures rest { self.new.rest.now ≡ drop count self.old.rest.now }
        ensures tokens { self.new.tokens.now ≡ self.old.tokens.now }
        ensures count { self.new.count ≡ self.old.count }
    {
        let (front, rest) = self.rest.split_at(count);
        self.rest = rest;
        front
    }

    /// Moves over the blanks in front, and returns how many line feeds are among them, at most 2.
    fn skip_blanks(&mut self) -> u8
        requires { SplitsInto self.old.rest.now (drop self.old.count self.old.tokens.now) }
        ensures skipped { HasSkipped self.old.rest.now self.new.rest.now result
            (drop self.new.count self.new.tokens.now) }
        ensures begun { begins_blank self.new.rest.now ≡ false }
    {
        let mut lines = 0;
        while !self.rest.is_empty() && is_blank(self.rest[0]) {
            lines = lines_after(lines, self.rest[0]);
            self.advance(1);
        }
        lines
    }

    /// Moves over the comment in front.
    fn take_comment(&mut self, lines: u8) -> Piece<'a>
        requires splits { SplitsInto self.old.rest.now (drop self.old.count self.old.tokens.now) }
        requires comment { is_comment self.old.rest.now ≡ true }
        ensures { HasTaken lines self.old.rest.now (shape_of result) self.new.rest.now
            (drop self.new.count self.new.tokens.now) }
    {
        let text = self.advance(line_length(self.rest));
        Piece { text, lines }
    }

    /// Moves over the next token, which is in front.
    fn take_token(&mut self, lines: u8) -> Piece<'a>
        requires splits { SplitsInto self.old.rest.now (drop self.old.count self.old.tokens.now) }
        requires within { self.old.count < length self.old.tokens.now }
        requires some { self.old.rest.now ≢ [] }
        requires no_blank { begins_blank self.old.rest.now ≡ false }
        requires no_comment { is_comment self.old.rest.now ≡ false }
        ensures { HasTaken lines self.old.rest.now (shape_of result) self.new.rest.now
            (drop self.new.count self.new.tokens.now) }
    {
        let token = self.tokens[self.count];
        self.count += 1;
        let text = self.advance(token.text.len());
        Piece { text, lines }
    }

    /// Moves over blanks and the next piece, and returns it; `None` at the text's end.
    fn next_piece(&mut self) -> Option<Piece<'a>>
        requires { SplitsInto self.old.rest.now (drop self.old.count self.old.tokens.now) }
        ensures { IsNext self.old.rest.now self.new.rest.now
            (drop self.new.count self.new.tokens.now) result }
    {
        let lines = self.skip_blanks();
        if self.rest.is_empty() {
            None
        } else if self.rest[0] == b'#' {
            Some(self.take_comment(lines))
        } else {
            Some(self.take_token(lines))
        }
    }
}

/// The pieces of a text, in order, from its tokens.
pub(crate) fn pieces_of<'a>(
    alloc: Global,
    text: &'a [u8],
    tokens: &[Token<'a>],
) -> Result<Vec<Piece<'a>>, AllocError>
    requires { Splits text.now (tokens_of tokens.now) }
    ensures { IfOk result (λ pieces. HasShapes 0 text.now (shapes_of pieces.items)) }
{
    let mut pieces = Vec::new(alloc);
    let mut reader = PieceReader {
        rest: text,
        tokens,
        count: 0,
    };
    while let Some(piece) = reader.next_piece() {
        pieces.push(piece)?;
    }
    Ok(pieces)
}
