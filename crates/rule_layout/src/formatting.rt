//! The public call: a rule text gets its layout.

ghost use Rattle.std.specs.Prelude.{◌≤◌, All, IfErr, IfOk, length};
ghost use Rattle.lc_model.specs.Text.Token.{Splits, longest_text};
ghost use Rattle.rule_lexer.specs.Token.{HasItsKind, tokens_of};
ghost use Rattle.rule_layout.specs.Formatting.{HasItems, IsFormatted, IsUnformatted};

use crate::error::FormatError;
use crate::reader::pieces_of;
use crate::writing::text_of;
use lc_model::LONGEST_TEXT;
use rule_lexer::{Token, lex};
use rule_parser::{ParseError, parse};
use std::alloc::Global;

/// Refuses tokens that are no items.
fn look_at_items(alloc: Global, text: &[u8], tokens: &[Token]) -> Result<(), FormatError>
    requires kinds { All HasItsKind tokens.now }
    requires splits { Splits text.now (tokens_of tokens.now) }
    ensures items { IfOk result (λ _. HasItems text.now) }
    ensures refused { IfErr result (IsUnformatted text.now) }
{
    match parse(alloc, text, tokens) {
        Ok(_) => Ok(()),
        Err(ParseError::Memory) => Err(FormatError::Memory),
        Err(error) => Err(FormatError::Parse(error)),
    }
}

/// Returns a rule text in the one layout: at most 100 columns where an item can be broken, four blanks before lines that go
/// on, `=` in one column over neighbouring declarations of one kind, empty lines singly, comments where they stand.
pub fn format(alloc: Global, text: &[u8]) -> Result<Vec<u8>, FormatError>
    ensures items { IfOk result (λ _. HasItems text.now) }
    ensures formatted { IfOk result (λ out. IsFormatted text.now out.items) }
    ensures short { IfOk result (λ out. length out.items ≤ longest_text) }
    ensures refused { IfErr result (IsUnformatted text.now) }
{
    let tokens = match lex(alloc, text) {
        Ok(tokens) => tokens,
        Err(rule_lexer::LexError::Memory) => return Err(FormatError::Memory),
        Err(error) => return Err(FormatError::Lex(error)),
    };
    look_at_items(alloc, text, tokens.as_slice())?;
    let pieces = pieces_of(alloc, text, tokens.as_slice())?;
    let out = text_of(alloc, pieces.as_slice())?;
    if out.len() > LONGEST_TEXT {
        return Err(FormatError::TooLong);
    }
    Ok(out)
}
