//! The lexer's public call: a text becomes its tokens.

ghost use Rattle.std.specs.Prelude.{◌≡◌, List, All, IfErr, IfOk, MatchResult};
ghost use Rattle.lc_model.specs.Text.Token as model;
ghost use Rattle.lc_model.specs.Text.Token.{Splits};
ghost use Rattle.rule_lexer.specs.declared.error.LexError.{LexError};
ghost use Rattle.rule_lexer.specs.declared.error.LexError.TheVariants.{Memory};
ghost use Rattle.rule_lexer.specs.Token.{tokens_of, HasItsKind};
ghost use Rattle.rule_lexer.specs.Fault.{IsFault, IsFaultUnlessMemory, IsUnlessMemory};

use crate::error::LexError;
use crate::scanner::Scanner;
use crate::token::Token;
use lc_model::LONGEST_TEXT;
use std::alloc::Global;

/// The list starts with room for one token per two bytes of text. Rules and declarations have fewer tokens;
/// for a text with more, the list grows.
const BYTES_PER_TOKEN: usize = 2;

/// Collects the tokens up to the end of the text or its first fault.
fn scan<'a>(alloc: Global, text: &'a [u8]) -> Result<Vec<Token<'a>>, LexError>
    ensures splits { IfOk result (λ found. Splits text.now (tokens_of found.items)) }
    ensures kinds { IfOk result (λ found. All HasItsKind found.items) }
    ensures refused { IfErr result (λ error. IsFaultUnlessMemory text.now error) }
{
    if text.len() > LONGEST_TEXT {
        return Err(LexError::TextTooLong);
    }
    let mut tokens = Vec::with_capacity(alloc, text.len() / BYTES_PER_TOKEN)?;
    let mut scanner = Scanner::new(text);
    while let Some(token) = scanner.next_token()? {
        tokens.push(token)?;
    }
    Ok(tokens)
}

/// Splits a rule text into its tokens, in order; each takes the longest text that fits, a slice of `text`. Blanks
/// and comments (`#` to the end of its line) separate tokens. Errors: `TextTooLong` first, then the first bad
/// token with its place, or `Memory` if there is none for the list. This project's own language (docs/RULES.md).
pub fn lex<'a>(alloc: Global, text: &'a [u8]) -> Result<Vec<Token<'a>>, LexError>
    ensures splits { IfOk result (λ found. Splits text.now (tokens_of found.items)) }
    ensures kinds { IfOk result (λ found. All HasItsKind found.items) }
    ensures refused { IfErr result (λ error. IsFaultUnlessMemory text.now error) }
    ensures accepts { (tokens : List model.Token) → Splits text.now tokens →
        MatchResult result (λ found. tokens_of found.items ≡ tokens) (λ error. error ≡ Memory) }
    ensures refuses { (fault : LexError) → IsFault text.now fault →
        MatchResult result (λ found. ⊥) (λ error. IsUnlessMemory fault error) }
{
    scan(alloc, text)
}
