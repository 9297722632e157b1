//! The parser's public call: a text's tokens become its items.

ghost use Rattle.std.specs.Prelude.{◌≡◌, All, List, IfErr, IfOk, MatchResult, length};
ghost use Rattle.lc_model.specs.Text.Reading.{HasParseFault, ParseFault, Parses};
ghost use Rattle.lc_model.specs.Text.Syntax.{Item};
ghost use Rattle.lc_model.specs.Text.Token.{Splits};
ghost use Rattle.rule_lexer.specs.Token.{tokens_of, HasItsKind};
ghost use Rattle.rule_parser.specs.Fault.{Refuses};
ghost use Rattle.rule_parser.specs.Syntax.{items_of};
ghost use Rattle.rule_parser.specs.declared.error.ParseError.TheVariants.{Memory};

use crate::error::ParseError;
use crate::file;
use crate::syntax::RuleFile;
use rule_lexer::Token;
use std::alloc::Global;

/// Reads the items from the tokens of a text of `end` bytes.
fn read<'a>(alloc: Global, tokens: &[Token<'a>], end: usize) -> Result<RuleFile<'a>, ParseError>
    requires { All HasItsKind tokens.now }
    ensures derives { IfOk result
        (λ file. Parses (tokens_of tokens.now) (items_of file.items.items)) }
    ensures refused { IfErr result (Refuses (HasParseFault end (tokens_of tokens.now))) }
{
    Ok(RuleFile {
        items: file::items(alloc, tokens, end)?,
    })
}

/// Parses a text's tokens in one pass, with one token of look-ahead. It checks only the order of the tokens
/// (grammar: docs/RULES.md, this project's own). Errors: `Expected` at the first token that fits no valid text, or at
/// the text's end; `TooNested` at a condition's 65th nesting token; `Memory` for the list or an operator's box.
pub fn parse<'a>(
    alloc: Global,
    text: &[u8],
    tokens: &[Token<'a>],
) -> Result<RuleFile<'a>, ParseError>
    requires kinds { All HasItsKind tokens.now }
    requires splits { Splits text.now (tokens_of tokens.now) }
    ensures derives { IfOk result
        (λ file. Parses (tokens_of tokens.now) (items_of file.items.items)) }
    ensures refused { IfErr result
        (Refuses (HasParseFault (length text.now) (tokens_of tokens.now))) }
    ensures accepts { (items : List Item) → Parses (tokens_of tokens.now) items →
        MatchResult result (λ file. items_of file.items.items ≡ items) (λ error. error ≡ Memory) }
    ensures refuses { (fault : ParseFault) →
        HasParseFault (length text.now) (tokens_of tokens.now) fault →
        MatchResult result (λ file. ⊥) (Refuses (λ found. found ≡ fault)) }
{
    read(alloc, tokens, text.len())
}
