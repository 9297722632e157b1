//! A rule text that was read.

ghost use Rattle.std.specs.Prelude.{◌≡◌, List, None, Some, IfErr, IfOk, MatchResult};
ghost use Rattle.lc_model.specs.Rule.{NamedRule};
ghost use Rattle.lc_model.specs.Text.Reading.{IsUnreadable, Reads, TextRefusal};
ghost use Rattle.lc_model.specs.Tables.Compiling.{IsRefused, limit_refusal};
ghost use Rattle.lc_model.specs.Tables.InForce.{limits};
ghost use Rattle.rpn_compiler.specs.declared.error.CompileError.TheVariants.{Memory};
ghost use Rattle.rpn_compiler.specs.Fault.{Refuses};
ghost use Rattle.rpn_compiler.specs.Naming.{IsOfTables, NamesTheNumberIn};
ghost use Rattle.rpn_compiler.specs.Pair.{AreTables};
ghost use Rattle.rpn_compiler.specs.TextParts.{IsRuleText};

use crate::error::CompileError;
use crate::files::{TablePair, files};
use crate::lowering::{lower, share_within};
use field_checker::check;
use lc_model::RuleSet;
use rule_lexer::{Token, lex};
use rule_parser::{RuleFile, parse};
use std::alloc::Global;

/// A rule text that was read (`RuleText::read`): its tokens and items are those of its bytes, and its rules are those that the
/// items mean.
#[derive(Debug, Drop)]
pub struct RuleText<'a> {
    /// The text, from its first byte to its last.
    pub bytes: &'a [u8],
    /// Its tokens, each with its place among the bytes.
    pub tokens: Vec<Token<'a>>,
    /// Its items, in their order, with the places of names and numbers.
    pub file: RuleFile<'a>,
    /// The rules that the items mean, each name replaced by what it names.
    pub rules: RuleSet,
}

impl<'a> RuleText<'a> {
    /// Reads a text. It does not count rules and watchpoints: `check_limits` and `compile` do that.
    ///
    /// Errors: the first refusal; the whole text is lexed, then parsed, then checked. `Memory`.
    pub fn read(alloc: Global, text: &'a [u8]) -> Result<RuleText<'a>, CompileError>
        ensures bytes { IfOk result (λ it. it.bytes.now ≡ text.now) }
        ensures reads { IfOk result IsRuleText }
        ensures refused { IfErr result (Refuses (IsUnreadable text.now)) }
        // If the error is 28, the text has a number that is out of its range at the error's place.
        ensures named { IfErr result (NamesTheNumberIn text.now) }
        ensures accepts { (rules : List NamedRule) → Reads text.now rules →
            MatchResult result (λ it. it.rules.rules ≡ rules) (λ error. error ≡ Memory) }
        ensures refuses { (refusal : TextRefusal) → IsUnreadable text.now refusal →
            MatchResult result (λ _. ⊥) (Refuses (λ found. found ≡ refusal)) }
    {
        let tokens = lex(alloc, text)?;
        let file = parse(alloc, text, tokens.as_slice())?;
        let rules = check(alloc, &file)?;
        Ok(RuleText {
            bytes: text,
            tokens,
            file,
            rules,
        })
    }

    /// Reads a valid text, which is one that compiles; nothing is compiled.
    ///
    /// Errors: the first refusal, as of `compile`; `Memory`.
    pub fn read_valid(alloc: Global, text: &'a [u8]) -> Result<RuleText<'a>, CompileError>
        ensures bytes { IfOk result (λ it. it.bytes.now ≡ text.now) }
        ensures reads { IfOk result IsRuleText }
        ensures within { IfOk result (λ it. limit_refusal limits it.rules.rules ≡ None) }
        ensures refused { IfErr result (Refuses (IsRefused limits text.now)) }
        ensures named { IfErr result (NamesTheNumberIn text.now) }
    {
        let it = RuleText::read(alloc, text)?;
        it.check_limits(alloc)?;
        Ok(it)
    }

    /// Whether its rules and watchpoints are within the limits of the tables.
    ///
    /// Errors: the first limit that they exceed, as of `compile`; `Memory`.
    pub fn check_limits(&self, alloc: Global) -> Result<(), CompileError>
        ensures within { IfOk result (λ _. limit_refusal limits self.now.rules.rules ≡ None) }
        ensures refused { IfErr result
            (Refuses (λ refusal. limit_refusal limits self.now.rules.rules ≡ Some refusal)) }
        ensures tables { IfErr result IsOfTables }
    {
        let _shared = share_within(alloc, &self.rules)?;
        Ok(())
    }

    /// Makes the files of its two tables: its watchpoints in order of first mention, its rules in the order of the text, each
    /// equation in postfix form, and in both files the SHA-256 of the text.
    ///
    /// Errors: over 176 watchpoints, then over 176 rules, then the first rule of over 32 words; `Memory`.
    pub fn compile(&self, alloc: Global) -> Result<TablePair, CompileError>
        requires reads { IsRuleText self.now }
        ensures within { IfOk result (λ _. limit_refusal limits self.now.rules.rules ≡ None) }
        ensures pair { IfOk result (AreTables self.now.bytes.now self.now.rules.rules) }
        ensures refused { IfErr result
            (Refuses (λ refusal. limit_refusal limits self.now.rules.rules ≡ Some refusal)) }
        ensures tables { IfErr result IsOfTables }
    {
        let lowered = lower(alloc, &self.rules)?;
        files(alloc, self.bytes, &self.rules, lowered)
    }
}
