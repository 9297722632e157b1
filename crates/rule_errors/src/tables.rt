//! Messages for rules that exceed the limits of the tables.

ghost use Rattle.std.specs.Prelude.{◌≡◌, IfOk};
ghost use Rattle.rpn_compiler.specs.declared.error.CompileError.TheVariants.{EquationTooLong, TooManyRules, TooManyWatchpoints};
ghost use Rattle.rpn_compiler.specs.Fault.{refusal_of};
ghost use Rattle.rpn_compiler.specs.TextParts.{IsRuleText};
ghost use Rattle.rule_errors.specs.Telling.{TellsOf};

use crate::marks::mark;
use crate::rules::{comparisons, rule_name};
use crate::source::{NameKind, Source, TokenRange};
use diagnostics::{Many, Mark, Message, quote};
use lc_model::{EQUATION_WORDS, TABLE_ENTRIES};
use rpn_compiler::RuleText;
use rule_lexer::TokenKind;
use rule_parser::Name;
use std::alloc::{AllocError, Global};

/// The size of a condition.
#[derive(Clone, Copy)]
pub struct ConditionSize {
    /// The number of its comparisons.
    pub comparisons: usize,
    /// The number of its operators.
    pub operators: usize,
}

/// Counts the comparisons and operators of an item.
pub fn words_of(source: &Source<'_>, part: TokenRange) -> ConditionSize {
    let mut words = ConditionSize {
        comparisons: 0,
        operators: 0,
    };
    for token in source.tokens_of(part) {
        match token.kind {
            TokenKind::Compare(_) => words.comparisons = words.comparisons.saturating_add(1),
            TokenKind::Not | TokenKind::And | TokenKind::Or | TokenKind::Xor => words.operators =
                words.operators.saturating_add(1),
            _ => {}
        }
    }
    words
}

/// Whether a condition is too long for one rule.
pub fn is_too_long(words: ConditionSize) -> bool {
    words.comparisons.saturating_add(words.operators) >= EQUATION_WORDS
}

/// The items of all rules.
pub fn rule_parts(alloc: Global, source: &Source<'_>) -> Result<Vec<TokenRange>, AllocError> {
    let mut rules = Vec::new(alloc);
    for part in &source.parts {
        if source.kind_of(*part) == Some(NameKind::Rule) {
            rules.push(*part)?;
        }
    }
    Ok(rules)
}

/// A mark under a rule's name.
fn name_mark(name: Name<'_>, label: String) -> Mark
    ensures { result.at ≡ name.entry.at }
{
    Mark {
        at: name.at,
        size: name.text.len(),
        label,
    }
}

/// What is wrong with a text that has too many of a thing; `count` is their number.
fn count_head(alloc: Global, count: usize, name: &str) -> Result<String, AllocError> {
    let count = Many(count, name);
    format!(in alloc; "the file has {count}, at most 176 are allowed")
}

/// The message for a text of over 176 rules.
pub fn rules_message(alloc: Global, text: &RuleText<'_>) -> Result<Message, AllocError>
    requires { IsRuleText text.now }
    ensures { IfOk result (TellsOf text.now.bytes.now (refusal_of TooManyRules)) }
{
    let name = rule_name(text, TABLE_ENTRIES)?;
    let head = count_head(alloc, text.rules.rules.as_slice().len(), "rule")?;
    let label = String::from_str(alloc, "this is the 177th")?;
    Ok(Message::at(alloc, 41, head, name_mark(name, label)))
}

/// The item of the rule with this number, counted from 0.
fn rule_part(alloc: Global, source: &Source<'_>, rule: usize) -> Result<TokenRange, AllocError> {
    let rules = rule_parts(alloc, source)?;
    match rules.get(rule) {
        Some(part) => Ok(*part),
        None => Ok(TokenRange { from: 0, to: 0 }),
    }
}

/// What is wrong with a rule whose condition has `count` comparisons and operators.
fn length_head(alloc: Global, name: Name<'_>, count: usize) -> Result<String, AllocError> {
    let name = quote(alloc, name.text)?;
    format!(in alloc;
        "the condition of {name} has {count} comparisons and operators, at most 31 are allowed"
    )
}

/// The message for a rule of over 31 comparisons and operators.
pub fn length_message(
    alloc: Global,
    source: &Source<'_>,
    text: &RuleText<'_>,
    rule: usize,
) -> Result<Message, AllocError>
    requires { IsRuleText text.now }
    ensures { IfOk result (TellsOf text.now.bytes.now (refusal_of (EquationTooLong rule))) }
{
    let part = rule_part(alloc, source, rule)?;
    let words = words_of(source, part);
    let name = rule_name(text, rule)?;
    let count = words.comparisons.saturating_add(words.operators);
    let head = length_head(alloc, name, count)?;
    let label = String::from_str(alloc, "split this rule in two")?;
    let other = condition_mark(alloc, source, part, words)?;
    Message::at(alloc, 42, head, name_mark(name, label)).with(other)
}

/// The size of a condition, in words.
fn words_label(alloc: Global, words: ConditionSize) -> Result<String, AllocError> {
    let comparisons = Many(words.comparisons, "comparison");
    let operators = Many(words.operators, "operator");
    format!(in alloc; "{comparisons} and {operators}")
}

/// A mark at the `when` of a rule, with the size of its condition.
fn condition_mark(
    alloc: Global,
    source: &Source<'_>,
    part: TokenRange,
    words: ConditionSize,
) -> Result<Option<Mark>, AllocError> {
    match source.first_of(part, TokenKind::When) {
        Some(when) => Ok(Some(mark(when, words_label(alloc, words)?))),
        None => Ok(None),
    }
}

/// The message for a text of over 176 different comparisons.
pub fn comparisons_message(
    alloc: Global,
    source: &Source<'_>,
    text: &RuleText<'_>,
) -> Result<Message, AllocError>
    requires { IsRuleText text.now }
    ensures { IfOk result (TellsOf text.now.bytes.now (refusal_of TooManyWatchpoints)) }
{
    let found = comparisons(alloc, text)?;
    let head = count_head(alloc, found.count, "different comparison")?;
    let label = String::from_str(alloc, "this is the 177th")?;
    Ok(Message::at(alloc, 31, head, comparison_mark(source, found.at, label)))
}

/// A mark under the comparison at this place: the name of its field, its operator and its number.
fn comparison_mark(source: &Source<'_>, at: usize, label: String) -> Mark
    ensures { result.at ≡ at }
{
    let last = source.token(source.number_at(at).saturating_add(2));
    let end = match last {
        Some(last) => last.at.saturating_add(last.text.len()),
        None => at,
    };
    Mark {
        at,
        size: end.saturating_sub(at),
        label,
    }
}
