//! Messages for refusals.

ghost use Rattle.std.specs.Prelude.{IfOk};
ghost use Rattle.rpn_compiler.specs.declared.error.CompileError.TheVariants.{Parse};
ghost use Rattle.rpn_compiler.specs.Fault.{refusal_of};
ghost use Rattle.rpn_compiler.specs.TextParts.{IsRuleText};
ghost use Rattle.rule_errors.specs.Telling.{TellsOf};

use crate::checks::check_message;
use crate::grammar::{expected_message, nested_message};
use crate::source::Source;
use crate::tables::{comparisons_message, length_message, rules_message};
use crate::token_faults::token_message;
use diagnostics::Message;
use rpn_compiler::{CompileError, RuleText};
use rule_parser::ParseError;
use std::alloc::{AllocError, Global};

/// The message for an error of the grammar.
fn parse_message(
    alloc: Global,
    source: &Source<'_>,
    error: ParseError,
) -> Result<Message, AllocError>
    ensures { IfOk result (TellsOf source.now.text.now (refusal_of (Parse error))) }
{
    match error {
        ParseError::Expected { at, what } => expected_message(alloc, source, at, what),
        ParseError::TooNested { at } => nested_message(alloc, source, at),
        ParseError::Memory => Err(AllocError),
    }
}

/// The message for the refusal of a text that can't be read: its number, its place if it has one, and what to do. A limit of the tables
/// is explained by `explain_limit`; a lack of memory isn't a refusal.
pub fn explain(
    alloc: Global,
    source: &Source<'_>,
    error: CompileError,
) -> Result<Message, AllocError>
    ensures { IfOk result (TellsOf source.now.text.now (refusal_of error)) }
{
    match error {
        CompileError::Lex(error) => token_message(alloc, source.text, error),
        CompileError::Parse(error) => parse_message(alloc, source, error),
        CompileError::Check(error) => check_message(alloc, source, error),
        CompileError::TooManyWatchpoints
        | CompileError::TooManyRules
        | CompileError::EquationTooLong { .. }
        | CompileError::Memory => Err(AllocError),
    }
}

/// The message for a limit of the tables that a text's rules exceed: its number, its place, and what to do.
pub fn explain_limit(
    alloc: Global,
    source: &Source<'_>,
    text: &RuleText<'_>,
    error: CompileError,
) -> Result<Message, AllocError>
    requires { IsRuleText text.now }
    ensures { IfOk result (TellsOf text.now.bytes.now (refusal_of error)) }
{
    match error {
        CompileError::TooManyWatchpoints => comparisons_message(alloc, source, text),
        CompileError::TooManyRules => rules_message(alloc, text),
        CompileError::EquationTooLong { rule } => length_message(alloc, source, text, rule),
        CompileError::Lex(_)
        | CompileError::Parse(_)
        | CompileError::Check(_)
        | CompileError::Memory => Err(AllocError),
    }
}
