//! All faults of a text: the compiler's first, and others that don't follow from it.

ghost use Rattle.std.specs.Prelude.{◌≡◌, ◌++◌, List, [], ◌∷◌, map, None, Some, IfOk};
ghost use Rattle.lc_model.specs.Rule.{NamedRule};
ghost use Rattle.lc_model.specs.Text.Reading.{TextRefusal};
ghost use Rattle.lc_model.specs.Tables.Compiling.{Compiles, IsRefused, limit_refusal};
ghost use Rattle.lc_model.specs.Tables.InForce.{limits};
ghost use Rattle.rpn_compiler.specs.Fault.{refusal_of};
ghost use Rattle.rpn_compiler.specs.TextParts.{IsRuleText};
ghost use Rattle.diagnostics.specs.Message.{within};
ghost use Rattle.rule_errors.specs.Telling.{AreInside, BeginsWith, TellsOf};
ghost use Rattle.diagnostics.specs.declared.message.Message.{Message};

use crate::checks::check_place;
use crate::explaining::{explain, explain_limit};
use crate::grammar_errors::read_items;
use crate::item_faults::Checked;
use crate::source::Source;
use crate::tables::{is_too_long, length_message, rule_parts, words_of};
use crate::tokens::{Mended, hides_items, mend, own_errors};
use diagnostics::{MOST_TOLD, Message};
use field_checker::CheckError;
use rpn_compiler::{CompileError, RuleText};
use rule_lexer::{LexError, lex};
use rule_parser::ParseError;
use std::alloc::{AllocError, Global};

/// The numbers of the rules that are too long.
fn long_rules(alloc: Global, source: &Source<'_>) -> Result<Vec<usize>, AllocError> {
    let mut rules = Vec::new(alloc);
    for (rule, item) in rule_parts(alloc, source)?.iter().enumerate() {
        if is_too_long(words_of(source, *item)) {
            rules.push(rule)?;
        }
    }
    Ok(rules)
}

/// The errors of items, by place: all, or more than are counted.
fn item_errors(
    alloc: Global,
    source: &Source<'_>,
    whole: &[bool],
    hides_items: bool,
) -> Result<Vec<CheckError>, AllocError> {
    let checked = Checked::new(&*source, &*whole, hides_items);
    let mut faults = checked.faults(alloc)?;
    faults.sort_by_key(|fault| (check_place(*fault), fault.code()))?;
    Ok(faults)
}

/// Adds errors of tokens.
fn add_tokens(errors: &[LexError], all: &mut Vec<CompileError>) -> Result<(), AllocError> {
    for error in errors {
        all.push(CompileError::Lex(*error))?;
    }
    Ok(())
}

/// Adds errors of the grammar.
fn add_grammar(errors: &[ParseError], all: &mut Vec<CompileError>) -> Result<(), AllocError> {
    for error in errors {
        all.push(CompileError::Parse(*error))?;
    }
    Ok(())
}

/// Adds errors of items.
fn add_items(errors: &[CheckError], all: &mut Vec<CompileError>) -> Result<(), AllocError> {
    for error in errors {
        all.push(CompileError::Check(*error))?;
    }
    Ok(())
}

/// Adds the errors of the grammar, and then those of items.
fn add_parts(
    alloc: Global,
    source: &Source<'_>,
    mended: &Mended,
    all: &mut Vec<CompileError>,
) -> Result<(), AllocError> {
    let bad = mended.errors.as_slice();
    let grammar = read_items(alloc, source, mended.text.as_slice(), bad)?;
    add_grammar(grammar.errors.as_slice(), all)?;
    let hides_items = bad.iter().any(|error| hides_items(source.text, *error));
    let faults = item_errors(alloc, source, grammar.whole.as_slice(), hides_items)?;
    add_items(faults.as_slice(), all)
}

/// All errors of tokens, of the grammar and of items, in this order.
fn all_errors(
    alloc: Global,
    source: &Source<'_>,
    mended: &Mended,
) -> Result<Vec<CompileError>, AllocError> {
    let mut all = Vec::new(alloc);
    let own = own_errors(alloc, source.text, mended.errors.as_slice())?;
    add_tokens(own.as_slice(), &mut all)?;
    add_parts(alloc, source, mended, &mut all)?;
    Ok(all)
}

/// All errors, in the order of the compiler's parts. Empty if the compiler's first error isn't among them: then it may follow from another
/// one, and only it is reported.
fn errors(
    alloc: Global,
    source: &Source<'_>,
    mended: &Mended,
    first: CompileError,
) -> Result<Vec<CompileError>, AllocError> {
    let all = all_errors(alloc, source, mended)?;
    if all.contains(&first) {
        return Ok(all);
    }
    Ok(Vec::new(alloc))
}

/// A list of this message.
fn alone(alloc: Global, message: Message) -> Result<Vec<Message>, AllocError>
    ensures { IfOk result (λ told. told.items ≡ message ∷ []) }
{
    let mut told = Vec::new(alloc);
    told.push(message)?;
    Ok(told)
}

/// Adds a message for each other error, until there are more messages than are shown.
fn add_others(
    alloc: Global,
    source: &Source<'_>,
    first: CompileError,
    errors: &[CompileError],
    told: &mut Vec<Message>,
) -> Result<(), AllocError>
    ensures { IfOk result (λ _. (more : List Message) × (told.new.items ≡ told.old.items ++ more)) }
{
    for error in errors {
        if told.len() > MOST_TOLD {
            break;
        }
        if *error != first {
            told.push(explain(alloc, source, *error)?)?;
        }
    }
    Ok(())
}

/// The message for a text that is too long; it has no tokens.
fn told_of_all(alloc: Global, text: &[u8], first: CompileError) -> Result<Vec<Message>, AllocError>
    ensures { IfOk result (λ told. (message : Message) × (more : List Message)
        × (told.items ≡ message ∷ more) × TellsOf text.now (refusal_of first) message) }
{
    let source = Source::new(alloc, text, Vec::new(alloc))?;
    let message = explain(alloc, &source, first)?;
    alone(alloc, message)
}

/// The messages for the first error of a text with tokens, and for the errors that don't follow from it.
fn told_of_parts(
    alloc: Global,
    text: &[u8],
    first: CompileError,
) -> Result<Vec<Message>, AllocError>
    ensures { IfOk result (λ told. (message : Message) × (more : List Message)
        × (told.items ≡ message ∷ more) × TellsOf text.now (refusal_of first) message) }
{
    let mended = mend(alloc, text)?;
    let Ok(tokens) = lex(alloc, mended.text.as_slice()) else {
        return Err(AllocError);
    };
    let source = Source::new(alloc, text, tokens)?;
    let message = explain(alloc, &source, first)?;
    let mut told = alone(alloc, message)?;
    let errors = errors(alloc, &source, &mended, first)?;
    add_others(alloc, &source, first, errors.as_slice(), &mut told)?;
    Ok(told)
}

/// Adds a message for each other rule that is too long, until there are more messages than are shown.
fn add_long_rules(
    alloc: Global,
    source: &Source<'_>,
    text: &RuleText<'_>,
    first: usize,
    told: &mut Vec<Message>,
) -> Result<(), AllocError>
    requires { IsRuleText text.now }
    ensures { IfOk result (λ _. (more : List Message) × (told.new.items ≡ told.old.items ++ more)) }
{
    for rule in &long_rules(alloc, source)? {
        if told.len() > MOST_TOLD {
            break;
        }
        if *rule != first {
            told.push(length_message(alloc, source, text, *rule)?)?;
        }
    }
    Ok(())
}

/// Adds the messages for other rules that are too long, if the first limit is a rule that is too long.
fn add_beside_limit(
    alloc: Global,
    source: &Source<'_>,
    text: &RuleText<'_>,
    first: CompileError,
    told: &mut Vec<Message>,
) -> Result<(), AllocError>
    requires { IsRuleText text.now }
    ensures { IfOk result (λ _. (more : List Message) × (told.new.items ≡ told.old.items ++ more)) }
{
    match first {
        CompileError::EquationTooLong { rule } => add_long_rules(alloc, source, text, rule, told),
        _ => Ok(()),
    }
}

/// The messages for a text that was read, whose rules exceed this limit first.
fn told_of_limit(
    alloc: Global,
    text: &RuleText<'_>,
    first: CompileError,
) -> Result<Vec<Message>, AllocError>
    requires { IsRuleText text.now }
    ensures { IfOk result (λ told. (message : Message) × (more : List Message)
        × (told.items ≡ message ∷ more) × TellsOf text.now.bytes.now (refusal_of first) message) }
{
    let tokens = Vec::from_slice(alloc, text.tokens.as_slice())?;
    let source = Source::new(alloc, text.bytes, tokens)?;
    let message = explain_limit(alloc, &source, text, first)?;
    let mut told = alone(alloc, message)?;
    add_beside_limit(alloc, &source, text, first, &mut told)?;
    Ok(told)
}

/// The messages for a text that was read; none if its rules keep to the limits of the tables.
fn told_of_read(alloc: Global, text: &RuleText<'_>) -> Result<Vec<Message>, AllocError>
    requires { IsRuleText text.now }
    ensures quiet { limit_refusal limits text.now.rules.rules ≡ None →
        IfOk result (λ told. told.items ≡ []) }
    ensures first { (refusal : TextRefusal) →
        limit_refusal limits text.now.rules.rules ≡ Some refusal →
        IfOk result (λ told. BeginsWith text.now.bytes.now refusal told.items) }
{
    match text.check_limits(alloc) {
        Ok(()) => Ok(Vec::new(alloc)),
        Err(CompileError::Memory) => Err(AllocError),
        Err(error) => told_of_limit(alloc, text, error),
    }
}

/// The messages for a text that can't be read, and has this first error.
fn told_of(alloc: Global, text: &[u8], first: CompileError) -> Result<Vec<Message>, AllocError>
    ensures { IfOk result (λ told. (message : Message) × (more : List Message)
        × (told.items ≡ message ∷ more) × TellsOf text.now (refusal_of first) message) }
{
    if first == CompileError::Lex(LexError::TextTooLong) {
        told_of_all(alloc, text, first)
    } else {
        told_of_parts(alloc, text, first)
    }
}

/// The messages for a text; none for a text that compiles.
fn told_of_text(alloc: Global, text: &[u8]) -> Result<Vec<Message>, AllocError>
    ensures quiet { (rules : List NamedRule) → Compiles limits text.now rules →
        IfOk result (λ told. told.items ≡ []) }
    ensures first { (refusal : TextRefusal) → IsRefused limits text.now refusal →
        IfOk result (λ told. BeginsWith text.now refusal told.items) }
{
    match RuleText::read(alloc, text) {
        Ok(text) => told_of_read(alloc, &text),
        Err(CompileError::Memory) => Err(AllocError),
        Err(error) => told_of(alloc, text, error),
    }
}

/// Takes away each edit that isn't inside the text.
fn keep_inside(text: &[u8], told: &mut [Message])
    ensures { told.new ≡ map (within text.now) told.old }
{
    for message in told.iter_mut() {
        message.keep_inside(text);
    }
}

/// The messages for a text that doesn't compile: first the compiler's refusal with its number and place, then faults that don't follow
/// from it or from one another, in the order of the compiler's parts. Empty for a text that compiles.
///
/// A fault of a quoted text is placed at the forbidden character, or else at the quote. A refusal without a place is placed at the first
/// comparison or rule too many. Each edit is inside the text. The only error is a lack of memory.
pub fn messages(alloc: Global, text: &[u8]) -> Result<Vec<Message>, AllocError>
    ensures quiet { (rules : List NamedRule) → Compiles limits text.now rules →
        IfOk result (λ told. told.items ≡ []) }
    ensures first { (refusal : TextRefusal) → IsRefused limits text.now refusal →
        IfOk result (λ told. BeginsWith text.now refusal told.items) }
    ensures inside { IfOk result (λ told. AreInside text.now told.items) }
{
    let mut told = told_of_text(alloc, text)?;
    keep_inside(text, told.as_mut_slice());
    Ok(told)
}
