//! The condition of a rule, from its tokens. Its tokens `(`, `not`, `and`, `xor` and `or` are counted and limited to
//! 64, so no text can exhaust the stack.

ghost use Rattle.std.specs.Prelude.{◌≡◌, MatchResult, true};
ghost use Rattle.lc_model.specs.Text.Class.{sign, word};
ghost use Rattle.lc_model.specs.Text.Grammar as grammar;
ghost use Rattle.lc_model.specs.Text.Reading.{most_nested};
ghost use Rattle.rule_parser.specs.Condition.{Stops, Took, TookCondition, operands_of, part_of};
ghost use Rattle.rule_parser.specs.Fault.{Refuses};
ghost use Rattle.rule_parser.specs.Front.{begins};
ghost use Rattle.rule_parser.specs.Left.{Reads, comparison_in};
ghost use Rattle.rule_parser.specs.Syntax.{comparison_of, expression_of};

use crate::error::ParseError;
use crate::operator::Operator;
use crate::reader::Reader;
use crate::syntax::{Comparison, Expression};
use crate::what::Sign;
use rule_lexer::TokenKind;
use std::alloc::Global;

/// The most nesting tokens of one condition: `(`, `not`, `and`, `xor` and `or`, counted together over all of it.
const MOST_NESTING: usize = 64;

/// Reads `FIELD OPERATOR NUMBER`.
#[tactic(auto, unfolding(crate::specs::Left::comparison_in))]
fn comparison<'a>(tokens: &mut Reader<'_, 'a>) -> Result<Comparison<'a>, ParseError>
    ensures { Reads comparison_of tokens.new result (comparison_in tokens.old) }
{
    let field = tokens.operand_name()?;
    let op = tokens.comparison()?;
    let value = tokens.number()?;
    Ok(Comparison { field, op, value })
}

/// Reads `not` and an operand.
#[cycle(condition)]
fn read_negation<'a>(
    alloc: Global,
    tokens: &mut Reader<'_, 'a>,
    room: &mut usize,
) -> Result<Expression<'a>, ParseError>
    requires { begins (word "not") tokens.old.tokens ≡ true }
    ensures { MatchResult result
        (λ found. Took grammar.nots grammar.nots tokens.old tokens.new room.old room.new
        (expression_of found)) (Refuses (Stops tokens.old room.old)) }
{
    tokens.nest(room)?;
    let negated = operand(alloc, tokens, room)?;
    Ok(Expression::Not(Box::new(alloc, negated)?))
}

/// Reads a condition in parentheses.
#[cycle(condition)]
fn read_parentheses<'a>(
    alloc: Global,
    tokens: &mut Reader<'_, 'a>,
    room: &mut usize,
) -> Result<Expression<'a>, ParseError>
    requires { begins (sign "(") tokens.old.tokens ≡ true }
    ensures { MatchResult result
        (λ found. Took grammar.nots grammar.nots tokens.old tokens.new room.old room.new
        (expression_of found)) (Refuses (Stops tokens.old room.old)) }
{
    tokens.nest(room)?;
    let inner = read_operands(Operator::Or, alloc, tokens, room)?;
    tokens.sign(Sign::Close)?;
    Ok(inner)
}

/// Reads `not` and an operand, a condition in parentheses, or a comparison. The first two stand in functions of their
/// own, so that a comparison needs no stack for their locals.
#[cycle(condition)]
fn operand<'a>(
    alloc: Global,
    tokens: &mut Reader<'_, 'a>,
    room: &mut usize,
) -> Result<Expression<'a>, ParseError>
    ensures { MatchResult result
        (λ found. Took grammar.nots grammar.nots tokens.old tokens.new room.old room.new
        (expression_of found)) (Refuses (Stops tokens.old room.old)) }
{
    if tokens.begins(TokenKind::Not) {
        return read_negation(alloc, tokens, room);
    }
    if tokens.begins(TokenKind::Open) {
        return read_parentheses(alloc, tokens, room);
    }
    Ok(Expression::Compare(comparison(tokens)?))
}

/// Reads one part between this operator's tokens: parts of the next tighter operator, or an operand.
#[cycle(condition)]
fn part<'a>(
    operator: Operator,
    alloc: Global,
    tokens: &mut Reader<'_, 'a>,
    room: &mut usize,
) -> Result<Expression<'a>, ParseError>
    ensures { MatchResult result
        (λ found. Took (operands_of operator) (operands_of operator) tokens.old tokens.new room.old
        room.new (expression_of found)) (Refuses (Stops tokens.old room.old)) }
{
    match operator {
        Operator::Or => read_operands(Operator::Xor, alloc, tokens, room),
        Operator::Xor => read_operands(Operator::And, alloc, tokens, room),
        Operator::And => operand(alloc, tokens, room),
    }
}

/// Reads parts with the operator between them and joins them from left to right.
#[cycle(condition)]
fn read_operands<'a>(
    operator: Operator,
    alloc: Global,
    tokens: &mut Reader<'_, 'a>,
    room: &mut usize,
) -> Result<Expression<'a>, ParseError>
    ensures { MatchResult result
        (λ found. Took (part_of operator) (part_of operator) tokens.old tokens.new room.old room.new
        (expression_of found)) (Refuses (Stops tokens.old room.old)) }
{
    let mut left = part(operator, alloc, tokens, room)?;
    while tokens.begins(operator.kind()) {
        tokens.nest(room)?;
        let right = part(operator, alloc, tokens, room)?;
        left = operator.join(alloc, left, right)?;
    }
    Ok(left)
}

/// Reads a whole condition, with 64 nesting tokens at most. Errors: `Expected`, `TooNested` or `Memory`.
pub fn condition<'a>(
    alloc: Global,
    tokens: &mut Reader<'_, 'a>,
) -> Result<Expression<'a>, ParseError>
    ensures { MatchResult result
        (λ found. TookCondition tokens.old tokens.new (expression_of found))
        (Refuses (Stops tokens.old most_nested)) }
{
    let mut room = MOST_NESTING;
    read_operands(Operator::Or, alloc, tokens, &mut room)
}
