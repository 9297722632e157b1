//! The operators between the operands of a condition.

ghost use Rattle.std.specs.Prelude.{◌≡◌, IfOk};
ghost use Rattle.lc_model.specs.Text.Syntax.{Join};
ghost use Rattle.rule_parser.specs.Condition.{kind_of_operator, operator_of};
ghost use Rattle.rule_parser.specs.Syntax.{expression_of};

use crate::syntax::Expression;
use rule_lexer::TokenKind;
use std::alloc::{AllocError, Global};

/// An operator between operands, the loosest first.
#[derive(Clone, Copy)]
pub enum Operator {
    /// `or`
    Or,
    /// `xor`
    Xor,
    /// `and`
    And,
}

impl Operator {
    /// Returns the kind of this operator's tokens.
    pub fn kind(self) -> TokenKind
        ensures { result ≡ kind_of_operator self }
    {
        match self {
            Operator::Or => TokenKind::Or,
            Operator::Xor => TokenKind::Xor,
            Operator::And => TokenKind::And,
        }
    }

    /// Builds a condition from two operands and this operator; the error is a lack of memory for their box.
    pub fn join<'a>(
        self,
        alloc: Global,
        left: Expression<'a>,
        right: Expression<'a>,
    ) -> Result<Expression<'a>, AllocError>
        ensures { IfOk result
            (λ joined. expression_of joined ≡ Join (operator_of self) (expression_of left.entry)
            (expression_of right.entry)) }
    {
        let operands = Box::new(alloc, (left, right))?;
        Ok(match self {
            Operator::Or => Expression::Or(operands),
            Operator::Xor => Expression::Xor(operands),
            Operator::And => Expression::And(operands),
        })
    }
}
