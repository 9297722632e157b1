//! Conditions over watchpoint numbers, and their text.

ghost use Rattle.std.specs.Prelude.{◌≡◌, Some, nat_lt, nat_le};
ghost use Rattle.table_listing.specs.ConditionText.{condition_text, operator_name, tightness as binds, tightness_of};
ghost use Rattle.table_listing.specs.Formula.{formula_of, operator_of};

use std::fmt::{self, Display, Formatter, Write};

/// An operator between two operands; it displays as its word.
#[derive(Clone, Copy, Debug, PartialEq, Eq)]
pub enum Operator {
    /// `and`.
    And,
    /// `or`.
    Or,
    /// `xor`.
    Xor,
}

impl Operator {
    /// How tightly the operator binds: `or` the least, then `xor`, then `and`.
    fn tightness(self) -> u8
        ensures { result ≡ tightness_of (operator_of self) }
    {
        match self {
            Operator::Or => 0,
            Operator::Xor => 1,
            Operator::And => 2,
        }
    }
}

impl Display for Operator {
    ghost output = { λ operator. Some (operator_name (operator_of operator)) };

    fn fmt<W: Write>(&self, f: &mut Formatter<W>) -> fmt::Result {
        match self {
            Operator::And => write!(f, "and"),
            Operator::Or => write!(f, "or"),
            Operator::Xor => write!(f, "xor"),
        }
    }
}

/// The condition that an equation's words spell, over watchpoint numbers; two operands share a box. It displays as a
/// rule's condition with `w0`, `w1` and so on for comparisons, and with parentheses only where the meaning needs them.
#[derive(Debug, Drop)]
pub enum Equation {
    /// The watchpoint with this number, counted from 0.
    Watch(u16),
    /// True if the operand is false.
    Not(Box<Equation>),
    /// Two operands with an operator between them.
    Join(Operator, Box<(Equation, Equation)>),
}

impl Equation {
    /// How tightly the outermost part binds: `not` and watchpoints the most.
    fn tightness(&self) -> u8
        ensures { result ≡ binds (formula_of self.now) }
    {
        match self {
            Equation::Watch(_) | Equation::Not(_) => 3,
            Equation::Join(operator, _) => operator.tightness(),
        }
    }
}

impl Display for Equation {
    ghost output = { λ equation. Some (condition_text (formula_of equation)) };

    fn fmt<W: Write>(&self, f: &mut Formatter<W>) -> fmt::Result {
        match self {
            Equation::Watch(number) => write!(f, "w{number}"),
            Equation::Not(operand) => {
                let operand: &Equation = operand;
                if operand.tightness() < 3 {
                    write!(f, "not ({operand})")
                } else {
                    write!(f, "not {operand}")
                }
            }
            Equation::Join(operator, operands) => {
                let (first, second): (&Equation, &Equation) = (&operands.0, &operands.1);
                let binds = operator.tightness();
                match (first.tightness() < binds, second.tightness() <= binds) {
                    (false, false) => write!(f, "{first} {operator} {second}"),
                    (false, true) => write!(f, "{first} {operator} ({second})"),
                    (true, false) => write!(f, "({first}) {operator} {second}"),
                    (true, true) => write!(f, "({first}) {operator} ({second})"),
                }
            }
        }
    }
}
