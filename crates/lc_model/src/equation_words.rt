//! The words of an equation that are operators or its end (this project's own). Any other word is a watchpoint's number.

/// Both operands.
pub const AND: u16 = 0xFF01;

/// At least one operand.
pub const OR: u16 = 0xFF02;

/// Exactly one operand.
pub const XOR: u16 = 0xFF03;

/// The opposite of the operand.
pub const NOT: u16 = 0xFF04;

/// Ends an equation.
pub const EQUAL: u16 = 0xFF05;
