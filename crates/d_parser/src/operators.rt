//! Operators.

use d_values::{ArithmeticOperator, ComparisonOperator, ShiftOperator};

/// An operator before its operand.
#[derive(Clone, Copy, Debug, PartialEq, Eq)]
pub enum UnaryOperator {
    /// `!`
    Not,
    /// `~`
    Complement,
    /// `-`
    Negate,
    /// `+`
    Keep,
}

/// `++` or `--`.
#[derive(Clone, Copy, Debug, PartialEq, Eq)]
pub enum Step {
    /// `++`
    Increment,
    /// `--`
    Decrement,
}

/// `&&`, `^^` and `||` (Guide, "Logical Operators").
#[derive(Clone, Copy, Debug, PartialEq, Eq)]
pub enum LogicOperator {
    /// `&&`
    And,
    /// `^^`
    Xor,
    /// `||`
    Or,
}

/// An operator between two operands, by what it asks of them.
#[derive(Clone, Copy, Debug, PartialEq, Eq)]
pub enum BinaryOperator {
    Arithmetic(ArithmeticOperator),
    Shift(ShiftOperator),
    Compare(ComparisonOperator),
    Logic(LogicOperator),
}

/// `=`, or an operator with `=` after it.
#[derive(Clone, Copy, Debug, PartialEq, Eq)]
pub enum AssignOperator {
    Set,
    Arithmetic(ArithmeticOperator),
    Shift(ShiftOperator),
}
