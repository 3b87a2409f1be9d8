//! Operators between two integers.

/// `* / % + - & ^ |` (Guide, "Arithmetic Operators" and "Bitwise Operators").
#[derive(Clone, Copy, Debug, PartialEq, Eq)]
pub enum ArithmeticOperator {
    /// `*`
    Multiply,
    /// `/`
    Divide,
    /// `%`
    Remainder,
    /// `+`
    Add,
    /// `-`
    Subtract,
    /// `&`
    BitAnd,
    /// `^`
    BitXor,
    /// `|`
    BitOr,
}

/// `<<` and `>>` (Guide, "Bitwise Operators").
#[derive(Clone, Copy, Debug, PartialEq, Eq)]
pub enum ShiftOperator {
    /// `<<`
    Left,
    /// `>>`
    Right,
}

/// `< <= > >= == !=`, of integers and of texts (Guide, "Relational Operators").
#[derive(Clone, Copy, Debug, PartialEq, Eq)]
pub enum ComparisonOperator {
    /// `<`
    Less,
    /// `<=`
    LessEqual,
    /// `>`
    Greater,
    /// `>=`
    GreaterEqual,
    /// `==`
    Equal,
    /// `!=`
    NotEqual,
}
