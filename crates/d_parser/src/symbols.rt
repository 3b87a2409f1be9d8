//! Operators and types as a script writes them.

ghost use Rattle.std.specs.Prelude.{◌≡◌, Some};
ghost use Rattle.d_parser.specs.Marks.{unary_mark, step_mark, assign_mark};
ghost use Rattle.d_parser.specs.Symbols.{binary_mark};
ghost use Rattle.d_parser.specs.Symbols as spec;

use crate::operators::{AssignOperator, BinaryOperator, LogicOperator, Step, UnaryOperator};
use crate::tree::{DeclaredType, IntegerType};
use d_values::{ArithmeticOperator, ComparisonOperator, ShiftOperator};
use std::fmt;

impl UnaryOperator {
    fn symbol(self) -> &'static str
        ensures { result.now ≡ spec.text_of (unary_mark self) }
    {
        match self {
            UnaryOperator::Not => "!",
            UnaryOperator::Complement => "~",
            UnaryOperator::Negate => "-",
            UnaryOperator::Keep => "+",
        }
    }
}

impl fmt::Display for UnaryOperator {
    ghost output = { λ o. Some (spec.text_of (unary_mark o)) };

    fn fmt<W: fmt::Write>(&self, f: &mut fmt::Formatter<W>) -> fmt::Result {
        f.write_str(self.symbol())
    }
}

impl fmt::Display for Step {
    ghost output = { λ o. Some (spec.text_of (step_mark o)) };

    fn fmt<W: fmt::Write>(&self, f: &mut fmt::Formatter<W>) -> fmt::Result {
        f.write_str(match self {
            Step::Increment => "++",
            Step::Decrement => "--",
        })
    }
}

impl BinaryOperator {
    fn symbol(self) -> &'static str
        ensures { result.now ≡ spec.text_of (binary_mark self) }
    {
        match self {
            BinaryOperator::Arithmetic(ArithmeticOperator::Multiply) => "*",
            BinaryOperator::Arithmetic(ArithmeticOperator::Divide) => "/",
            BinaryOperator::Arithmetic(ArithmeticOperator::Remainder) => "%",
            BinaryOperator::Arithmetic(ArithmeticOperator::Add) => "+",
            BinaryOperator::Arithmetic(ArithmeticOperator::Subtract) => "-",
            BinaryOperator::Shift(ShiftOperator::Left) => "<<",
            BinaryOperator::Shift(ShiftOperator::Right) => ">>",
            BinaryOperator::Compare(ComparisonOperator::Less) => "<",
            BinaryOperator::Compare(ComparisonOperator::LessEqual) => "<=",
            BinaryOperator::Compare(ComparisonOperator::Greater) => ">",
            BinaryOperator::Compare(ComparisonOperator::GreaterEqual) => ">=",
            BinaryOperator::Compare(ComparisonOperator::Equal) => "==",
            BinaryOperator::Compare(ComparisonOperator::NotEqual) => "!=",
            BinaryOperator::Arithmetic(ArithmeticOperator::BitAnd) => "&",
            BinaryOperator::Arithmetic(ArithmeticOperator::BitXor) => "^",
            BinaryOperator::Arithmetic(ArithmeticOperator::BitOr) => "|",
            BinaryOperator::Logic(LogicOperator::And) => "&&",
            BinaryOperator::Logic(LogicOperator::Xor) => "^^",
            BinaryOperator::Logic(LogicOperator::Or) => "||",
        }
    }
}

impl fmt::Display for BinaryOperator {
    ghost output = { λ o. Some (spec.text_of (binary_mark o)) };

    fn fmt<W: fmt::Write>(&self, f: &mut fmt::Formatter<W>) -> fmt::Result {
        f.write_str(self.symbol())
    }
}

impl AssignOperator {
    fn symbol(self) -> &'static str
        ensures { result.now ≡ spec.text_of (assign_mark self) }
    {
        match self {
            AssignOperator::Set => "=",
            AssignOperator::Arithmetic(ArithmeticOperator::Add) => "+=",
            AssignOperator::Arithmetic(ArithmeticOperator::Subtract) => "-=",
            AssignOperator::Arithmetic(ArithmeticOperator::Multiply) => "*=",
            AssignOperator::Arithmetic(ArithmeticOperator::Divide) => "/=",
            AssignOperator::Arithmetic(ArithmeticOperator::Remainder) => "%=",
            AssignOperator::Arithmetic(ArithmeticOperator::BitAnd) => "&=",
            AssignOperator::Arithmetic(ArithmeticOperator::BitOr) => "|=",
            AssignOperator::Arithmetic(ArithmeticOperator::BitXor) => "^=",
            AssignOperator::Shift(ShiftOperator::Left) => "<<=",
            AssignOperator::Shift(ShiftOperator::Right) => ">>=",
        }
    }
}

impl fmt::Display for AssignOperator {
    ghost output = { λ o. Some (spec.text_of (assign_mark o)) };

    fn fmt<W: fmt::Write>(&self, f: &mut fmt::Formatter<W>) -> fmt::Result {
        f.write_str(self.symbol())
    }
}

impl IntegerType {
    fn word(self) -> &'static str
        ensures { result.now ≡ spec.integer_word self }
    {
        match self {
            IntegerType::Int8 => "int8_t",
            IntegerType::Int16 => "int16_t",
            IntegerType::Int32 => "int32_t",
            IntegerType::Int64 => "int64_t",
            IntegerType::Uint8 => "uint8_t",
            IntegerType::Uint16 => "uint16_t",
            IntegerType::Uint32 => "uint32_t",
            IntegerType::Uint64 => "uint64_t",
        }
    }
}

impl fmt::Display for IntegerType {
    ghost output = { λ t. Some (spec.integer_word t) };

    fn fmt<W: fmt::Write>(&self, f: &mut fmt::Formatter<W>) -> fmt::Result {
        f.write_str(self.word())
    }
}

impl fmt::Display for DeclaredType {
    ghost output = { λ t. Some (spec.type_word t) };

    fn fmt<W: fmt::Write>(&self, f: &mut fmt::Formatter<W>) -> fmt::Result {
        match self {
            DeclaredType::Integer(integer) => write!(f, "{integer}"),
            DeclaredType::Text => f.write_str("string"),
        }
    }
}
