//! The types of values.

ghost use Rattle.std.specs.Prelude.{◌≡◌};
ghost use Rattle.d_types.specs.Vocabulary.{DType};
ghost use Rattle.d_types.specs.Typed as spec;

use crate::constants::integer;
use crate::typed::{BuiltIn, Operation, TypedExpr};
use d_parser::{IntegerType, UnaryOperator};
use d_values::{DType, IntType};

fn type_of_built_in(built_in: BuiltIn) -> DType
    ensures { result ≡ spec.type_of_built_in built_in }
{
    match built_in {
        BuiltIn::Argument(_) => integer(IntegerType::Int64),
        BuiltIn::Timestamp => integer(IntegerType::Uint64),
        BuiltIn::Cpu | BuiltIn::Pid | BuiltIn::Tid => integer(IntegerType::Int32),
        BuiltIn::Execname
        | BuiltIn::Probeprov
        | BuiltIn::Probemod
        | BuiltIn::Probefunc
        | BuiltIn::Probename => DType::Text,
    }
}

fn type_of_unary(operator: UnaryOperator, t: IntType) -> DType
    ensures { result ≡ spec.type_of_unary operator t }
{
    match operator {
        UnaryOperator::Not => integer(IntegerType::Int32),
        UnaryOperator::Complement | UnaryOperator::Negate | UnaryOperator::Keep => DType::Int(t),
    }
}

fn type_of_operation(operation: Operation) -> DType
    ensures { result ≡ DType.Int (spec.works_in operation) }
{
    match operation {
        Operation::Arithmetic(_, t) => DType::Int(t),
        Operation::Shift(_, t) => DType::Int(t),
    }
}

impl TypedExpr {
    /// The type of its value.
    ///
    /// ```text
    /// // of the expression `execname`
    /// expr.type_of(); // DType::Text
    /// ```
    pub fn type_of(&self) -> DType
        ensures { result ≡ spec.type_of (spec.typed_of self.now) }
    {
        match self {
            TypedExpr::Constant(t, _) => DType::Int(*t),
            TypedExpr::Text(_) => DType::Text,
            TypedExpr::BuiltIn(built_in) => type_of_built_in(*built_in),
            TypedExpr::Read(variable, _) => variable.holds,
            TypedExpr::Unary(operator, t, _) => type_of_unary(*operator, *t),
            TypedExpr::Operate(operation, _, _) => type_of_operation(*operation),
            TypedExpr::Compare(_, _, _, _) => integer(IntegerType::Int32),
            TypedExpr::CompareText(_, _, _) => integer(IntegerType::Int32),
            TypedExpr::Logic(_, _, _) => integer(IntegerType::Int32),
            TypedExpr::Choice(t, _, _, _) => *t,
            TypedExpr::Convert(_, to, _) => DType::Int(*to),
            TypedExpr::Assign(variable, _, _) => variable.holds,
            TypedExpr::Update(_, variable, _, _) => variable.holds,
            TypedExpr::Step(_, _, variable, _) => variable.holds,
            TypedExpr::Strlen(_) => integer(IntegerType::Uint64),
            TypedExpr::Strjoin(_, _) => DType::Text,
        }
    }
}
