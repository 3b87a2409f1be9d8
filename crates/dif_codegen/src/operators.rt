//! Registers and operators, as the machine names them.

ghost use Rattle.std.specs.Prelude.{◌≡◌, ◌<◌};
ghost use Rattle.dif_codegen.specs.Steps.Code as spec;

use d_parser::Step;
use d_values::{ArithmeticOperator, ComparisonOperator, DType, ShiftOperator};
use dif_validate::{Condition, Instr, Operator, Reg};

/// The register of a number below 8.
pub(crate) fn register(n: u8) -> Reg
    requires { n < 8 }
    ensures { result ≡ spec.register n }
{
    match n {
        0 => Reg::R0,
        1 => Reg::R1,
        2 => Reg::R2,
        3 => Reg::R3,
        4 => Reg::R4,
        5 => Reg::R5,
        6 => Reg::R6,
        _ => Reg::R7,
    }
}

/// The machine's operator.
pub(crate) fn operator_of(op: ArithmeticOperator, signed: bool) -> Operator
    ensures { result ≡ spec.operator_of op signed }
{
    match op {
        ArithmeticOperator::Multiply => Operator::Mul,
        ArithmeticOperator::Divide => {
            if signed {
                Operator::Sdiv
            } else {
                Operator::Udiv
            }
        }
        ArithmeticOperator::Remainder => {
            if signed {
                Operator::Srem
            } else {
                Operator::Urem
            }
        }
        ArithmeticOperator::Add => Operator::Add,
        ArithmeticOperator::Subtract => Operator::Sub,
        ArithmeticOperator::BitAnd => Operator::And,
        ArithmeticOperator::BitXor => Operator::Xor,
        ArithmeticOperator::BitOr => Operator::Or,
    }
}

/// The machine's operator of a shift.
pub(crate) fn shift_operator(op: ShiftOperator, signed: bool) -> Operator
    ensures { result ≡ spec.shift_operator op signed }
{
    match op {
        ShiftOperator::Left => Operator::Sll,
        ShiftOperator::Right => { if signed { Operator::Sra } else { Operator::Srl } }
    }
}

/// The machine's condition.
pub(crate) fn condition_of(op: ComparisonOperator, signed: bool) -> Condition
    ensures { result ≡ spec.condition_of op signed }
{
    if signed {
        match op {
            ComparisonOperator::Equal => Condition::Equal,
            ComparisonOperator::NotEqual => Condition::NotEqual,
            ComparisonOperator::Less => Condition::Less,
            ComparisonOperator::LessEqual => Condition::LessEqual,
            ComparisonOperator::Greater => Condition::Greater,
            ComparisonOperator::GreaterEqual => Condition::GreaterEqual,
        }
    } else {
        match op {
            ComparisonOperator::Equal => Condition::Equal,
            ComparisonOperator::NotEqual => Condition::NotEqual,
            ComparisonOperator::Less => Condition::Below,
            ComparisonOperator::LessEqual => Condition::BelowEqual,
            ComparisonOperator::Greater => Condition::Above,
            ComparisonOperator::GreaterEqual => Condition::AboveEqual,
        }
    }
}

/// The instruction that makes a value the next part of a key.
pub(crate) fn push_of(t: DType, a: Reg) -> Instr
    ensures { result ≡ spec.push_of t a }
{
    match t {
        DType::Int(_) => Instr::Pushtv(a),
        DType::Text => Instr::Pushtr(a),
    }
}

/// The machine's operator of a step.
pub(crate) fn step_operator(step: Step) -> Operator
    ensures { result ≡ spec.step_operator step }
{
    match step {
        Step::Increment => Operator::Add,
        Step::Decrement => Operator::Sub,
    }
}

/// The step back.
pub(crate) fn opposite(step: Step) -> Step
    ensures { result ≡ spec.opposite step }
{
    match step {
        Step::Increment => Step::Decrement,
        Step::Decrement => Step::Increment,
    }
}
