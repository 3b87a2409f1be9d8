//! Operators on values.

ghost use Rattle.std.specs.Prelude.{◌≡◌, IfOk, length};
ghost use Rattle.d_values.specs.Operators.{holds_of};
ghost use Rattle.d_values.specs.Texts.{joined_text, text_cmp};
ghost use Rattle.d_values.specs.Words.{narrow, order_of};
ghost use Rattle.d_types.specs.Expressions as spec;
ghost use Rattle.d_types.specs.Storage.{bytes_of, word_of};
ghost use Rattle.replay_core.specs.Evaluation.{Returns};
ghost use Rattle.replay_core.specs.Vocabulary.{Variables};

use crate::evaluation::fault::EvalFault;
use crate::evaluation::values::{bytes_in, word_in};
use d_parser::{Step, UnaryOperator};
use d_types::{Answer, Operation};
use d_values::{
    ComparisonOperator, DType, IntType, OutOfZero, Value, binary, compare, compare_text,
    complement, convert, join_text, negate, shift,
};
use std::alloc::{AllocError, Global};

// 1 for true, 0 for false.
fn truth(holds: bool) -> Value
    ensures { result ≡ Value.Int (spec.truth holds) }
{
    Value::Int(u64::from(holds))
}

/// An operator before its operand, of the type.
pub(crate) fn unary(op: UnaryOperator, t: IntType, x: Value) -> Value
    ensures { result ≡ Value.Int (spec.unary_of op t (word_of x)) }
{
    let word = word_in(&x);
    match op {
        UnaryOperator::Not => truth(word == 0),
        UnaryOperator::Complement => Value::Int(complement(t, word)),
        UnaryOperator::Negate => Value::Int(negate(t, word)),
        UnaryOperator::Keep => Value::Int(word),
    }
}

/// An integer as one of another type.
pub(crate) fn converted(from: IntType, to: IntType, x: Value) -> Value
    ensures { result ≡ Value.Int (narrow to (word_of x)) }
{
    Value::Int(convert(word_in(&x), from, to))
}

// The operator's word, refused if it divides by 0.
fn operation_word(op: Operation, a: u64, b: u64) -> Result<u64, OutOfZero>
    ensures { result ≡ spec.operation_of op a b }
{
    match op {
        Operation::Arithmetic(op, t) => binary(op, t, a, b),
        Operation::Shift(op, t) => Ok(shift(op, t, a, b)),
    }
}

/// The value of an operator between two integers, or the fault of its evaluation.
pub(crate) fn operate(op: Operation, x: Value, y: Value) -> Result<Value, EvalFault>
    ensures { (vars : Variables) → Returns
        (spec.integer (spec.word_or_fault (spec.operation_of op (word_of x) (word_of y)) vars))
        result vars }
{
    match operation_word(op, word_in(&x), word_in(&y)) {
        Ok(word) => Ok(Value::Int(word)),
        Err(_) => Err(EvalFault::DivideByZero),
    }
}

/// The word of an operation on the value of a variable and another.
pub(crate) fn updated(op: Operation, old: Value, y: Value) -> Result<u64, OutOfZero>
    ensures { result ≡ spec.operation_of op (narrow (spec.works_in op) (word_of old)) (word_of y) }
{
    operation_word(op, word_for_operation(op, word_in(&old)), word_in(&y))
}

/// 1 if the comparison of two integers holds, else 0.
pub(crate) fn compare_words(op: ComparisonOperator, t: IntType, x: Value, y: Value) -> Value
    ensures { result
        ≡ Value.Int (spec.truth (holds_of op (order_of t (word_of x) (word_of y)))) }
{
    truth(op.holds(compare(t, word_in(&x), word_in(&y))))
}

/// 1 if the comparison of two texts holds, else 0.
pub(crate) fn compare_texts(op: ComparisonOperator, x: Value, y: Value) -> Value
    ensures { result ≡ Value.Int (spec.truth (holds_of op (text_cmp (bytes_of x) (bytes_of y)))) }
{
    truth(op.holds(compare_text(bytes_in(&x), bytes_in(&y))))
}

/// 1 if it isn't 0, else 0.
pub(crate) fn bit(y: Value) -> Value
    ensures { result ≡ Value.Int (spec.bit (word_of y)) }
{
    truth(word_in(&y) != 0)
}

/// 1 if just one of the two isn't 0, else 0.
pub(crate) fn exclusive_or(x: Value, y: Value) -> Value
    ensures { result ≡ Value.Int
        (spec.at_zero (word_of x) (spec.bit (word_of y)) (spec.inverse (word_of y))) }
{
    truth((word_in(&x) == 0) != (word_in(&y) == 0))
}

/// How many bytes a text has.
pub(crate) fn text_length(x: Value) -> Value
    ensures { result ≡ Value.Int (length (bytes_of x)) }
{
    Value::Int(bytes_in(&x).len() as u64)
}

/// Two texts as one, cut to 255 bytes.
pub(crate) fn join(alloc: Global, x: Value, y: Value) -> Result<Value, AllocError>
    ensures { IfOk result (λ v. v ≡ Value.Text (joined_text (bytes_of x) (bytes_of y))) }
{
    let text = join_text(alloc, bytes_in(&x), bytes_in(&y))?;
    Ok(Value::Text(text))
}

// The word of a variable as one of the type that the operation works in.
fn word_for_operation(op: Operation, word: u64) -> u64
    ensures { result ≡ narrow (spec.works_in op) word }
{
    match op {
        Operation::Arithmetic(_, t) => convert(word, t, t),
        Operation::Shift(_, t) => convert(word, t, t),
    }
}

/// The word as one of the variable's type.
pub(crate) fn word_as_type(holds: DType, word: u64) -> u64
    ensures { result ≡ spec.word_as_type holds word }
{
    match holds {
        DType::Int(t) => convert(word, t, t),
        DType::Text => word,
    }
}

/// The word plus or minus one.
pub(crate) fn step_result(step: Step, word: u64) -> u64
    ensures { result ≡ spec.step_result step word }
{
    match step {
        Step::Increment => word.wrapping_add(1),
        Step::Decrement => word.wrapping_sub(1),
    }
}

/// The value of `++` and `--`.
pub(crate) fn step_value(answer: Answer, old: u64, new: u64) -> u64
    ensures { result ≡ spec.step_value answer old new }
{
    match answer {
        Answer::New => new,
        Answer::Old => old,
    }
}
