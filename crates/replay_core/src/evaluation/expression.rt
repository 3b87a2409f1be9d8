//! The evaluator: from left to right, an arm for each construct.

ghost use Rattle.replay_core.specs.Vocabulary.{Typed, keys_of, typed_of, typeds_of};
ghost use Rattle.replay_core.specs.Evaluation.{Meets};
ghost use Rattle.replay_core.specs.Threads.{tables_seen};
ghost use Rattle.replay_core.specs.Steps.Evaluation.{HasValue};

use crate::evaluation::built_in::{built_in, copied_text};
use crate::evaluation::fault::EvalFault;
use crate::evaluation::operators::{
    bit, compare_texts, compare_words, converted, exclusive_or, join, operate, text_length, unary,
    updated,
};
use crate::evaluation::values::{part_of, word_in};
use crate::evaluation::variables::{
    assign_variable, read_variable, step_variable, update_variable,
};
use crate::lanes::state::State;
use crate::lanes::tables::Tables;
use d_parser::LogicOperator;
use d_types::{Operation, TypedExpr, Variable};
use d_values::{Key, Value};

/// The value of an expression, with the variables as it leaves them (Dynamic Tracing Guide, "Types,
/// Operators, and Expressions"). Refused at a division by 0, whose variables stay as they then are.
#[cycle(evaluation)]
pub(crate) fn evaluate(e: &TypedExpr, state: &mut State<'_, '_, Tables>) -> Result<Value, EvalFault>
    ensures { HasValue (typed_of e.now) result state.old state.new }
{
    match e {
        TypedExpr::Constant(_, word) => Ok(Value::Int(*word)),
        TypedExpr::Text(text) => copied_text(state.alloc, text.as_bytes()),
        TypedExpr::BuiltIn(b) => built_in(state.alloc, *b, state.firing),
        TypedExpr::Read(x, keys) => {
            let key = evaluate_key(keys, state)?;
            read_variable(*x, &key, state)
        }
        TypedExpr::Unary(op, t, a) => Ok(unary(*op, *t, evaluate(a, state)?)),
        TypedExpr::Operate(op, a, b) => operate(*op, evaluate(a, state)?, evaluate(b, state)?),
        TypedExpr::Compare(op, t, a, b) => {
            let x = evaluate(a, state)?;
            Ok(compare_words(*op, *t, x, evaluate(b, state)?))
        }
        TypedExpr::CompareText(op, a, b) => {
            let x = evaluate(a, state)?;
            Ok(compare_texts(*op, x, evaluate(b, state)?))
        }
        TypedExpr::Logic(op, a, b) => logic(*op, a, b, state),
        TypedExpr::Choice(_, test, a, b) => match word_in(&evaluate(test, state)?) {
            0 => evaluate(b, state),
            _ => evaluate(a, state),
        },
        TypedExpr::Convert(from, to, a) => Ok(converted(*from, *to, evaluate(a, state)?)),
        TypedExpr::Assign(x, keys, a) => {
            let key = evaluate_key(keys, state)?;
            let value = evaluate(a, state)?;
            assign_variable(*x, &key, value, state)
        }
        TypedExpr::Update(op, x, keys, a) => update(*op, *x, keys, a, state),
        TypedExpr::Step(by, answer, x, keys) => {
            let key = evaluate_key(keys, state)?;
            step_variable(*by, *answer, *x, &key, state)
        }
        TypedExpr::Strlen(a) => Ok(text_length(evaluate(a, state)?)),
        TypedExpr::Strjoin(a, b) => {
            let x = evaluate(a, state)?;
            Ok(join(state.alloc, x, evaluate(b, state)?)?)
        }
    }
}

/// The key that expressions make, from left to right.
#[cycle(evaluation)]
pub(crate) fn evaluate_key(
    keys: &[TypedExpr],
    state: &mut State<'_, '_, Tables>,
) -> Result<Key, EvalFault>
    ensures { Meets tables_seen (λ f. keys_of f (typeds_of keys.now)) result state.old state.new }
{
    let mut key = Key::new(state.alloc);
    for e in keys {
        let value = evaluate(e, state)?;
        key.push(part_of(value))?;
    }
    Ok(key)
}

// The second is evaluated unless the first decides.
#[cycle(evaluation)]
fn logic(
    op: LogicOperator,
    a: &TypedExpr,
    b: &TypedExpr,
    state: &mut State<'_, '_, Tables>,
) -> Result<Value, EvalFault>
    ensures { HasValue (Typed.Logic op (typed_of a.now) (typed_of b.now))
        result state.old state.new }
{
    let x = evaluate(a, state)?;
    match op {
        LogicOperator::And if word_in(&x) == 0 => Ok(Value::Int(0)),
        LogicOperator::Or if word_in(&x) != 0 => Ok(Value::Int(1)),
        LogicOperator::And | LogicOperator::Or => Ok(bit(evaluate(b, state)?)),
        LogicOperator::Xor => Ok(exclusive_or(x, evaluate(b, state)?)),
    }
}

// The variable is read before the right side is evaluated.
#[cycle(evaluation)]
fn update(
    op: Operation,
    x: Variable,
    keys: &[TypedExpr],
    a: &TypedExpr,
    state: &mut State<'_, '_, Tables>,
) -> Result<Value, EvalFault>
    ensures { HasValue (Typed.Update op x (typeds_of keys.now) (typed_of a.now))
        result state.old state.new }
{
    let key = evaluate_key(keys, state)?;
    let old = read_variable(x, &key, state)?;
    let y = evaluate(a, state)?;
    let made = updated(op, old, y);
    update_variable(x, &key, made, state)
}
