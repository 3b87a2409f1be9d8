//! What reads or changes a variable, once its key and the right side are evaluated.

ghost use Rattle.std.specs.Prelude.{◌≡◌};
ghost use Rattle.d_types.specs.Storage.{as_kind, value_of_variable, var_of, word_of};
ghost use Rattle.d_types.specs.Expressions as spec;
ghost use Rattle.replay_core.specs.Evaluation.{Meets};
ghost use Rattle.replay_core.specs.Threads.{tables_seen};
ghost use Rattle.replay_core.specs.Vocabulary.{kind_of};

use crate::evaluation::fault::EvalFault;
use crate::evaluation::operators::{step_result, step_value, word_as_type};
use crate::evaluation::values::{owned_value, word_in};
use crate::lanes::state::State;
use crate::lanes::tables::Tables;
use d_parser::Step;
use d_types::{Answer, Space, Variable, var_of};
use d_values::{Key, Kind, OutOfZero, Text, Value};
use std::alloc::Global;

// The value as one of the kind.
fn as_kind(alloc: Global, kind: Kind, value: Value) -> Value
    ensures value { result ≡ as_kind kind value }
    ensures kind { kind_of result ≡ kind }
{
    match (kind, value) {
        (Kind::Number, value) => Value::Int(word_in(&value)),
        (Kind::Text, Value::Int(_)) => Value::Text(Text::new(alloc)),
        (Kind::Text, Value::Text(text)) => Value::Text(text),
    }
}

/// A copy of a variable's value.
pub(crate) fn read_variable(
    x: Variable,
    key: &Key,
    state: &mut State<'_, '_, Tables>,
) -> Result<Value, EvalFault>
    ensures { Meets tables_seen (λ f vars. spec.Has (value_of_variable vars x key.now) vars)
        result state.old state.new }
{
    let value = match x.space {
        Space::Thread => owned_value(state.alloc, state.store.own.get(var_of(x), key))?,
        Space::Clause => owned_value(state.alloc, state.store.locals.get(var_of(x)))?,
    };
    Ok(value)
}

/// Gives a variable a value, and returns a copy of that value.
pub(crate) fn assign_variable(
    x: Variable,
    key: &Key,
    value: Value,
    state: &mut State<'_, '_, Tables>,
) -> Result<Value, EvalFault>
    ensures { Meets tables_seen (λ f vars. spec.assignment_outcome x key.now value vars)
        result state.old state.new }
{
    let copy = value.clone()?;
    let var = var_of(x);
    let value = as_kind(state.alloc, var.kind, value);
    match x.space {
        Space::Thread => state.store.own.set(var, key, value)?,
        Space::Clause => state.store.locals.set(var, value)?,
    }
    Ok(copy)
}

/// Gives a variable the word that an operation made, as one of its type, and returns that word.
pub(crate) fn update_variable(
    x: Variable,
    key: &Key,
    made: Result<u64, OutOfZero>,
    state: &mut State<'_, '_, Tables>,
) -> Result<Value, EvalFault>
    ensures { Meets tables_seen
        (λ f vars. spec.with (spec.word_or_fault made vars) (spec.update_outcome x key.now))
        result state.old state.new }
{
    let Ok(word) = made else {
        return Err(EvalFault::DivideByZero);
    };
    assign_variable(x, key, Value::Int(word_as_type(x.holds, word)), state)
}

/// Moves a variable by one, and returns its new word or its old one.
pub(crate) fn step_variable(
    step: Step,
    answer: Answer,
    x: Variable,
    key: &Key,
    state: &mut State<'_, '_, Tables>,
) -> Result<Value, EvalFault>
    ensures { Meets tables_seen (λ f vars.
        spec.step_outcome step answer x key.now (word_of (value_of_variable vars x key.now)) vars)
        result state.old state.new }
{
    let value = read_variable(x, key, state)?;
    let old = word_in(&value);
    let new = word_as_type(x.holds, step_result(step, old));
    drop(assign_variable(x, key, Value::Int(new), state)?);
    Ok(Value::Int(step_value(answer, old, new)))
}
