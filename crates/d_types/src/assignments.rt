//! Assignments to a slot. None if the types don't fit.

ghost use Rattle.std.specs.Prelude.{◌≡◌, IfOk, Some, None, option_map};
ghost use Rattle.d_types.specs.Steps.Faults.{Gives};
ghost use Rattle.d_types.specs.Typed.{typed_of, typeds_of, Typed, type_of};
ghost use Rattle.d_types.specs.{Operators.conversion_node};
ghost use Rattle.d_types.specs.Vocabulary.{common_of, Int};
ghost use Rattle.d_types.specs.Variables.{type_at};
ghost use Rattle.d_types.specs.Steps.Variables.{rows_of_entries};
ghost use Rattle.d_types.specs.Targets as spec;
ghost use Rattle.d_types.specs.Steps.Targets as steps;
ghost use Rattle.d_types.specs.Steps.Typing.{fitting, beside};

use crate::constants::integer;
use crate::fault::TypeFault;
use crate::operations::{as_type, boxed, convert};
use crate::targets::variable_at;
use crate::typed::{Answer, Operation, Space, TypedExpr, Variable};
use crate::variables::{Entry, set_type, type_at};
use d_parser::{AssignOperator, IntegerType, Step};
use d_values::{ArithmeticOperator, DType, IntType, common, promotion_of};
use std::alloc::{AllocError, Global};

/// What is assigned: the variable of a slot, under its keys.
#[derive(Drop)]
pub(crate) struct Assignee {
    pub(crate) space: Space,
    pub(crate) slot: usize,
    pub(crate) keys: Vec<TypedExpr>,
}

/// The type that an assignment gives its target at once.
pub(crate) fn type_at_once(operator: AssignOperator) -> Option<DType>
    ensures { result ≡ spec.type_at_once operator }
{
    match operator {
        AssignOperator::Set => None,
        AssignOperator::Arithmetic(_) | AssignOperator::Shift(_) => Some(integer(
            IntegerType::Int64,
        )),
    }
}

// The variable of a slot that holds this type, and the value for it in a box.
fn variable_and_value(
    alloc: Global,
    holds: DType,
    to: &Assignee,
    x: TypedExpr,
) -> Result<(Variable, Box<TypedExpr>), AllocError>
    ensures ok { IfOk result (λ both.
        (both.0 ≡ record { space = to.now.space; slot = to.now.slot; holds = holds })
        × (both.1.value ≡ x)) }
{
    let x = boxed(alloc, x)?;
    let variable = variable_at(to.space, to.slot, holds)?;
    Ok((variable, x))
}

fn assign_of(
    alloc: Global,
    holds: DType,
    to: Assignee,
    x: TypedExpr,
) -> Result<Option<TypedExpr>, AllocError>
    ensures ok { IfOk result (λ y. option_map typed_of y ≡ Some (Typed.Assign
        (record { space = to.space; slot = to.slot; holds = holds }) (typeds_of to.keys.items)
        (typed_of x))) }
{
    let (variable, x) = variable_and_value(alloc, holds, &to, x)?;
    Ok(Some(TypedExpr::Assign(variable, to.keys, x)))
}

fn update_of(
    alloc: Global,
    operation: Operation,
    holds: DType,
    to: Assignee,
    x: TypedExpr,
) -> Result<Option<TypedExpr>, AllocError>
    ensures ok { IfOk result (λ y. option_map typed_of y ≡ Some (Typed.Update operation
        (record { space = to.space; slot = to.slot; holds = holds }) (typeds_of to.keys.items)
        (typed_of x))) }
{
    let (variable, x) = variable_and_value(alloc, holds, &to, x)?;
    Ok(Some(TypedExpr::Update(operation, variable, to.keys, x)))
}

fn step_of(step: Step, answer: Answer, variable: Variable, keys: Vec<TypedExpr>) -> TypedExpr
    ensures { typed_of result ≡ Typed.Count step answer variable (typeds_of keys.items) }
{
    TypedExpr::Step(step, answer, variable, keys)
}

// The first value that is stored in a slot gives it its type.
fn store_first(
    alloc: Global,
    table: &mut [Entry],
    to: Assignee,
    x: TypedExpr,
) -> Result<Option<TypedExpr>, AllocError>
    ensures ok { IfOk result (λ y. option_map (λ z. (typed_of z, rows_of_entries table.new)) y
        ≡ steps.store to.space None to.slot (typeds_of to.keys.items) (typed_of x)
        (rows_of_entries table.old)) }
{
    let holds = x.type_of();
    set_type(table, to.slot, holds);
    assign_of(alloc, holds, to, x)
}

fn store(
    alloc: Global,
    table: &mut [Entry],
    to: Assignee,
    x: TypedExpr,
) -> Result<Option<TypedExpr>, AllocError>
    ensures ok { IfOk result (λ y. option_map (λ z. (typed_of z, rows_of_entries table.new)) y
        ≡ steps.store to.space (type_at (rows_of_entries table.old) to.slot) to.slot
        (typeds_of to.keys.items) (typed_of x) (rows_of_entries table.old)) }
{
    match type_at(table, to.slot) {
        None => store_first(alloc, table, to, x),
        Some(holds) => match as_type(alloc, holds, x)? {
            Some(y) => assign_of(alloc, holds, to, y),
            None => Ok(None),
        },
    }
}

// `+=` and its like, of an integer slot of the first type by a value of the second.
fn update_in_common(
    alloc: Global,
    op: ArithmeticOperator,
    t: IntType,
    to: Assignee,
    u: IntType,
    x: TypedExpr,
) -> Result<Option<TypedExpr>, AllocError>
    ensures ok { IfOk result (λ y. option_map typed_of y ≡ Some (Typed.Update
        (Operation.Arithmetic op (common_of t u))
        (record { space = to.space; slot = to.slot; holds = Int t }) (typeds_of to.keys.items)
        (conversion_node u (common_of t u) (typed_of x)))) }
{
    let both = common(t, u);
    let x = convert(alloc, u, both, x)?;
    update_of(alloc, Operation::Arithmetic(op, both), DType::Int(t), to, x)
}

/// An assignment of a value to a slot.
pub(crate) fn assignment(
    alloc: Global,
    table: &mut [Entry],
    operator: AssignOperator,
    to: Assignee,
    x: TypedExpr,
) -> Result<Option<TypedExpr>, AllocError>
    ensures ok { IfOk result (λ y. option_map (λ z. (typed_of z, rows_of_entries table.new)) y
        ≡ steps.assignment operator to.space (type_at (rows_of_entries table.old) to.slot)
        (type_of (typed_of x)) to.slot (typeds_of to.keys.items) (typed_of x)
        (rows_of_entries table.old)) }
{
    match (operator, type_at(table, to.slot), x.type_of()) {
        (AssignOperator::Set, _, _) => store(alloc, table, to, x),
        (AssignOperator::Arithmetic(op), Some(DType::Int(t)), DType::Int(u)) => {
            update_in_common(alloc, op, t, to, u, x)
        }
        (AssignOperator::Shift(op), Some(DType::Int(t)), DType::Int(_)) => {
            let operation = Operation::Shift(op, promotion_of(t));
            update_of(alloc, operation, DType::Int(t), to, x)
        }
        _ => {
            drop(to);
            drop(x);
            Ok(None)
        }
    }
}

/// `++` or `--`: the line that it is on, and which value it gives.
#[derive(Clone, Copy)]
pub(crate) struct StepOperator {
    pub(crate) line: usize,
    pub(crate) by: Step,
    pub(crate) answer: Answer,
}

/// `++` or `--` on a slot.
pub(crate) fn step(
    table: &[Entry],
    operator: StepOperator,
    to: Assignee,
) -> Result<TypedExpr, TypeFault>
    ensures { Gives (λ x. (typed_of x, rows_of_entries table.now)) result
        (fitting operator.line (beside (rows_of_entries table.now)
        (steps.step operator.by operator.answer to.space
        (type_at (rows_of_entries table.now) to.slot) to.slot (typeds_of to.keys.items)))) }
{
    match type_at(table, to.slot) {
        Some(DType::Int(t)) => {
            let variable = variable_at(to.space, to.slot, DType::Int(t))?;
            Ok(step_of(operator.by, operator.answer, variable, to.keys))
        }
        _ => Err(TypeFault::Mismatch {
            line: operator.line,
        }),
    }
}
