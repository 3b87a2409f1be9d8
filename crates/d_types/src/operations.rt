//! What operators make of typed operands. None if they don't take such operands.
//!
//! Operands that aren't taken are dropped by name, and the next result holds one while it is made:
//! in each function that drops a tree at a scope's end, a proof goes through the tree's variants.

ghost use Rattle.std.specs.Prelude.{◌≡◌, IfOk, option_map, Some};
ghost use Rattle.d_types.specs.Vocabulary.{common_of, promoted_of, Int, Text};
ghost use Rattle.d_types.specs.{Typed.typed_of, Typed.Typed, Typed.type_of};
ghost use Rattle.d_types.specs.Operators as spec;
ghost use Rattle.d_types.specs.Steps.Operators as steps;

use crate::typed::{Operation, TypedExpr};
use d_parser::{BinaryOperator, LogicOperator, UnaryOperator};
use d_values::{ComparisonOperator, DType, IntType, ShiftOperator, common, promotion_of};
use std::alloc::{AllocError, Global};

/// A value in a box.
pub(crate) fn boxed<T: Drop>(alloc: Global, x: T) -> Result<Box<T>, AllocError>
    ensures ok { IfOk result (λ y. y.value ≡ x) }
{
    let boxed = Box::new(alloc, x)?;
    Ok(boxed)
}

/// Two values, each in a box.
pub(crate) fn boxed_two<T: Drop>(alloc: Global, x: T, y: T) -> Result<(Box<T>, Box<T>), AllocError>
    ensures ok { IfOk result (λ two. (two.0.value ≡ x) × (two.1.value ≡ y)) }
{
    let x = boxed(alloc, x)?;
    let y = boxed(alloc, y)?;
    Ok((x, y))
}

/// An integer as one of another type.
pub(crate) fn convert(
    alloc: Global,
    from: IntType,
    to: IntType,
    x: TypedExpr,
) -> Result<TypedExpr, AllocError>
    ensures ok { IfOk result (λ y. typed_of y ≡ spec.conversion_node from to (typed_of x)) }
{
    if from == to {
        Ok(x)
    } else {
        let x = boxed(alloc, x)?;
        Ok(TypedExpr::Convert(from, to, x))
    }
}

// Two integers, each as one of their common type.
fn in_common(
    alloc: Global,
    t: IntType,
    u: IntType,
    x: TypedExpr,
    y: TypedExpr,
) -> Result<(TypedExpr, TypedExpr), AllocError>
    ensures ok { IfOk result (λ both.
        (typed_of both.0 ≡ spec.conversion_node t (common_of t u) (typed_of x))
        × (typed_of both.1 ≡ spec.conversion_node u (common_of t u) (typed_of y))) }
{
    let to = common(t, u);
    let x = convert(alloc, t, to, x);
    let (x, y) = x.map(|x| (x, y))?;
    convert(alloc, u, to, y).map(|y| (x, y))
}

/// A value as one of a type.
pub(crate) fn as_type(
    alloc: Global,
    to: DType,
    x: TypedExpr,
) -> Result<Option<TypedExpr>, AllocError>
    ensures ok { IfOk result
        (λ y. option_map typed_of y ≡ steps.as_type (type_of (typed_of x)) to (typed_of x)) }
{
    match (x.type_of(), to) {
        (DType::Int(t), DType::Int(u)) => {
            let x = convert(alloc, t, u, x)?;
            Ok(Some(x))
        }
        (DType::Text, DType::Text) => Ok(Some(x)),
        _ => {
            drop(x);
            Ok(None)
        }
    }
}

pub(crate) fn unary(
    alloc: Global,
    operator: UnaryOperator,
    x: TypedExpr,
) -> Result<Option<TypedExpr>, AllocError>
    ensures ok { IfOk result
        (λ y. option_map typed_of y ≡ steps.unary operator (type_of (typed_of x)) (typed_of x)) }
{
    match x.type_of() {
        DType::Int(t) => {
            let promoted = promotion_of(t);
            let x = convert(alloc, t, promoted, x)?;
            unary_of(alloc, operator, promoted, x)
        }
        DType::Text => {
            drop(x);
            Ok(None)
        }
    }
}

// What an operator makes of a promoted operand.
fn unary_of(
    alloc: Global,
    operator: UnaryOperator,
    promoted: IntType,
    x: TypedExpr,
) -> Result<Option<TypedExpr>, AllocError>
    ensures ok { IfOk result
        (λ y. option_map typed_of y ≡ Some (Typed.Unary operator promoted (typed_of x))) }
{
    let x = boxed(alloc, x)?;
    Ok(Some(TypedExpr::Unary(operator, promoted, x)))
}

fn operate(
    alloc: Global,
    operation: Operation,
    x: TypedExpr,
    y: TypedExpr,
) -> Result<Option<TypedExpr>, AllocError>
    ensures ok { IfOk result
        (λ z. option_map typed_of z ≡ Some (Typed.Operate operation (typed_of x) (typed_of y))) }
{
    let (x, y) = boxed_two(alloc, x, y)?;
    Ok(Some(TypedExpr::Operate(operation, x, y)))
}

// A shift of an integer of this type.
fn shift(
    alloc: Global,
    op: ShiftOperator,
    t: IntType,
    x: TypedExpr,
    y: TypedExpr,
) -> Result<Option<TypedExpr>, AllocError>
    ensures ok { IfOk result (λ z. option_map typed_of z ≡ Some (Typed.Operate
        (Operation.Shift op (promoted_of t)) (spec.conversion_node t (promoted_of t) (typed_of x))
        (typed_of y))) }
{
    let promoted = promotion_of(t);
    let x = convert(alloc, t, promoted, x);
    let (x, y) = x.map(|x| (x, y))?;
    operate(alloc, Operation::Shift(op, promoted), x, y)
}

fn compare_integers(
    alloc: Global,
    op: ComparisonOperator,
    t: IntType,
    x: TypedExpr,
    y: TypedExpr,
) -> Result<Option<TypedExpr>, AllocError>
    ensures ok { IfOk result
        (λ z. option_map typed_of z ≡ Some (Typed.Compare op t (typed_of x) (typed_of y))) }
{
    let (x, y) = boxed_two(alloc, x, y)?;
    Ok(Some(TypedExpr::Compare(op, t, x, y)))
}

fn compare_texts(
    alloc: Global,
    op: ComparisonOperator,
    x: TypedExpr,
    y: TypedExpr,
) -> Result<Option<TypedExpr>, AllocError>
    ensures ok { IfOk result
        (λ z. option_map typed_of z ≡ Some (Typed.CompareText op (typed_of x) (typed_of y))) }
{
    let (x, y) = boxed_two(alloc, x, y)?;
    Ok(Some(TypedExpr::CompareText(op, x, y)))
}

fn logic(
    alloc: Global,
    op: LogicOperator,
    x: TypedExpr,
    y: TypedExpr,
) -> Result<Option<TypedExpr>, AllocError>
    ensures ok { IfOk result
        (λ z. option_map typed_of z ≡ Some (Typed.Logic op (typed_of x) (typed_of y))) }
{
    let (x, y) = boxed_two(alloc, x, y)?;
    Ok(Some(TypedExpr::Logic(op, x, y)))
}

// What an operator makes of two integers of these types.
fn of_integers(
    alloc: Global,
    operator: BinaryOperator,
    types: (IntType, IntType),
    x: TypedExpr,
    y: TypedExpr,
) -> Result<Option<TypedExpr>, AllocError>
    ensures ok { IfOk result (λ z. option_map typed_of z
        ≡ steps.binary operator (Int types.0) (Int types.1) (typed_of x) (typed_of y)) }
{
    let (t, u) = types;
    match operator {
        BinaryOperator::Arithmetic(op) => {
            let (x, y) = in_common(alloc, t, u, x, y)?;
            operate(alloc, Operation::Arithmetic(op, common(t, u)), x, y)
        }
        BinaryOperator::Shift(op) => shift(alloc, op, t, x, y),
        BinaryOperator::Compare(op) => {
            let (x, y) = in_common(alloc, t, u, x, y)?;
            compare_integers(alloc, op, common(t, u), x, y)
        }
        BinaryOperator::Logic(op) => logic(alloc, op, x, y),
    }
}

// What an operator makes of two texts.
fn of_texts(
    alloc: Global,
    operator: BinaryOperator,
    x: TypedExpr,
    y: TypedExpr,
) -> Result<Option<TypedExpr>, AllocError>
    ensures ok { IfOk result (λ z. option_map typed_of z
        ≡ steps.binary operator Text Text (typed_of x) (typed_of y)) }
{
    match operator {
        BinaryOperator::Compare(op) => compare_texts(alloc, op, x, y),
        BinaryOperator::Arithmetic(_) | BinaryOperator::Shift(_) | BinaryOperator::Logic(_) => {
            drop(x);
            drop(y);
            Ok(None)
        }
    }
}

/// What an operator makes of two operands.
pub(crate) fn binary(
    alloc: Global,
    operator: BinaryOperator,
    x: TypedExpr,
    y: TypedExpr,
) -> Result<Option<TypedExpr>, AllocError>
    ensures ok { IfOk result
        (λ z. option_map typed_of z ≡ steps.binary operator (type_of (typed_of x))
        (type_of (typed_of y)) (typed_of x) (typed_of y)) }
{
    match (x.type_of(), y.type_of()) {
        (DType::Int(t), DType::Int(u)) => of_integers(alloc, operator, (t, u), x, y),
        (DType::Text, DType::Text) => of_texts(alloc, operator, x, y),
        _ => {
            drop(x);
            drop(y);
            Ok(None)
        }
    }
}

fn choice_of(
    alloc: Global,
    t: DType,
    x: TypedExpr,
    y: TypedExpr,
    z: TypedExpr,
) -> Result<Option<TypedExpr>, AllocError>
    ensures ok { IfOk result (λ w. option_map typed_of w
        ≡ Some (Typed.Choice t (typed_of x) (typed_of y) (typed_of z))) }
{
    let sides = boxed_two(alloc, y, z);
    let (x, (y, z)) = sides.map(|sides| (x, sides))?;
    boxed(alloc, x).map(|x| Some(TypedExpr::Choice(t, x, y, z)))
}

// A choice between two integers of these types.
fn choice_in_common(
    alloc: Global,
    types: (IntType, IntType),
    x: TypedExpr,
    y: TypedExpr,
    z: TypedExpr,
) -> Result<Option<TypedExpr>, AllocError>
    ensures ok { IfOk result (λ w. option_map typed_of w
        ≡ Some (Typed.Choice (Int (common_of types.0 types.1)) (typed_of x)
        (spec.conversion_node types.0 (common_of types.0 types.1) (typed_of y))
        (spec.conversion_node types.1 (common_of types.0 types.1) (typed_of z)))) }
{
    let (t, u) = types;
    let sides = in_common(alloc, t, u, y, z);
    let (x, (y, z)) = sides.map(|sides| (x, sides))?;
    choice_of(alloc, DType::Int(common(t, u)), x, y, z)
}

/// `x ? y : z`
pub(crate) fn choice(
    alloc: Global,
    x: TypedExpr,
    y: TypedExpr,
    z: TypedExpr,
) -> Result<Option<TypedExpr>, AllocError>
    ensures ok { IfOk result (λ w. option_map typed_of w ≡ steps.choice (type_of (typed_of x))
        (type_of (typed_of y)) (type_of (typed_of z)) (typed_of x) (typed_of y) (typed_of z)) }
{
    match (x.type_of(), y.type_of(), z.type_of()) {
        (DType::Int(_), DType::Int(t), DType::Int(u)) => choice_in_common(alloc, (t, u), x, y, z),
        (DType::Int(_), DType::Text, DType::Text) => choice_of(alloc, DType::Text, x, y, z),
        _ => {
            drop(x);
            drop(y);
            drop(z);
            Ok(None)
        }
    }
}
