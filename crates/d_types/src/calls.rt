//! Calls in expressions. None if the arguments don't fit.

ghost use Rattle.std.specs.Prelude.{◌≡◌, IfOk, option_map, Some};
ghost use Rattle.d_types.specs.Typed.{typed_of, typeds_of, type_of, Typed};
ghost use Rattle.d_types.specs.Steps.Typing as spec;

use crate::operations::{boxed, boxed_two};
use crate::typed::TypedExpr;
use crate::words::Callee;
use d_values::DType;
use std::alloc::{AllocError, Global};

fn length_of(alloc: Global, x: TypedExpr) -> Result<Option<TypedExpr>, AllocError>
    ensures ok { IfOk result
        (λ y. option_map typed_of y ≡ spec.strlen (type_of (typed_of x)) (typed_of x)) }
{
    match x.type_of() {
        DType::Text => {
            let x = boxed(alloc, x)?;
            Ok(Some(TypedExpr::Strlen(x)))
        }
        DType::Int(_) => {
            drop(x);
            Ok(None)
        }
    }
}

fn join(alloc: Global, x: TypedExpr, y: TypedExpr) -> Result<Option<TypedExpr>, AllocError>
    ensures ok { IfOk result (λ z. option_map typed_of z
        ≡ spec.strjoin (type_of (typed_of x)) (type_of (typed_of y)) (typed_of x) (typed_of y)) }
{
    match (x.type_of(), y.type_of()) {
        (DType::Text, DType::Text) => join_texts(alloc, x, y),
        _ => {
            drop(x);
            drop(y);
            Ok(None)
        }
    }
}

fn join_texts(alloc: Global, x: TypedExpr, y: TypedExpr) -> Result<Option<TypedExpr>, AllocError>
    ensures ok { IfOk result
        (λ z. option_map typed_of z ≡ Some (Typed.Strjoin (typed_of x) (typed_of y))) }
{
    let (x, y) = boxed_two(alloc, x, y)?;
    Ok(Some(TypedExpr::Strjoin(x, y)))
}

/// The only argument.
pub(crate) fn only(args: Vec<TypedExpr>) -> Option<TypedExpr>
    ensures { option_map typed_of result ≡ spec.only (typeds_of args.items) }
{
    let mut rest = args;
    let Some(x) = rest.pop() else {
        return None;
    };
    if !rest.is_empty() {
        drop(x);
        return None;
    }
    Some(x)
}

fn strlen(alloc: Global, args: Vec<TypedExpr>) -> Result<Option<TypedExpr>, AllocError>
    ensures ok { IfOk result
        (λ y. option_map typed_of y ≡ spec.strlen_of (spec.only (typeds_of args.items))) }
{
    match only(args) {
        Some(x) => length_of(alloc, x),
        None => Ok(None),
    }
}

fn strjoin(alloc: Global, args: Vec<TypedExpr>) -> Result<Option<TypedExpr>, AllocError>
    ensures ok { IfOk result (λ y. option_map typed_of y ≡ spec.strjoin_of (typeds_of args.items)) }
{
    let mut rest = args;
    let Some(y) = rest.pop() else {
        return Ok(None);
    };
    match only(rest) {
        Some(x) => join(alloc, x, y),
        None => {
            drop(y);
            Ok(None)
        }
    }
}

/// A call of a function.
pub(crate) fn call(
    alloc: Global,
    callee: Callee,
    args: Vec<TypedExpr>,
) -> Result<Option<TypedExpr>, AllocError>
    ensures ok { IfOk result
        (λ y. option_map typed_of y ≡ spec.call callee (typeds_of args.items)) }
{
    match callee {
        Callee::Strlen => strlen(alloc, args),
        Callee::Strjoin => strjoin(alloc, args),
        Callee::Trace | Callee::Printf | Callee::Exit => Ok(None),
    }
}
