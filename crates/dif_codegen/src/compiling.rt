//! Expressions to objects.

ghost use Rattle.std.specs.Prelude.{◌≡◌, IfOk};
ghost use Rattle.d_types.specs.{Fitting.FitsRegisters};
ghost use Rattle.d_types.specs.Held.{IsConsistent, Slots};
ghost use Rattle.d_types.specs.Typed.{typed_argument, typed_of, typeds_of};
ghost use Rattle.d_types.specs.Wholes.{AnyIs, EachIs};
ghost use Rattle.dif_codegen.specs.Steps.Programs.{compiled_objects, optional_object};
ghost use Rattle.dif_codegen.specs.Steps.Programs.{compiled_object};

use crate::draft::put;
use crate::emitting::emit;
use crate::program::TypedObject;
use d_types::{TypedExpr, kind_of};
use dif_validate::{Difo, Instr, Reg, ValidDifo};
use std::alloc::{AllocError, Global};

/// The object of an expression.
pub(crate) fn compile_expression(alloc: Global, e: &TypedExpr) -> Result<TypedObject, AllocError>
    requires few { FitsRegisters (typed_of e.now) }
    requires consistent { (slots : Slots) × IsConsistent slots (typed_of e.now) }
    ensures { IfOk result (λ o. o ≡ compiled_object (typed_of e.now)) }
{
    let mut draft = Difo {
        code: Vec::new(alloc),
        texts: Vec::new(alloc),
        numbers: Vec::new(alloc),
    };
    emit(&mut draft, e, 1)?;
    put(&mut draft, Instr::Ret(Reg::R1))?;
    let returns = e.type_of();
    let object = ValidDifo::from_valid(draft, kind_of(returns));
    Ok(TypedObject { object, returns })
}

/// The objects of expressions.
pub(crate) fn compile_expressions(
    alloc: Global,
    all: &[TypedExpr],
) -> Result<Vec<TypedObject>, AllocError>
    requires few { EachIs FitsRegisters (typeds_of all.now) }
    requires consistent { (slots : Slots) × EachIs (IsConsistent slots) (typeds_of all.now) }
    ensures { IfOk result (λ v. v.items ≡ compiled_objects (typeds_of all.now)) }
{
    let mut objects = Vec::new(alloc);
    for e in all {
        let object = compile_expression(alloc, e)?;
        objects.push(object)?;
    }
    Ok(objects)
}

/// The object of an expression, if there is one.
pub(crate) fn compile_optional(
    alloc: Global,
    e: &Option<TypedExpr>,
) -> Result<Option<TypedObject>, AllocError>
    requires few { AnyIs FitsRegisters (typed_argument e.now) }
    requires consistent { (slots : Slots) × AnyIs (IsConsistent slots) (typed_argument e.now) }
    ensures { IfOk result (λ o. o ≡ optional_object (typed_argument e.now)) }
{
    match e {
        Some(e) => {
            let object = compile_expression(alloc, e)?;
            Ok(Some(object))
        }
        None => Ok(None),
    }
}
