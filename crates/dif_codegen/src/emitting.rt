//! The code of an expression, one arm for each construct.

ghost use Rattle.std.specs.Prelude.{◌≡◌, ◌≤◌, ◌+◌, max, OnOk};
ghost use Rattle.d_types.specs.{Expressions.works_in};
ghost use Rattle.d_types.specs.Needs.{need, need_of_keys, need_of_two};
ghost use Rattle.d_types.specs.Typed.{typed_of, typeds_of, Typed, Read, Operate, Assign, Update};
ghost use Rattle.d_types.specs.Typed.{Count, Strjoin};
ghost use Rattle.dif_codegen.specs.Steps.Code.{code_of, keys_code};
ghost use Rattle.dif_codegen.specs.Steps.Drafts.{Adds};
ghost use Rattle.dif_codegen.specs.Steps.Pieces.{both};
ghost use Rattle.dif_codegen.specs.Vocabulary.{DType, LogicOperator};

use crate::choices::{
    close, put_bit, put_comparison, put_differing, put_text_comparison, put_unary,
};
use crate::draft::{
    hold, join, measure, narrow, operate, put, put_answer, put_built_in, put_number, put_step,
    put_text,
};
use crate::keys::{Target, after, fetch, lower, save};
use crate::operators::register;
use d_parser::{LogicOperator, Step};
use d_types::{Answer, Operation, TypedExpr};
use d_values::IntType;
use dif_validate::{Condition, Difo, Instr};
use std::alloc::AllocError;

// The type that an operation works in.
fn works_in(operation: Operation) -> IntType
    ensures { result ≡ works_in operation }
{
    match operation {
        Operation::Arithmetic(_, t) | Operation::Shift(_, t) => t,
    }
}

/// Adds the code that computes an expression into the register of this number, by it and those
/// above.
#[cycle(emission)]
pub(crate) fn emit(draft: &mut Difo, e: &TypedExpr, r: u8) -> Result<(), AllocError>
    requires few { r + need (typed_of e.now) ≤ 7 }
    ensures { OnOk result (Adds (code_of (typed_of e.now) r) draft.old draft.new) }
{
    let d = register(r);
    match e {
        TypedExpr::Constant(_, word) => put_number(draft, *word, d),
        TypedExpr::Text(text) => put_text(draft, text, d),
        TypedExpr::BuiltIn(b) => put_built_in(draft, *b, d),
        TypedExpr::Read(x, keys) => emit_read(draft, Target { variable: *x, keys }, r),
        TypedExpr::Unary(op, t, a) => {
            emit(draft, a, r)?;
            put_unary(draft, *op, *t, d)
        }
        TypedExpr::Convert(_, t, a) => {
            emit(draft, a, r)?;
            narrow(draft, *t, d)
        }
        TypedExpr::Strlen(a) => {
            emit(draft, a, r)?;
            measure(draft, d)
        }
        TypedExpr::Operate(op, a, b) => emit_operation(draft, *op, a, b, r),
        TypedExpr::Compare(op, t, a, b) => {
            emit_operands(draft, a, b, r)?;
            put_comparison(draft, *op, *t, d, register(r + 1))
        }
        TypedExpr::CompareText(op, a, b) => {
            emit_operands(draft, a, b, r)?;
            put_text_comparison(draft, *op, d, register(r + 1))
        }
        TypedExpr::Strjoin(a, b) => emit_join(draft, a, b, r),
        TypedExpr::Logic(op, a, b) => emit_logic(draft, *op, a, b, r),
        TypedExpr::Choice(_, c, a, b) => emit_choice(draft, c, a, b, r),
        TypedExpr::Assign(x, keys, a) => emit_assign(draft, Target { variable: *x, keys }, a, r),
        TypedExpr::Update(op, x, keys, a) => {
            let target = Target { variable: *x, keys };
            emit_update(draft, *op, target, a, r)
        }
        TypedExpr::Step(step, answer, x, keys) => {
            let target = Target { variable: *x, keys };
            emit_step(draft, *step, *answer, target, r)
        }
    }
}

// Two values, in this register and the next.
#[cycle(emission)]
fn emit_operands(draft: &mut Difo, a: &TypedExpr, b: &TypedExpr, r: u8) -> Result<(), AllocError>
    requires few { r + need_of_two (need (typed_of a.now)) (need (typed_of b.now)) ≤ 7 }
    ensures { OnOk result
        (Adds (both (code_of (typed_of a.now) r) (code_of (typed_of b.now) (r + 1)))
        draft.old draft.new) }
{
    emit(draft, a, r)?;
    emit(draft, b, r + 1)
}

#[cycle(emission)]
fn emit_operation(
    draft: &mut Difo,
    op: Operation,
    a: &TypedExpr,
    b: &TypedExpr,
    r: u8,
) -> Result<(), AllocError>
    requires few { r + need (Operate op (typed_of a.now) (typed_of b.now)) ≤ 7 }
    ensures { OnOk result
        (Adds (code_of (Operate op (typed_of a.now) (typed_of b.now)) r) draft.old draft.new) }
{
    emit_operands(draft, a, b, r)?;
    operate(draft, op, register(r), register(r + 1))
}

#[cycle(emission)]
fn emit_join(draft: &mut Difo, a: &TypedExpr, b: &TypedExpr, r: u8) -> Result<(), AllocError>
    requires few { r + need (Strjoin (typed_of a.now) (typed_of b.now)) ≤ 7 }
    ensures { OnOk result
        (Adds (code_of (Strjoin (typed_of a.now) (typed_of b.now)) r) draft.old draft.new) }
{
    emit_operands(draft, a, b, r)?;
    join(draft, register(r), register(r + 1))
}

#[cycle(emission)]
fn emit_logic(
    draft: &mut Difo,
    op: LogicOperator,
    a: &TypedExpr,
    b: &TypedExpr,
    r: u8,
) -> Result<(), AllocError>
    requires few { r + need (Typed.Logic op (typed_of a.now) (typed_of b.now)) ≤ 7 }
    ensures { OnOk result
        (Adds (code_of (Typed.Logic op (typed_of a.now) (typed_of b.now)) r) draft.old draft.new) }
{
    match op {
        LogicOperator::And => emit_and(draft, a, b, r),
        LogicOperator::Or => emit_or(draft, a, b, r),
        LogicOperator::Xor => {
            let d = register(r);
            emit_operands(draft, a, b, r)?;
            put_differing(draft, d, register(r + 1))
        }
    }
}

// The second operand is computed if the first is true, else the value is 0.
#[cycle(emission)]
fn emit_and(draft: &mut Difo, a: &TypedExpr, b: &TypedExpr, r: u8) -> Result<(), AllocError>
    requires few { r + max (need (typed_of a.now)) (need (typed_of b.now)) ≤ 7 }
    ensures { OnOk result
        (Adds (code_of (Typed.Logic LogicOperator.And (typed_of a.now) (typed_of b.now)) r)
        draft.old draft.new) }
{
    let d = register(r);
    emit(draft, a, r)?;
    put(draft, Instr::Tst(d))?;
    let branch = draft.code.len();
    put(draft, Instr::Branch(Condition::Equal, 0))?;
    emit(draft, b, r)?;
    put_bit(draft, Instr::Tst(d), Condition::NotEqual, d)?;
    let jump = draft.code.len();
    put(draft, Instr::Ba(0))?;
    put_number(draft, 0, d)?;
    close(draft, branch, Condition::Equal, jump);
    Ok(())
}

// The second operand is computed if the first is false, else the value is 1.
#[cycle(emission)]
fn emit_or(draft: &mut Difo, a: &TypedExpr, b: &TypedExpr, r: u8) -> Result<(), AllocError>
    requires few { r + max (need (typed_of a.now)) (need (typed_of b.now)) ≤ 7 }
    ensures { OnOk result
        (Adds (code_of (Typed.Logic LogicOperator.Or (typed_of a.now) (typed_of b.now)) r)
        draft.old draft.new) }
{
    let d = register(r);
    emit(draft, a, r)?;
    put(draft, Instr::Tst(d))?;
    let branch = draft.code.len();
    put(draft, Instr::Branch(Condition::Equal, 0))?;
    put_number(draft, 1, d)?;
    let jump = draft.code.len();
    put(draft, Instr::Ba(0))?;
    emit(draft, b, r)?;
    put_bit(draft, Instr::Tst(d), Condition::NotEqual, d)?;
    close(draft, branch, Condition::Equal, jump);
    Ok(())
}

#[cycle(emission)]
fn emit_choice(
    draft: &mut Difo,
    c: &TypedExpr,
    a: &TypedExpr,
    b: &TypedExpr,
    r: u8,
) -> Result<(), AllocError>
    requires few { r
        + max (need (typed_of c.now)) (max (need (typed_of a.now)) (need (typed_of b.now))) ≤ 7 }
    ensures { (t : DType) → OnOk result
        (Adds (code_of (Typed.Choice t (typed_of c.now) (typed_of a.now) (typed_of b.now)) r)
        draft.old draft.new) }
{
    emit(draft, c, r)?;
    put(draft, Instr::Tst(register(r)))?;
    let branch = draft.code.len();
    put(draft, Instr::Branch(Condition::Equal, 0))?;
    emit(draft, a, r)?;
    let jump = draft.code.len();
    put(draft, Instr::Ba(0))?;
    emit(draft, b, r)?;
    close(draft, branch, Condition::Equal, jump);
    Ok(())
}

// Keys, in this register and those after it.
#[cycle(emission)]
fn emit_keys(draft: &mut Difo, keys: &[TypedExpr], r: u8) -> Result<(), AllocError>
    requires few { r + need_of_keys 0 (typeds_of keys.now) ≤ 7 }
    ensures { OnOk result (Adds (keys_code (typeds_of keys.now) r) draft.old draft.new) }
{
    let mut q = r;
    for key in keys {
        emit(draft, key, q)?;
        q += 1;
    }
    Ok(())
}

#[cycle(emission)]
#[tactic(auto, using(crate::proofs::Adding::keys_need))]
fn emit_read(draft: &mut Difo, target: Target<'_>, r: u8) -> Result<(), AllocError>
    requires few { r + need (Read target.variable (typeds_of target.keys.now)) ≤ 7 }
    ensures { OnOk result
        (Adds (code_of (Read target.entry.variable (typeds_of target.entry.keys.now)) r)
        draft.old draft.new) }
{
    emit_keys(draft, target.keys, r)?;
    fetch(draft, target, r, register(r))
}

#[cycle(emission)]
#[tactic(auto, using(crate::proofs::Adding::keys_need))]
fn emit_assign(draft: &mut Difo, target: Target<'_>, a: &TypedExpr, r: u8) -> Result<(), AllocError>
    requires few { r
        + need (Assign target.variable (typeds_of target.keys.now) (typed_of a.now)) ≤ 7 }
    ensures { OnOk result
        (Adds (code_of (Assign target.entry.variable (typeds_of target.entry.keys.now)
        (typed_of a.now)) r) draft.old draft.new) }
{
    emit_keys(draft, target.keys, r)?;
    let q = after(target.keys, r);
    emit(draft, a, q)?;
    save(draft, target, r, register(q))?;
    lower(draft, target.keys, register(q), register(r))
}

#[cycle(emission)]
#[tactic(auto, using(crate::proofs::Adding::keys_need))]
fn emit_update(
    draft: &mut Difo,
    operation: Operation,
    target: Target<'_>,
    a: &TypedExpr,
    r: u8,
) -> Result<(), AllocError>
    requires few { r
        + need (Update operation target.variable (typeds_of target.keys.now) (typed_of a.now)) ≤ 7 }
    ensures { OnOk result
        (Adds (code_of (Update operation target.entry.variable (typeds_of target.entry.keys.now)
        (typed_of a.now)) r) draft.old draft.new) }
{
    emit_keys(draft, target.keys, r)?;
    let q = after(target.keys, r);
    let d = register(q);
    fetch(draft, target, r, d)?;
    narrow(draft, works_in(operation), d)?;
    emit(draft, a, q + 1)?;
    operate(draft, operation, d, register(q + 1))?;
    hold(draft, target.variable.holds, d)?;
    save(draft, target, r, d)?;
    lower(draft, target.keys, d, register(r))
}

#[cycle(emission)]
#[tactic(auto, using(crate::proofs::Adding::keys_need))]
fn emit_step(
    draft: &mut Difo,
    step: Step,
    answer: Answer,
    target: Target<'_>,
    r: u8,
) -> Result<(), AllocError>
    requires few { r
        + need (Count step answer target.variable (typeds_of target.keys.now)) ≤ 7 }
    ensures { OnOk result
        (Adds (code_of (Count step answer target.entry.variable (typeds_of target.entry.keys.now))
        r) draft.old draft.new) }
{
    let holds = target.variable.holds;
    emit_keys(draft, target.keys, r)?;
    let d = register(after(target.keys, r));
    fetch(draft, target, r, d)?;
    put_step(draft, step, holds, d)?;
    save(draft, target, r, d)?;
    put_answer(draft, answer, step, holds, d)?;
    lower(draft, target.keys, d, register(r))
}
