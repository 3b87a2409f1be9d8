//! Branches: their targets are written once both sides are made.

ghost use Rattle.std.specs.Prelude.{◌<◌, false, length, OnOk};
ghost use Rattle.dif_codegen.specs.Steps.Code as spec;
ghost use Rattle.dif_codegen.specs.Steps.Pieces.{bit_by};
ghost use Rattle.dif_codegen.specs.Vocabulary.{Cmp, Scmp};
ghost use Rattle.dif_codegen.specs.Steps.Drafts.{Adds, ClosesBranch};

use crate::draft::{narrow, put, put_number};
use crate::operators::condition_of;
use d_parser::UnaryOperator;
use d_values::{ComparisonOperator, IntType};
use dif_validate::{Condition, Difo, Instr, Operator, Reg};
use std::alloc::AllocError;

/// Writes the targets of a branch and of the jump that ends its first side.
pub(crate) fn close(draft: &mut Difo, branch: usize, condition: Condition, jump: usize)
    requires first { branch < length draft.old.code.items }
    requires second { jump < length draft.old.code.items }
    ensures { ClosesBranch branch condition jump draft.old draft.new }
{
    draft.code[branch] = Instr::Branch(condition, jump + 1);
    draft.code[jump] = Instr::Ba(draft.code.len());
}

/// Adds code for 1 if a branch after the test is taken, and else 0.
pub(crate) fn put_bit(
    draft: &mut Difo,
    test: Instr,
    condition: Condition,
    d: Reg,
) -> Result<(), AllocError>
    ensures { OnOk result (Adds (bit_by test condition d) draft.old draft.new) }
{
    put(draft, test)?;
    let branch = draft.code.len();
    put(draft, Instr::Branch(condition, 0))?;
    put_number(draft, 0, d)?;
    let jump = draft.code.len();
    put(draft, Instr::Ba(0))?;
    put_number(draft, 1, d)?;
    close(draft, branch, condition, jump);
    Ok(())
}

/// Adds a comparison of two integers of a type, which leaves 1 or 0 in the first register.
pub(crate) fn put_comparison(
    draft: &mut Difo,
    op: ComparisonOperator,
    t: IntType,
    a: Reg,
    b: Reg,
) -> Result<(), AllocError>
    ensures { OnOk result
        (Adds (bit_by (Cmp a b) (spec.condition_of op t.signed) a) draft.old draft.new) }
{
    put_bit(draft, Instr::Cmp(a, b), condition_of(op, t.signed), a)
}

/// Adds a comparison of two texts, which leaves 1 or 0 in the first register.
pub(crate) fn put_text_comparison(
    draft: &mut Difo,
    op: ComparisonOperator,
    a: Reg,
    b: Reg,
) -> Result<(), AllocError>
    ensures { OnOk result
        (Adds (bit_by (Scmp a b) (spec.condition_of op false) a) draft.old draft.new) }
{
    put_bit(draft, Instr::Scmp(a, b), condition_of(op, false), a)
}

/// Adds code that leaves 1 in the first of two registers if just one of them is 0, and else 0.
pub(crate) fn put_differing(draft: &mut Difo, a: Reg, b: Reg) -> Result<(), AllocError>
    ensures { OnOk result (Adds (spec.differing a b) draft.old draft.new) }
{
    put(draft, Instr::Tst(a))?;
    let branch = draft.code.len();
    put(draft, Instr::Branch(Condition::Equal, 0))?;
    put_bit(draft, Instr::Tst(b), Condition::Equal, a)?;
    let jump = draft.code.len();
    put(draft, Instr::Ba(0))?;
    put_bit(draft, Instr::Tst(b), Condition::NotEqual, a)?;
    close(draft, branch, Condition::Equal, jump);
    Ok(())
}

/// Applies an operator to a register.
pub(crate) fn put_unary(
    draft: &mut Difo,
    op: UnaryOperator,
    t: IntType,
    d: Reg,
) -> Result<(), AllocError>
    ensures { OnOk result (Adds (spec.unary_code op t d) draft.old draft.new) }
{
    match op {
        UnaryOperator::Not => put_bit(draft, Instr::Tst(d), Condition::Equal, d),
        UnaryOperator::Complement => {
            put(draft, Instr::Not(d, d))?;
            narrow(draft, t, d)
        }
        UnaryOperator::Negate => {
            put(draft, Instr::Alu(Operator::Sub, Reg::R0, d, d))?;
            narrow(draft, t, d)
        }
        UnaryOperator::Keep => Ok(()),
    }
}
