//! An object that is being made, instruction by instruction.

ghost use Rattle.std.specs.Prelude.{OnOk};
ghost use Rattle.dif_codegen.specs.Steps.Pieces as pieces;
ghost use Rattle.dif_codegen.specs.Steps.Drafts.{Adds};
ghost use Rattle.dif_codegen.specs.Steps.Code.{answering, built_in_code, holding, joining, masking};
ghost use Rattle.dif_codegen.specs.Steps.Code.{measuring};
ghost use Rattle.dif_codegen.specs.Steps.Code.{narrowing, operate_on, stepping};

use crate::operators::{operator_of, opposite, shift_operator, step_operator};
use d_parser::Step;
use d_types::{Answer, BuiltIn, Operation};
use d_values::{DType, IntType, Text};
use dif_validate::{Difo, Function, Instr, Operator, Reg};
use std::alloc::AllocError;

/// Adds one instruction.
pub(crate) fn put(draft: &mut Difo, i: Instr) -> Result<(), AllocError>
    ensures { OnOk result (Adds (pieces.one_instr i) draft.old draft.new) }
{
    draft.code.push(i)?;
    Ok(())
}

/// Loads a number.
pub(crate) fn put_number(draft: &mut Difo, word: u64, d: Reg) -> Result<(), AllocError>
    ensures { OnOk result (Adds (pieces.number word d) draft.old draft.new) }
{
    draft.code.push(Instr::Setx(draft.numbers.len(), d))?;
    draft.numbers.push(word)?;
    Ok(())
}

/// Loads a text.
pub(crate) fn put_text(draft: &mut Difo, text: &Text, d: Reg) -> Result<(), AllocError>
    ensures { OnOk result (Adds (pieces.text text.now d) draft.old draft.new) }
{
    draft.code.push(Instr::Sets(draft.texts.len(), d))?;
    let text = text.clone()?;
    draft.texts.push(text)?;
    Ok(())
}

/// Brings a word to its type.
pub(crate) fn narrow(draft: &mut Difo, t: IntType, d: Reg) -> Result<(), AllocError>
    ensures { OnOk result (Adds (narrowing t d) draft.old draft.new) }
{
    if t.width == 64 {
        return Ok(());
    }
    let back = if t.signed {
        Operator::Sra
    } else {
        Operator::Srl
    };
    put_number(draft, u64::from(64 - t.width), Reg::R7)?;
    put(draft, Instr::Alu(Operator::Sll, d, Reg::R7, d))?;
    put(draft, Instr::Alu(back, d, Reg::R7, d))
}

// Takes a shift's count modulo the width.
fn mask(draft: &mut Difo, t: IntType, c: Reg) -> Result<(), AllocError>
    ensures { OnOk result (Adds (masking t c) draft.old draft.new) }
{
    put_number(draft, u64::from(t.width - 1), Reg::R7)?;
    put(draft, Instr::Alu(Operator::And, c, Reg::R7, c))
}

/// Makes the value of an operator between two registers, in the first.
pub(crate) fn operate(
    draft: &mut Difo,
    operation: Operation,
    a: Reg,
    b: Reg,
) -> Result<(), AllocError>
    ensures { OnOk result (Adds (operate_on operation a b) draft.old draft.new) }
{
    match operation {
        Operation::Arithmetic(op, t) => {
            put(draft, Instr::Alu(operator_of(op, t.signed), a, b, a))?;
            narrow(draft, t, a)
        }
        Operation::Shift(op, t) => {
            mask(draft, t, b)?;
            put(draft, Instr::Alu(shift_operator(op, t.signed), a, b, a))?;
            narrow(draft, t, a)
        }
    }
}

/// Brings a word to a variable's type.
pub(crate) fn hold(draft: &mut Difo, t: DType, d: Reg) -> Result<(), AllocError>
    ensures { OnOk result (Adds (holding t d) draft.old draft.new) }
{
    match t {
        DType::Int(t) => narrow(draft, t, d),
        DType::Text => Ok(()),
    }
}

/// Makes one more or one less.
pub(crate) fn put_step(draft: &mut Difo, step: Step, t: DType, d: Reg) -> Result<(), AllocError>
    ensures { OnOk result (Adds (stepping step t d) draft.old draft.new) }
{
    put_number(draft, 1, Reg::R7)?;
    put(draft, Instr::Alu(step_operator(step), d, Reg::R7, d))?;
    hold(draft, t, d)
}

/// Makes what a step gives, from the new word.
pub(crate) fn put_answer(
    draft: &mut Difo,
    answer: Answer,
    step: Step,
    t: DType,
    d: Reg,
) -> Result<(), AllocError>
    ensures { OnOk result (Adds (answering answer step t d) draft.old draft.new) }
{
    match answer {
        Answer::New => Ok(()),
        Answer::Old => put_step(draft, opposite(step), t, d),
    }
}

/// Makes the length of a text.
pub(crate) fn measure(draft: &mut Difo, d: Reg) -> Result<(), AllocError>
    ensures { OnOk result (Adds (measuring d) draft.old draft.new) }
{
    put(draft, Instr::Pushtr(d))?;
    put(draft, Instr::Call(Function::Strlen, d))?;
    put(draft, Instr::Flushts)
}

/// Joins two texts, in the first register.
pub(crate) fn join(draft: &mut Difo, d: Reg, a: Reg) -> Result<(), AllocError>
    ensures { OnOk result (Adds (joining d a) draft.old draft.new) }
{
    put(draft, Instr::Pushtr(d))?;
    put(draft, Instr::Pushtr(a))?;
    put(draft, Instr::Call(Function::Strjoin, d))?;
    put(draft, Instr::Flushts)
}

/// Loads a built-in variable.
pub(crate) fn put_built_in(draft: &mut Difo, b: BuiltIn, d: Reg) -> Result<(), AllocError>
    ensures { OnOk result (Adds (built_in_code b d) draft.old draft.new) }
{
    match b {
        BuiltIn::Argument(n) => {
            put_number(draft, u64::from(n), d)?;
            put(draft, Instr::Ldga(0, d, d))
        }
        BuiltIn::Timestamp => put(draft, Instr::Ldgs(0, d)),
        BuiltIn::Cpu => put(draft, Instr::Ldgs(1, d)),
        BuiltIn::Pid => put(draft, Instr::Ldgs(2, d)),
        BuiltIn::Tid => put(draft, Instr::Ldgs(3, d)),
        BuiltIn::Execname => put(draft, Instr::Ldgs(4, d)),
        BuiltIn::Probeprov => put(draft, Instr::Ldgs(5, d)),
        BuiltIn::Probemod => put(draft, Instr::Ldgs(6, d)),
        BuiltIn::Probefunc => put(draft, Instr::Ldgs(7, d)),
        BuiltIn::Probename => put(draft, Instr::Ldgs(8, d)),
    }
}
