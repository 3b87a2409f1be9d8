//! Instructions that put an integer into a register.

ghost use Rattle.std.specs.Prelude.{◌<◌, length};
ghost use Rattle.dif_machine.specs.Vocabulary.{Alu, Not, Setx, Ldga, Firing as Recorded, Object};
ghost use Rattle.dif_machine.specs.Vocabulary.{object_of};
ghost use Rattle.dif_machine.specs.Steps.Instructions.{CanExecute, Executes, ExecutesFor};

use crate::built_in::argument;
use crate::fault::MachineFault;
use crate::machine::Machine;
use crate::onward::{Onward, Step};
use crate::operating::operate;
use d_values::{IntType, complement};
use dif_validate::{Difo, Operator, Reg};
use firings::Firing;
use numbered::Word;

/// `op a, b, d`: what the operator makes of the integers of two registers.
#[inline(always)]
#[tactic(auto, using(crate::proofs::Executing::still_lasts, crate::proofs::Holding::keeps_refl))]
pub(super) fn alu(machine: &mut Machine, op: Operator, read: (Reg, Reg), d: Reg) -> Step
    requires { CanExecute (Alu op read.0 read.1 d) machine.old.frame }
    ensures { Executes (Alu op read.0 read.1 d) machine.old result machine.new }
{
    match operate(op, machine.number(read.0), machine.number(read.1)) {
        Ok(word) => {
            machine.put(d, Word::Int(word));
            Ok(Onward::Next)
        }
        Err(_) => Err(MachineFault::DivideByZero),
    }
}

/// `not a, d`: an integer with all bits turned.
#[inline(always)]
#[tactic(auto, using(crate::proofs::Executing::still_lasts, crate::proofs::Holding::keeps_refl))]
pub(super) fn not(machine: &mut Machine, a: Reg, d: Reg) -> Step
    requires { CanExecute (Not a d) machine.old.frame }
    ensures { Executes (Not a d) machine.old result machine.new }
{
    let word = complement(IntType::UINT64, machine.number(a));
    machine.put(d, Word::Int(word));
    Ok(Onward::Next)
}

/// `setx i, d`: the integer of this index in the table.
#[inline(always)]
pub(super) fn setx(difo: &Difo, machine: &mut Machine, i: usize, d: Reg) -> Step
    requires inside { i < length (object_of difo.now).numbers }
    ensures { (f : Recorded) → ExecutesFor (Setx i d) (object_of difo.now) f
        machine.old result machine.new }
{
    let word = difo.numbers[i];
    machine.put(d, Word::Int(word));
    Ok(Onward::Next)
}

/// `ldga v, a, d`: the firing's argument of this number.
#[inline(always)]
#[tactic(auto, using(crate::proofs::Executing::still_lasts, crate::proofs::Holding::keeps_refl))]
pub(super) fn ldga(firing: &Firing, machine: &mut Machine, a: Reg, d: Reg) -> Step
    requires { CanExecute (Ldga 0 a d) machine.old.frame }
    ensures { (o : Object) → ExecutesFor (Ldga 0 a d) o firing.now machine.old result
        machine.new }
{
    let word = argument(firing, machine.number(a));
    machine.put(d, Word::Int(word));
    Ok(Onward::Next)
}
