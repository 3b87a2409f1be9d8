//! Steps of the machine.

mod comparisons;
mod integers;
mod tuple;
mod values;
mod variables;

ghost use Rattle.std.specs.Prelude.{◌≢◌, ℕ};
ghost use Rattle.dif_machine.specs.Semantics.{act, Stuck};
ghost use Rattle.dif_machine.specs.{Frames.at_index, Machine.Knows, Steps.Lasting.IsRunning};
ghost use Rattle.dif_machine.specs.Steps.Instructions.{CanExecute, ExecutesOn};
ghost use Rattle.dif_machine.specs.Vocabulary.{object_of};

use crate::machine::Machine;
use crate::memory::{Memory, Variable};
use crate::onward::{Onward, Step};
use dif_validate::{Difo, Instr};
use firings::Firing;

/// Executes an instruction.
#[inline(always)]
pub(crate) fn execute<M: Memory>(
    difo: &Difo,
    firing: &Firing,
    instr: &Instr,
    machine: &mut Machine,
    memory: &mut M,
) -> Step
    requires can { CanExecute instr.now machine.old.frame }
    requires runs { (index : ℕ) × (act instr.now (object_of difo.now) firing.now
        (at_index machine.old.frame index) (M.holds memory.old machine.old.texts) ≢ Stuck) }
    requires known { Knows firing.now machine.old.known }
    requires running { IsRunning M.is_over memory.old machine.old }
    ensures { ExecutesOn M.holds M.is_over M.beside instr.now (object_of difo.now)
        firing.now memory.old machine.old result memory.new machine.new }
{
    match instr {
        Instr::Alu(op, a, b, d) => integers::alu(machine, *op, (*a, *b), *d),
        Instr::Not(a, d) => integers::not(machine, *a, *d),
        Instr::Mov(a, d) => values::mov(machine, *a, *d),
        Instr::Cmp(a, b) => comparisons::cmp(machine, *a, *b),
        Instr::Tst(a) => comparisons::tst(machine, *a),
        Instr::Scmp(a, b) => comparisons::scmp(machine, *a, *b),
        Instr::Ba(to) => Ok(Onward::Goes(*to)),
        Instr::Branch(condition, to) => comparisons::branch(machine, *condition, *to),
        Instr::Setx(i, d) => integers::setx(difo, machine, *i, *d),
        Instr::Sets(i, d) => values::sets(difo, machine, *i, *d),
        Instr::Ldgs(v, d) => values::ldgs(firing, machine, *v, *d),
        Instr::Ldga(_, a, d) => integers::ldga(firing, machine, *a, *d),
        Instr::Ldts(x, d) => variables::load(machine, memory, Variable::Scalar(*x), *d),
        Instr::Stts(x, a) => variables::store(machine, memory, Variable::Scalar(*x), *a),
        Instr::Ldls(x, d) => variables::load(machine, memory, Variable::Local(*x), *d),
        Instr::Stls(x, a) => variables::store(machine, memory, Variable::Local(*x), *a),
        Instr::Pushtr(a) => tuple::pushtr(machine, *a),
        Instr::Pushtv(a) => tuple::pushtv(machine, *a),
        Instr::Flushts => {
            machine.flush();
            Ok(Onward::Next)
        }
        Instr::Ldtaa(x, d) => variables::load(machine, memory, Variable::Element(*x), *d),
        Instr::Sttaa(x, a) => variables::store(machine, memory, Variable::Element(*x), *a),
        Instr::Call(f, d) => tuple::call(machine, *f, *d),
        Instr::Ret(a) => Ok(Onward::Ends(*a)),
        Instr::Nop => Ok(Onward::Next),
    }
}
