//! Instructions that load and store variables.

ghost use Rattle.dif_machine.specs.Steps.Lasting.{IsRunning};
ghost use Rattle.dif_machine.specs.Vocabulary.{Firing as Recorded, Object};
ghost use Rattle.dif_machine.specs.Steps.Instructions.{CanExecute, ExecutesOn, load_of, store_of};

use crate::machine::Machine;
use crate::memory::{Memory, Variable};
use crate::onward::{Onward, Step};
use dif_validate::Reg;

/// `ldls x, d`, `ldts x, d` and `ldtaa x, d`: loads a variable.
#[inline(always)]
pub(super) fn load<M: Memory>(
    machine: &mut Machine,
    memory: &mut M,
    variable: Variable,
    d: Reg,
) -> Step
    requires can { CanExecute (load_of variable d) machine.old.frame }
    requires running { IsRunning M.is_over memory.old machine.old }
    ensures { (o : Object) (f : Recorded) → ExecutesOn M.holds M.is_over M.beside
        (load_of variable d) o f memory.old machine.old result memory.new machine.new }
{
    let word = machine.load(memory, variable)?;
    machine.put(d, word);
    Ok(Onward::Next)
}

/// `stls x, a`, `stts x, a` and `sttaa x, a`: stores a value in a variable.
#[inline(always)]
pub(super) fn store<M: Memory>(
    machine: &mut Machine,
    memory: &mut M,
    variable: Variable,
    a: Reg,
) -> Step
    requires can { CanExecute (store_of variable a) machine.old.frame }
    requires running { IsRunning M.is_over memory.old machine.old }
    ensures { (o : Object) (f : Recorded) → ExecutesOn M.holds M.is_over M.beside
        (store_of variable a) o f memory.old machine.old result memory.new machine.new }
{
    let word = machine.word(a);
    machine.store(memory, variable, word)?;
    Ok(Onward::Next)
}
