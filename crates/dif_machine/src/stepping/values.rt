//! Instructions that move a value of either kind.

ghost use Rattle.std.specs.Prelude.{◌<◌, length};
ghost use Rattle.dif_machine.specs.Machine.{Knows};
ghost use Rattle.dif_machine.specs.Vocabulary.{Firing as Recorded, Mov, Sets, Ldgs};
ghost use Rattle.dif_machine.specs.Vocabulary.{Object, object_of};
ghost use Rattle.dif_machine.specs.Steps.Instructions.{CanExecute, Executes, ExecutesFor};

use crate::machine::Machine;
use crate::onward::{Onward, Step};
use dif_validate::{Difo, Reg};
use firings::Firing;

/// `mov a, d`: what another register holds.
#[inline(always)]
#[tactic(auto, using(crate::proofs::Executing::still_lasts, crate::proofs::Holding::keeps_refl))]
pub(super) fn mov(machine: &mut Machine, a: Reg, d: Reg) -> Step
    requires { CanExecute (Mov a d) machine.old.frame }
    ensures { Executes (Mov a d) machine.old result machine.new }
{
    let word = machine.word(a);
    machine.put(d, word);
    Ok(Onward::Next)
}

/// `sets i, d`: the text of this index in the table.
#[inline(always)]
pub(super) fn sets(difo: &Difo, machine: &mut Machine, i: usize, d: Reg) -> Step
    requires inside { i < length (object_of difo.now).texts }
    ensures { (f : Recorded) → ExecutesFor (Sets i d) (object_of difo.now) f
        machine.old result machine.new }
{
    let text = &difo.texts[i];
    let word = machine.text_word(text.as_bytes())?;
    machine.put(d, word);
    Ok(Onward::Next)
}

/// `ldgs v, d`: the built-in variable of this number.
#[inline(always)]
pub(super) fn ldgs(firing: &Firing, machine: &mut Machine, v: u8, d: Reg) -> Step
    requires there { v < 9 }
    requires known { Knows firing.now machine.old.known }
    ensures { (o : Object) → ExecutesFor (Ldgs v d) o firing.now machine.old result
        machine.new }
{
    let word = machine.built_in(firing, v)?;
    machine.put(d, word);
    Ok(Onward::Next)
}
